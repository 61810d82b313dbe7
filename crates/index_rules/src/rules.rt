//! Rules: one combination for each index of a basis, up to a degree.
ghost use Rattle.std.specs.Prelude.{◌≡◌, ◌≤◌, length, IfOk};
ghost use Rattle.index_rules.specs.Rules.{RuleFacts, IsIndexOf, Answers};

use hopf_num::OutOfMemory;
use linear_combos::{Code, Combo};
use std::alloc::Global;

/// A rule: one combination for each index of a basis, up to a degree.
///
/// What it states never changes, whatever it holds.
pub trait Rule {
    ghost facts: { Self → RuleFacts };

    /// How many codes the keys of its answers have, from 0 to 2. It takes no memory.
    fn rank(&self) -> u32
        ensures value { result ≡ length (facts self.now).bases }
        ensures at_most { result ≤ 2 };

    /// The combination of an index. Want of memory is the only error.
    fn apply(&mut self, alloc: Global, code: &Code) -> Result<Combo, OutOfMemory>
        requires { IsIndexOf (facts self.old) code.now }
        ensures answers { IfOk result (Answers (facts self.old) code.now) }
        ensures keeps { facts self.new ≡ facts self.old };
}

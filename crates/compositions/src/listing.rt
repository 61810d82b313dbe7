//! The compositions of a number.
ghost use Rattle.std.specs.Prelude.{◌≡◌, ◌≤◌, [], sum, IfOk};
ghost use Rattle.linear_combos.specs.CodeLists.{ListsIndices};
ghost use Rattle.realisations.specs.Descents.{descent_set};
ghost use Rattle.realisations.specs.IndexKinds.{by_composition};

use crate::Composition;
use crate::fronts::part_before;
use hopf_num::OutOfMemory;
use linear_combos::{Code, Codes};
use std::alloc::Global;

// The composition of n without a descent: of one part, or of none where n is 0.
fn coarsest(n: u8) -> Composition
    requires { n ≤ 12 }
    ensures size { sum result ≡ n }
    ensures whole { descent_set result ≡ [] }
{
    let none = Code::empty();
    if n == 0 {
        return Composition::holding(none);
    }
    Composition::holding(part_before(n, &none))
}

/// The compositions of n, at most 12, each once, in canonical order.
///
/// There are 2^(n - 1) of them, and one of 0. The cost grows with the answer.
pub fn list(alloc: Global, n: u32) -> Result<Codes, OutOfMemory>
    requires { n ≤ 12 }
    ensures { IfOk result (ListsIndices by_composition n) }
{
    coarsest(n as u8).refinements(alloc)
}

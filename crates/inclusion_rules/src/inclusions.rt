//! Inclusions of a basis in a finer one, as rules.
ghost use Rattle.std.specs.Prelude.{◌≡◌, ◌≤◌, IfOk, min};
ghost use Rattle.inclusion_laws.specs.Inclusions.{IsInclusion};
ghost use Rattle.index_rules.specs.Changes.{change_facts};
ghost use Rattle.index_rules.specs.Spaces.{IsIndexWithin, limit_for};
ghost use Rattle.realisations.specs.Bases.{kind_of};
ghost use Rattle.realisations.specs.Codes.{Code as CodeOf};

use crate::table::Table;
use hopf_num::OutOfMemory;
use index_rules::{Rule, Signs, Space, signed_sum};
use linear_combos::{Code, Combo};
use std::alloc::Global;

/// A basis each of whose elements is the sum of the elements of a finer basis whose indices lie over its
/// index.
pub trait InclusionIn<Fine: Space>: Space {
    // the index over which an index of the finer basis lies
    ghost image: { CodeOf → CodeOf };

    /// The index over which an index of the finer basis lies. Want of memory is the only error.
    fn image_of(alloc: Global, code: &Code) -> Result<Code, OutOfMemory>
        requires { IsIndexWithin Fine.basis code.now }
        ensures { IfOk result (λ index. index ≡ image code.now) };

    // the elements over an index add up to its element
    ghost inclusion: { IsInclusion Fine.basis Self.basis image };

    // both bases are read at points of one kind
    ghost same_kind: { kind_of Self.basis ≡ kind_of Fine.basis };

    // up to degree 8 an element of degree n has at most 2^(3n) terms
    ghost small: { limit_for Fine.basis ≤ 8 };
}

/// The inclusion of a basis in a finer one, as a rule.
///
/// The sum for an index is that over the indices of its degree in the finer basis that lie over it. The rule
/// keeps a table of the degree that it was last asked for: all indices of that degree in the finer basis, in
/// groups by the indices over which they lie. Only an index of another degree makes it list them anew, find
/// where each lies, and sort. Each further index of the same degree costs a bisection and a pass over its group.
#[derive(Drop)]
pub struct ByInclusion<A: InclusionIn<B>, B: Space> {
    table: Table<A, B>,
}

impl<A: InclusionIn<B>, B: Space> ByInclusion<A, B> {
    /// The rule, whose table is of no degree yet. It takes no memory.
    pub fn new(alloc: Global) -> ByInclusion<A, B> {
        ByInclusion {
            table: Table::new(alloc),
        }
    }
}

impl<A: InclusionIn<B>, B: Space> Rule for ByInclusion<A, B> {
    ghost facts = { λ s. change_facts A.basis B.basis (min (limit_for A.basis) (limit_for B.basis)) 3 };

    fn rank(&self) -> u32 {
        1
    }

    fn apply(&mut self, alloc: Global, code: &Code) -> Result<Combo, OutOfMemory> {
        self.table.turn_to(alloc, A::degree(code))?;
        let over = self.table.over(alloc, code)?;
        signed_sum(alloc, &over, Signs::Plus)
    }
}

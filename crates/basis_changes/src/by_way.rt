//! Changes by way of a third basis.
ghost use Rattle.std.proofs.Common.{◌∙◌};
ghost use Rattle.std.specs.Prelude.{◌≡◌, ◌+◌, ◌≤◌, ℕ, min, refl};
ghost use Rattle.index_rules.specs.Changes.{change_facts};
ghost use Rattle.index_rules.specs.Spaces.{limit_for};
ghost use Rattle.realisations.specs.Bases.{kind_of};

use hopf_num::OutOfMemory;
use inclusion_rules::{ByInclusion, InclusionIn};
use index_rules::{ByChange, Change, Rule, Space, lift};
use linear_combos::{Code, Combo};
use std::alloc::Global;
use std::marker::PhantomData;

/// A rule that states the change from one basis to another.
pub trait ChangeRule<From: Space, To: Space>: Rule {
    // the norm of a combination of degree n is at most 2 to the power of so many times n
    ghost growth: { ℕ };

    // what the rule states, whatever it holds
    ghost states: { (rule : Self) → Self.facts rule ≡ change_facts From.basis To.basis (min (limit_for From.basis) (limit_for To.basis)) growth };

    // both bases are read at points of one kind
    ghost same_kind: { kind_of From.basis ≡ kind_of To.basis };
}

impl<A: Change<B>, B: Space> ChangeRule<A, B> for ByChange<A, B> {
    ghost growth = { A.change_growth };

    ghost states = { λ rule. refl };

    ghost same_kind = { A.same_kind };
}

impl<A: InclusionIn<B>, B: Space> ChangeRule<A, B> for ByInclusion<A, B> {
    ghost growth = { 3 };

    ghost states = { λ rule. refl };

    ghost same_kind = { A.same_kind };
}

/// The change from one basis to another by way of a third one, as a rule: an element is changed to that
/// one, and the terms of what it comes to go on by a rule from there.
///
/// Want of memory is the only error. The cost of an element is that of its change and of the rule at each
/// term of it, and a sort of the terms of all answers.
#[derive(Drop)]
pub struct ByWayOf<A: Change<B>, B: Space, C: Space, R: ChangeRule<B, C>> {
    from: PhantomData<A>,
    over: PhantomData<B>,
    to: PhantomData<C>,
    rest: R,
    ghost growths: { A.change_growth + R.growth ≤ 5 },
    ghost limits: { min (limit_for A.basis) (limit_for C.basis) ≤ limit_for B.basis },
}

impl<A: Change<B>, B: Space, C: Space, R: ChangeRule<B, C>> ByWayOf<A, B, C, R> {
    /// The change to the basis in between, and on by this rule. The norms of both, in bits for each degree,
    /// add to at most 5, and the degree limit of the basis in between is at least the lesser of the others.
    pub fn new(rest: R) -> ByWayOf<A, B, C, R>
        requires growths { A.change_growth + R.growth ≤ 5 }
        requires limits { min (limit_for A.basis) (limit_for C.basis) ≤ limit_for B.basis }
    {
        ByWayOf {
            from: PhantomData,
            over: PhantomData,
            to: PhantomData,
            rest,
        }
    }
}

impl<A: Change<B>, B: Space, C: Space, R: ChangeRule<B, C>> Rule for ByWayOf<A, B, C, R> {
    ghost facts = { λ s. change_facts A.basis C.basis (min (limit_for A.basis) (limit_for C.basis)) (A.change_growth + R.growth) };

    fn rank(&self) -> u32 {
        1
    }

    fn apply(&mut self, alloc: Global, code: &Code) -> Result<Combo, OutOfMemory> {
        let between = A::change(alloc, code)?;
        lift(alloc, &between, 1, &mut self.rest)
    }
}

impl<A: Change<B>, B: Space, C: Space, R: ChangeRule<B, C>> ChangeRule<A, C>
    for ByWayOf<A, B, C, R> {
    ghost growth = { A.change_growth + R.growth };

    ghost states = { λ rule. refl };

    ghost same_kind = { A.same_kind ∙ R.same_kind };
}

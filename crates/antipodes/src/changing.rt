//! The antipode as a rule, and its lift to one component.
ghost use Rattle.std.specs.Prelude.{◌≡◌, ◌-◌, ◌≤◌, [], ◌∷◌, IfOk};
ghost use Rattle.realisations.specs.Readings.{antipode as of_antipode};
ghost use Rattle.index_rules.specs.Changes.{operation_facts};
ghost use Rattle.index_rules.specs.Lifts.{CanLift, IsLift};
ghost use Rattle.index_rules.specs.Spaces.{limit_for};

use crate::bases::Antipode;
use crate::memo::Memo;
use crate::recursion::antipode;
use hopf_num::OutOfMemory;
use index_rules::{Rule, lift};
use linear_combos::{Code, Combo};
use std::alloc::Global;
use std::marker::PhantomData;
use std::mem;

/// The antipode of a basis, as a rule. It holds the antipodes that it found, and finds none of them twice.
#[derive(Drop)]
pub struct ByAntipode<A: Antipode> {
    of: PhantomData<A>,
    memo: Memo,
}

impl<A: Antipode> ByAntipode<A> {
    /// The rule, with the antipodes that are kept already.
    pub fn new(memo: Memo) -> ByAntipode<A>
        ensures { result.memo ≡ memo }
    {
        ByAntipode {
            of: PhantomData,
            memo,
        }
    }

    /// The antipodes that are kept.
    pub fn into_memo(self) -> Memo
        ensures { result ≡ self.memo }
    {
        let ByAntipode { memo, .. } = self;
        memo
    }
}

impl<A: Antipode> Rule for ByAntipode<A> {
    ghost facts = { λ s. operation_facts of_antipode A.basis (A.basis ∷ []) (limit_for A.basis) 5 };

    fn rank(&self) -> u32 {
        1
    }

    fn apply(&mut self, alloc: Global, code: &Code) -> Result<Combo, OutOfMemory> {
        antipode::<A>(alloc, code, &mut self.memo)
    }
}

/// The antipode of one component, counted from 1, of a combination.
///
/// Want of memory is the only error. The memo keeps what is found, also where an error comes. The cost is that
/// of `antipode` at each code, and a sort of the terms of all answers.
pub fn antipode_component<A: Antipode>(
    alloc: Global,
    value: &Combo,
    component: u32,
    memo: &mut Memo,
) -> Result<Combo, OutOfMemory>
    requires first { 1 ≤ component }
    requires can { CanLift (operation_facts of_antipode A.basis (A.basis ∷ []) (limit_for A.basis) 5) (component - 1) value.now }
    ensures { IfOk result (IsLift (operation_facts of_antipode A.basis (A.basis ∷ []) (limit_for A.basis) 5) (component - 1) value.now) }
{
    let mut rule: ByAntipode<A> = ByAntipode::new(mem::replace(memo, Memo::new(alloc)));
    let lifted = lift(alloc, value, component, &mut rule);
    *memo = rule.into_memo();
    lifted
}

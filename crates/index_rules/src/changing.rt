//! Operations on indices as rules, and their lifts to one component.
ghost use Rattle.std.specs.Prelude.{◌≡◌, ◌-◌, ◌≤◌, [], ◌∷◌, IfOk, min};
ghost use Rattle.realisations.specs.Readings.{coproduct as of_coproduct};
ghost use Rattle.index_rules.specs.Changes.{change_facts, operation_facts};
ghost use Rattle.index_rules.specs.Lifts.{CanLift, IsLift};
ghost use Rattle.index_rules.specs.Spaces.{limit_for};

use crate::lifting::lift;
use crate::rules::Rule;
use crate::spaces::{Change, Coalgebra, Space};
use hopf_num::OutOfMemory;
use linear_combos::{Code, Combo};
use std::alloc::Global;
use std::marker::PhantomData;

/// The change from one basis to another, as a rule.
#[derive(Drop)]
pub struct ByChange<A: Space, B: Space> {
    from: PhantomData<A>,
    to: PhantomData<B>,
}

impl<A: Change<B>, B: Space> ByChange<A, B> {
    /// The rule. It holds nothing.
    pub fn new() -> ByChange<A, B> {
        ByChange {
            from: PhantomData,
            to: PhantomData,
        }
    }
}

impl<A: Change<B>, B: Space> Rule for ByChange<A, B> {
    ghost facts = { λ s. change_facts A.basis B.basis (min (limit_for A.basis) (limit_for B.basis)) A.change_growth };

    fn rank(&self) -> u32 {
        1
    }

    fn apply(&mut self, alloc: Global, code: &Code) -> Result<Combo, OutOfMemory> {
        A::change(alloc, code)
    }
}

/// The coproduct of a basis, as a rule.
#[derive(Drop)]
pub struct ByCoproduct<A: Space> {
    of: PhantomData<A>,
}

impl<A: Coalgebra> ByCoproduct<A> {
    /// The rule. It holds nothing.
    pub fn new() -> ByCoproduct<A> {
        ByCoproduct { of: PhantomData }
    }
}

impl<A: Coalgebra> Rule for ByCoproduct<A> {
    ghost facts = { λ s. operation_facts of_coproduct A.basis (A.basis ∷ A.basis ∷ []) (limit_for A.basis) A.coproduct_growth };

    fn rank(&self) -> u32 {
        2
    }

    fn apply(&mut self, alloc: Global, code: &Code) -> Result<Combo, OutOfMemory> {
        A::coproduct(alloc, code)
    }
}

/// The same combination with one component, counted from 1, over another basis.
pub fn change_component<A: Change<B>, B: Space>(
    alloc: Global,
    value: &Combo,
    component: u32,
) -> Result<Combo, OutOfMemory>
    requires first { 1 ≤ component }
    requires can { CanLift (change_facts A.basis B.basis (min (limit_for A.basis) (limit_for B.basis)) A.change_growth) (component - 1) value.now }
    ensures { IfOk result (IsLift (change_facts A.basis B.basis (min (limit_for A.basis) (limit_for B.basis)) A.change_growth) (component - 1) value.now) }
{
    let mut rule: ByChange<A, B> = ByChange::new();
    lift(alloc, value, component, &mut rule)
}

/// The coproduct of one component, counted from 1, of a combination.
pub fn coproduct_component<A: Coalgebra>(
    alloc: Global,
    value: &Combo,
    component: u32,
) -> Result<Combo, OutOfMemory>
    requires first { 1 ≤ component }
    requires can { CanLift (operation_facts of_coproduct A.basis (A.basis ∷ A.basis ∷ []) (limit_for A.basis) A.coproduct_growth) (component - 1) value.now }
    ensures { IfOk result (IsLift (operation_facts of_coproduct A.basis (A.basis ∷ A.basis ∷ []) (limit_for A.basis) A.coproduct_growth) (component - 1) value.now) }
{
    let mut rule: ByCoproduct<A> = ByCoproduct::new();
    lift(alloc, value, component, &mut rule)
}

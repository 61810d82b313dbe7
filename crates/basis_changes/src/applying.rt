//! Changes of a component by a rule.
ghost use Rattle.std.specs.Prelude.{◌≡◌, ◌+◌, ◌≤◌, ◌-◌, min, IfOk};
ghost use Rattle.basis_changes.specs.Changes.{CanBeChanged, IsChanged};
ghost use Rattle.index_rules.specs.Spaces.{limit_for};

use crate::by_way::{ByWayOf, ChangeRule};
use basis_names::BasisId;
use hopf_num::OutOfMemory;
use inclusion_rules::{ByInclusion, InclusionIn};
use index_rules::{ByChange, Change, Space, lift};
use linear_combos::Combo;
use std::alloc::Global;

// The combination with a component over another basis, by a rule that states this change.
fn by_rule<A: Space, B: Space, R: ChangeRule<A, B> + Drop>(
    alloc: Global,
    combo: &Combo,
    component: u32,
    from: BasisId,
    to: BasisId,
    mut rule: R,
) -> Result<Combo, OutOfMemory>
    requires first { 1 ≤ component }
    requires from { from ≡ A.basis }
    requires to { to ≡ B.basis }
    requires can { CanBeChanged from to (component - 1) combo.now }
    ensures { IfOk result (IsChanged from to (component - 1) combo.now) }
{
    lift(alloc, combo, component, &mut rule)
}

// The same by the change of elements of one basis to the other.
pub(crate) fn by_change<A: Change<B>, B: Space>(
    alloc: Global,
    combo: &Combo,
    component: u32,
    from: BasisId,
    to: BasisId,
) -> Result<Combo, OutOfMemory>
    requires first { 1 ≤ component }
    requires from { from ≡ A.basis }
    requires to { to ≡ B.basis }
    requires can { CanBeChanged from to (component - 1) combo.now }
    ensures { IfOk result (IsChanged from to (component - 1) combo.now) }
{
    let rule: ByChange<A, B> = ByChange::new();
    by_rule::<A, B, ByChange<A, B>>(alloc, combo, component, from, to, rule)
}

// The same by the inclusion of a basis in a finer one.
pub(crate) fn by_inclusion<A: InclusionIn<B>, B: Space>(
    alloc: Global,
    combo: &Combo,
    component: u32,
    from: BasisId,
    to: BasisId,
) -> Result<Combo, OutOfMemory>
    requires first { 1 ≤ component }
    requires from { from ≡ A.basis }
    requires to { to ≡ B.basis }
    requires can { CanBeChanged from to (component - 1) combo.now }
    ensures { IfOk result (IsChanged from to (component - 1) combo.now) }
{
    let rule: ByInclusion<A, B> = ByInclusion::new(alloc);
    by_rule::<A, B, ByInclusion<A, B>>(alloc, combo, component, from, to, rule)
}

// The same by a change to a third basis, and one from there.
pub(crate) fn by_two_changes<A: Change<B>, B: Change<C>, C: Space>(
    alloc: Global,
    combo: &Combo,
    component: u32,
    from: BasisId,
    to: BasisId,
) -> Result<Combo, OutOfMemory>
    requires first { 1 ≤ component }
    requires from { from ≡ A.basis }
    requires to { to ≡ C.basis }
    requires growths { A.change_growth + B.change_growth ≤ 5 }
    requires limits { min (limit_for A.basis) (limit_for C.basis) ≤ limit_for B.basis }
    requires can { CanBeChanged from to (component - 1) combo.now }
    ensures { IfOk result (IsChanged from to (component - 1) combo.now) }
{
    let rule: ByWayOf<A, B, C, ByChange<B, C>> = ByWayOf::new(ByChange::new());
    by_rule::<A, C, ByWayOf<A, B, C, ByChange<B, C>>>(alloc, combo, component, from, to, rule)
}

// The same by a change to a third basis, and the inclusion of that one.
pub(crate) fn by_change_and_inclusion<A: Change<B>, B: InclusionIn<C>, C: Space>(
    alloc: Global,
    combo: &Combo,
    component: u32,
    from: BasisId,
    to: BasisId,
) -> Result<Combo, OutOfMemory>
    requires first { 1 ≤ component }
    requires from { from ≡ A.basis }
    requires to { to ≡ C.basis }
    requires growth { A.change_growth ≤ 2 }
    requires limits { min (limit_for A.basis) (limit_for C.basis) ≤ limit_for B.basis }
    requires can { CanBeChanged from to (component - 1) combo.now }
    ensures { IfOk result (IsChanged from to (component - 1) combo.now) }
{
    let rule: ByWayOf<A, B, C, ByInclusion<B, C>> = ByWayOf::new(ByInclusion::new(alloc));
    by_rule::<A, C, ByWayOf<A, B, C, ByInclusion<B, C>>>(alloc, combo, component, from, to, rule)
}

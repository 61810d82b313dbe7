//! The choice of the rules on a component by its basis.
ghost use Rattle.std.specs.Prelude.{◌≤◌, ◌-◌, [], ◌∷◌, ℕ, IsTrue, IfOk};
ghost use Rattle.realisations.specs.Readings.{antipode, coproduct};
ghost use Rattle.built_bases.specs.Table.{is_built};
ghost use Rattle.commuting_images.specs.Images.{image_facts};
ghost use Rattle.index_rules.specs.Changes.{operation_facts};
ghost use Rattle.index_rules.specs.Lifts.{AreMultiplied, CanLift, CanMultiply, IsLift};
ghost use Rattle.index_rules.specs.Spaces.{limit_for};

use antipodes::{Memo, antipode_component};
use commuting_images::image_component;
use fqsym::{FqsymF, FqsymG};
use fsym::FsymS;
use hopf_laws::BasisId;
use hopf_num::OutOfMemory;
use index_rules::{coproduct_component, multiply_components};
use linear_combos::Combo;
use ncsf::{NcsfL, NcsfR, NcsfS};
use pbt::PbtP;
use qsym::{QsymF, QsymM};
use std::alloc::Global;
use wqsym::WqsymM;

// The combination with the coproduct of a component over this basis.
pub(crate) fn coproduct_over(
    alloc: Global,
    combo: &Combo,
    component: u32,
    basis: BasisId,
) -> Result<Combo, OutOfMemory>
    requires first { 1 ≤ component }
    requires built { IsTrue (is_built basis) }
    requires can { (growth : ℕ) → CanLift (operation_facts coproduct basis (basis ∷ basis ∷ []) (limit_for basis) growth) (component - 1) combo.now }
    ensures { IfOk result (λ new. (growth : ℕ) × IsLift (operation_facts coproduct basis (basis ∷ basis ∷ []) (limit_for basis) growth) (component - 1) combo.now new) }
{
    match basis {
        BasisId::QsymM => coproduct_component::<QsymM>(alloc, combo, component),
        BasisId::QsymF => coproduct_component::<QsymF>(alloc, combo, component),
        BasisId::NcsfS => coproduct_component::<NcsfS>(alloc, combo, component),
        BasisId::NcsfL => coproduct_component::<NcsfL>(alloc, combo, component),
        BasisId::NcsfR => coproduct_component::<NcsfR>(alloc, combo, component),
        BasisId::FqsymF => coproduct_component::<FqsymF>(alloc, combo, component),
        BasisId::FqsymG => coproduct_component::<FqsymG>(alloc, combo, component),
        BasisId::WqsymM => coproduct_component::<WqsymM>(alloc, combo, component),
        BasisId::FsymS => coproduct_component::<FsymS>(alloc, combo, component),
        BasisId::PbtP => coproduct_component::<PbtP>(alloc, combo, component),
    }
}

// The combination with the antipode of a component over this basis.
pub(crate) fn antipode_over(
    alloc: Global,
    combo: &Combo,
    component: u32,
    basis: BasisId,
) -> Result<Combo, OutOfMemory>
    requires first { 1 ≤ component }
    requires built { IsTrue (is_built basis) }
    requires can { CanLift (operation_facts antipode basis (basis ∷ []) (limit_for basis) 5) (component - 1) combo.now }
    ensures { IfOk result (IsLift (operation_facts antipode basis (basis ∷ []) (limit_for basis) 5) (component - 1) combo.now) }
{
    let mut memo = Memo::new(alloc);
    antipode_with(alloc, combo, component, basis, &mut memo)
}

// The same, with the antipodes that are kept already.
fn antipode_with(
    alloc: Global,
    combo: &Combo,
    component: u32,
    basis: BasisId,
    memo: &mut Memo,
) -> Result<Combo, OutOfMemory>
    requires first { 1 ≤ component }
    requires built { IsTrue (is_built basis) }
    requires can { CanLift (operation_facts antipode basis (basis ∷ []) (limit_for basis) 5) (component - 1) combo.now }
    ensures { IfOk result (IsLift (operation_facts antipode basis (basis ∷ []) (limit_for basis) 5) (component - 1) combo.now) }
{
    match basis {
        BasisId::QsymM => antipode_component::<QsymM>(alloc, combo, component, memo),
        BasisId::QsymF => antipode_component::<QsymF>(alloc, combo, component, memo),
        BasisId::NcsfS => antipode_component::<NcsfS>(alloc, combo, component, memo),
        BasisId::NcsfL => antipode_component::<NcsfL>(alloc, combo, component, memo),
        BasisId::NcsfR => antipode_component::<NcsfR>(alloc, combo, component, memo),
        BasisId::FqsymF => antipode_component::<FqsymF>(alloc, combo, component, memo),
        BasisId::FqsymG => antipode_component::<FqsymG>(alloc, combo, component, memo),
        BasisId::WqsymM => antipode_component::<WqsymM>(alloc, combo, component, memo),
        BasisId::FsymS => antipode_component::<FsymS>(alloc, combo, component, memo),
        BasisId::PbtP => antipode_component::<PbtP>(alloc, combo, component, memo),
    }
}

// The combination with the commuting image of a component over this basis.
pub(crate) fn image_over(
    alloc: Global,
    combo: &Combo,
    component: u32,
    basis: BasisId,
) -> Result<Combo, OutOfMemory>
    requires first { 1 ≤ component }
    requires built { IsTrue (is_built basis) }
    requires can { (growth : ℕ) → CanLift (image_facts basis growth) (component - 1) combo.now }
    ensures { IfOk result (λ new. (growth : ℕ) × IsLift (image_facts basis growth) (component - 1) combo.now new) }
{
    match basis {
        BasisId::QsymM => image_component::<QsymM>(alloc, combo, component),
        BasisId::QsymF => image_component::<QsymF>(alloc, combo, component),
        BasisId::NcsfS => image_component::<NcsfS>(alloc, combo, component),
        BasisId::NcsfL => image_component::<NcsfL>(alloc, combo, component),
        BasisId::NcsfR => image_component::<NcsfR>(alloc, combo, component),
        BasisId::FqsymF => image_component::<FqsymF>(alloc, combo, component),
        BasisId::FqsymG => image_component::<FqsymG>(alloc, combo, component),
        BasisId::WqsymM => image_component::<WqsymM>(alloc, combo, component),
        BasisId::FsymS => image_component::<FsymS>(alloc, combo, component),
        BasisId::PbtP => image_component::<PbtP>(alloc, combo, component),
    }
}

// The combination with the product of a component and the next one, both over this basis.
pub(crate) fn product_over(
    alloc: Global,
    combo: &Combo,
    component: u32,
    basis: BasisId,
) -> Result<Combo, OutOfMemory>
    requires first { 1 ≤ component }
    requires built { IsTrue (is_built basis) }
    requires can { CanMultiply basis (component - 1) combo.now }
    ensures { IfOk result (λ new. (growth : ℕ) × AreMultiplied basis growth (component - 1) combo.now new) }
{
    match basis {
        BasisId::QsymM => multiply_components::<QsymM>(alloc, combo, component),
        BasisId::QsymF => multiply_components::<QsymF>(alloc, combo, component),
        BasisId::NcsfS => multiply_components::<NcsfS>(alloc, combo, component),
        BasisId::NcsfL => multiply_components::<NcsfL>(alloc, combo, component),
        BasisId::NcsfR => multiply_components::<NcsfR>(alloc, combo, component),
        BasisId::FqsymF => multiply_components::<FqsymF>(alloc, combo, component),
        BasisId::FqsymG => multiply_components::<FqsymG>(alloc, combo, component),
        BasisId::WqsymM => multiply_components::<WqsymM>(alloc, combo, component),
        BasisId::FsymS => multiply_components::<FsymS>(alloc, combo, component),
        BasisId::PbtP => multiply_components::<PbtP>(alloc, combo, component),
    }
}

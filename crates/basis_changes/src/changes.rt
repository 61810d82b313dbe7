//! The choice of a change by two bases.
ghost use Rattle.std.specs.Prelude.{◌≡◌, ◌≢◌, ◌≤◌, ◌-◌, IsTrue, IfOk};
ghost use Rattle.basis_names.specs.Bases.{algebra_of};
ghost use Rattle.basis_names.specs.declared.bases.AlgebraId.TheVariants.{Qsym, Ncsf, Fqsym};
ghost use Rattle.basis_names.specs.declared.bases.BasisId.TheVariants.{NcsfS as id_s, NcsfL as id_l, NcsfR as id_r, FsymS as id_t, PbtP as id_p};
ghost use Rattle.built_bases.specs.Table.{is_built};
ghost use Rattle.realisations.specs.Bases.{lies_in};
ghost use Rattle.basis_changes.specs.Changes.{CanBeChanged, IsChanged};

use crate::applying::{by_change, by_change_and_inclusion, by_inclusion, by_two_changes};
use basis_names::BasisId;
use fqsym::{FqsymF, FqsymG};
use fsym::FsymS;
use hopf_num::OutOfMemory;
use index_rules::Change;
use linear_combos::Combo;
use ncsf::{NcsfL, NcsfR, NcsfS};
use pbt::PbtP;
use qsym::{QsymF, QsymM};
use std::alloc::Global;
use wqsym::WqsymM;

// From a basis of QSym to the other one.
fn from_qsym(
    alloc: Global,
    combo: &Combo,
    component: u32,
    from: BasisId,
    to: BasisId,
) -> Result<Combo, OutOfMemory>
    requires first { 1 ≤ component }
    requires from { algebra_of from ≡ Qsym }
    requires to { IsTrue (is_built to) }
    requires inside { IsTrue (lies_in (algebra_of from) (algebra_of to)) }
    requires different { from ≢ to }
    requires can { CanBeChanged from to (component - 1) combo.now }
    ensures { IfOk result (IsChanged from to (component - 1) combo.now) }
{
    match (from, to) {
        (BasisId::QsymM, BasisId::QsymF) => {
            by_change::<QsymM, QsymF>(alloc, combo, component, from, to)
        }
        (BasisId::QsymF, BasisId::QsymM) => {
            by_change::<QsymF, QsymM>(alloc, combo, component, from, to)
        }
        _ => unreachable!(),
    }
}

// From a basis of NCSF to an algebra of words, by way of the ribbons.
fn to_words<A: Change<NcsfR>>(
    alloc: Global,
    combo: &Combo,
    component: u32,
    from: BasisId,
    to: BasisId,
) -> Result<Combo, OutOfMemory>
    requires first { 1 ≤ component }
    requires from { from ≡ A.basis }
    requires growth { A.change_growth ≤ 2 }
    requires algebra { algebra_of A.basis ≡ Ncsf }
    requires words { algebra_of to ≢ Ncsf }
    requires to { IsTrue (is_built to) }
    requires inside { IsTrue (lies_in (algebra_of from) (algebra_of to)) }
    requires can { CanBeChanged from to (component - 1) combo.now }
    ensures { IfOk result (IsChanged from to (component - 1) combo.now) }
{
    match to {
        BasisId::PbtP => {
            by_change_and_inclusion::<A, NcsfR, PbtP>(alloc, combo, component, from, to)
        }
        BasisId::FsymS => {
            by_change_and_inclusion::<A, NcsfR, FsymS>(alloc, combo, component, from, to)
        }
        BasisId::FqsymF => {
            by_change_and_inclusion::<A, NcsfR, FqsymF>(alloc, combo, component, from, to)
        }
        BasisId::FqsymG => {
            by_change_and_inclusion::<A, NcsfR, FqsymG>(alloc, combo, component, from, to)
        }
        BasisId::WqsymM => {
            by_change_and_inclusion::<A, NcsfR, WqsymM>(alloc, combo, component, from, to)
        }
        _ => unreachable!(),
    }
}

// From the complete functions, by way of the ribbons.
fn from_complete(
    alloc: Global,
    combo: &Combo,
    component: u32,
    from: BasisId,
    to: BasisId,
) -> Result<Combo, OutOfMemory>
    requires first { 1 ≤ component }
    requires from { from ≡ id_s }
    requires to { IsTrue (is_built to) }
    requires inside { IsTrue (lies_in (algebra_of from) (algebra_of to)) }
    requires different { from ≢ to }
    requires can { CanBeChanged from to (component - 1) combo.now }
    ensures { IfOk result (IsChanged from to (component - 1) combo.now) }
{
    match to {
        BasisId::NcsfR => by_change::<NcsfS, NcsfR>(alloc, combo, component, from, to),
        BasisId::NcsfL => {
            by_two_changes::<NcsfS, NcsfR, NcsfL>(alloc, combo, component, from, to)
        }
        _ => to_words::<NcsfS>(alloc, combo, component, from, to),
    }
}

// From the elementary functions, by way of the ribbons.
fn from_elementary(
    alloc: Global,
    combo: &Combo,
    component: u32,
    from: BasisId,
    to: BasisId,
) -> Result<Combo, OutOfMemory>
    requires first { 1 ≤ component }
    requires from { from ≡ id_l }
    requires to { IsTrue (is_built to) }
    requires inside { IsTrue (lies_in (algebra_of from) (algebra_of to)) }
    requires different { from ≢ to }
    requires can { CanBeChanged from to (component - 1) combo.now }
    ensures { IfOk result (IsChanged from to (component - 1) combo.now) }
{
    match to {
        BasisId::NcsfR => by_change::<NcsfL, NcsfR>(alloc, combo, component, from, to),
        BasisId::NcsfS => {
            by_two_changes::<NcsfL, NcsfR, NcsfS>(alloc, combo, component, from, to)
        }
        _ => to_words::<NcsfL>(alloc, combo, component, from, to),
    }
}

// From the ribbons.
fn from_ribbon(
    alloc: Global,
    combo: &Combo,
    component: u32,
    from: BasisId,
    to: BasisId,
) -> Result<Combo, OutOfMemory>
    requires first { 1 ≤ component }
    requires from { from ≡ id_r }
    requires to { IsTrue (is_built to) }
    requires inside { IsTrue (lies_in (algebra_of from) (algebra_of to)) }
    requires different { from ≢ to }
    requires can { CanBeChanged from to (component - 1) combo.now }
    ensures { IfOk result (IsChanged from to (component - 1) combo.now) }
{
    match to {
        BasisId::NcsfS => by_change::<NcsfR, NcsfS>(alloc, combo, component, from, to),
        BasisId::NcsfL => by_change::<NcsfR, NcsfL>(alloc, combo, component, from, to),
        BasisId::PbtP => by_inclusion::<NcsfR, PbtP>(alloc, combo, component, from, to),
        BasisId::FsymS => by_inclusion::<NcsfR, FsymS>(alloc, combo, component, from, to),
        BasisId::FqsymF => by_inclusion::<NcsfR, FqsymF>(alloc, combo, component, from, to),
        BasisId::FqsymG => by_inclusion::<NcsfR, FqsymG>(alloc, combo, component, from, to),
        BasisId::WqsymM => by_inclusion::<NcsfR, WqsymM>(alloc, combo, component, from, to),
        _ => unreachable!(),
    }
}

// From the trees.
fn from_tree(
    alloc: Global,
    combo: &Combo,
    component: u32,
    from: BasisId,
    to: BasisId,
) -> Result<Combo, OutOfMemory>
    requires first { 1 ≤ component }
    requires from { from ≡ id_p }
    requires to { IsTrue (is_built to) }
    requires inside { IsTrue (lies_in (algebra_of from) (algebra_of to)) }
    requires different { from ≢ to }
    requires can { CanBeChanged from to (component - 1) combo.now }
    ensures { IfOk result (IsChanged from to (component - 1) combo.now) }
{
    match to {
        BasisId::FqsymF => by_inclusion::<PbtP, FqsymF>(alloc, combo, component, from, to),
        BasisId::FqsymG => by_inclusion::<PbtP, FqsymG>(alloc, combo, component, from, to),
        BasisId::WqsymM => by_inclusion::<PbtP, WqsymM>(alloc, combo, component, from, to),
        _ => unreachable!(),
    }
}

// From the tableaux.
fn from_tableau(
    alloc: Global,
    combo: &Combo,
    component: u32,
    from: BasisId,
    to: BasisId,
) -> Result<Combo, OutOfMemory>
    requires first { 1 ≤ component }
    requires from { from ≡ id_t }
    requires to { IsTrue (is_built to) }
    requires inside { IsTrue (lies_in (algebra_of from) (algebra_of to)) }
    requires different { from ≢ to }
    requires can { CanBeChanged from to (component - 1) combo.now }
    ensures { IfOk result (IsChanged from to (component - 1) combo.now) }
{
    match to {
        BasisId::FqsymF => by_inclusion::<FsymS, FqsymF>(alloc, combo, component, from, to),
        BasisId::FqsymG => by_inclusion::<FsymS, FqsymG>(alloc, combo, component, from, to),
        BasisId::WqsymM => by_inclusion::<FsymS, WqsymM>(alloc, combo, component, from, to),
        _ => unreachable!(),
    }
}

// From a basis of FQSym to the other one or to packed words.
fn from_fqsym(
    alloc: Global,
    combo: &Combo,
    component: u32,
    from: BasisId,
    to: BasisId,
) -> Result<Combo, OutOfMemory>
    requires first { 1 ≤ component }
    requires from { algebra_of from ≡ Fqsym }
    requires to { IsTrue (is_built to) }
    requires inside { IsTrue (lies_in (algebra_of from) (algebra_of to)) }
    requires different { from ≢ to }
    requires can { CanBeChanged from to (component - 1) combo.now }
    ensures { IfOk result (IsChanged from to (component - 1) combo.now) }
{
    match (from, to) {
        (BasisId::FqsymF, BasisId::FqsymG) => {
            by_change::<FqsymF, FqsymG>(alloc, combo, component, from, to)
        }
        (BasisId::FqsymG, BasisId::FqsymF) => {
            by_change::<FqsymG, FqsymF>(alloc, combo, component, from, to)
        }
        (BasisId::FqsymF, BasisId::WqsymM) => {
            by_inclusion::<FqsymF, WqsymM>(alloc, combo, component, from, to)
        }
        (BasisId::FqsymG, BasisId::WqsymM) => {
            by_inclusion::<FqsymG, WqsymM>(alloc, combo, component, from, to)
        }
        _ => unreachable!(),
    }
}

/// The same combination with a component, counted from 1, over another basis whose algebra contains that
/// of the first.
///
/// Want of memory is the only error. The complete and the elementary functions change by way of the ribbons,
/// term by term, and each other change is one rule. The cost is that of the rules at each term, where an
/// inclusion lists and sorts all indices of the degree in the finer basis once for terms in a row of one
/// degree, and a sort of the terms of their answers.
pub fn change_between(
    alloc: Global,
    combo: &Combo,
    component: u32,
    from: BasisId,
    to: BasisId,
) -> Result<Combo, OutOfMemory>
    requires first { 1 ≤ component }
    requires from { IsTrue (is_built from) }
    requires to { IsTrue (is_built to) }
    requires inside { IsTrue (lies_in (algebra_of from) (algebra_of to)) }
    requires different { from ≢ to }
    requires can { CanBeChanged from to (component - 1) combo.now }
    ensures { IfOk result (IsChanged from to (component - 1) combo.now) }
{
    match from {
        BasisId::QsymM | BasisId::QsymF => from_qsym(alloc, combo, component, from, to),
        BasisId::NcsfS => from_complete(alloc, combo, component, from, to),
        BasisId::NcsfL => from_elementary(alloc, combo, component, from, to),
        BasisId::NcsfR => from_ribbon(alloc, combo, component, from, to),
        BasisId::FqsymF | BasisId::FqsymG => from_fqsym(alloc, combo, component, from, to),
        BasisId::PbtP => from_tree(alloc, combo, component, from, to),
        BasisId::FsymS => from_tableau(alloc, combo, component, from, to),
        _ => unreachable!(),
    }
}

//! The choice of the rules on indices by a basis.
ghost use Rattle.std.specs.Prelude.{◌≡◌, ◌+◌, ◌≤◌, ◌↔◌, [], ◌∷◌, IsTrue, IfOk};
ghost use Rattle.realisations.specs.Answers.{IsAnswer};
ghost use Rattle.realisations.specs.Indices.{IsIndex, degree_of};
ghost use Rattle.linear_combos.specs.CodeLists.{ListsIndices};
ghost use Rattle.realisations.specs.Bases.{index_kind_of};
ghost use Rattle.realisations.specs.Readings.{antipode as of_antipode, applied, coproduct, element, product};
ghost use Rattle.basis_names.specs.Bases.{algebra_of, limit_of};
ghost use Rattle.built_bases.specs.Table.{is_built};
ghost use Rattle.basis_routes.specs.Rules.{IsIndexWithin};

use antipodes::{Memo, antipode};
use fqsym::{FqsymF, FqsymG};
use fsym::FsymS;
use hopf_laws::BasisId;
use hopf_num::OutOfMemory;
use index_rules::{Algebra, Coalgebra, Space};
use linear_combos::{Code, Codes, Combo};
use ncsf::{NcsfL, NcsfR, NcsfS};
use pbt::PbtP;
use qsym::{QsymF, QsymM};
use std::alloc::Global;
use wqsym::WqsymM;

// The degree of an index, by its code.
pub(crate) fn degree_of_code(basis: BasisId, code: &Code) -> u32
    ensures { result ≡ degree_of basis code.now }
{
    match basis {
        BasisId::QsymM | BasisId::QsymF | BasisId::NcsfS | BasisId::NcsfL | BasisId::NcsfR =>
            code.sum(),
        BasisId::FqsymF | BasisId::FqsymG | BasisId::WqsymM | BasisId::FsymS | BasisId::PbtP =>
            code.len() as u32,
    }
}

/// Whether the code is that of an index of the basis within the degree limit of its algebra. A basis
/// that is not built has none.
pub fn is_index(basis: BasisId, code: &Code) -> bool
    ensures { IsTrue result ↔ IsIndexWithin basis code.now }
{
    match basis {
        BasisId::QsymM => QsymM::is_index(code),
        BasisId::QsymF => QsymF::is_index(code),
        BasisId::NcsfS => NcsfS::is_index(code),
        BasisId::NcsfL => NcsfL::is_index(code),
        BasisId::NcsfR => NcsfR::is_index(code),
        BasisId::FqsymF => FqsymF::is_index(code),
        BasisId::FqsymG => FqsymG::is_index(code),
        BasisId::WqsymM => WqsymM::is_index(code),
        BasisId::FsymS => FsymS::is_index(code),
        BasisId::PbtP => PbtP::is_index(code),
    }
}

/// The indices of a degree of a built basis, each once, in canonical order.
pub fn list_of(alloc: Global, basis: BasisId, degree: u32) -> Result<Codes, OutOfMemory>
    requires built { IsTrue (is_built basis) }
    requires degree { degree ≤ limit_of (algebra_of basis) }
    ensures { IfOk result (ListsIndices (index_kind_of basis) degree) }
{
    match basis {
        BasisId::QsymM => QsymM::list(alloc, degree),
        BasisId::QsymF => QsymF::list(alloc, degree),
        BasisId::NcsfS => NcsfS::list(alloc, degree),
        BasisId::NcsfL => NcsfL::list(alloc, degree),
        BasisId::NcsfR => NcsfR::list(alloc, degree),
        BasisId::FqsymF => FqsymF::list(alloc, degree),
        BasisId::FqsymG => FqsymG::list(alloc, degree),
        BasisId::WqsymM => WqsymM::list(alloc, degree),
        BasisId::FsymS => FsymS::list(alloc, degree),
        BasisId::PbtP => PbtP::list(alloc, degree),
    }
}

/// The product of two elements of a built basis, as a combination over the same basis. The cost is that of the
/// rule of the basis.
pub fn product_of(
    alloc: Global,
    basis: BasisId,
    left: &Code,
    right: &Code,
) -> Result<Combo, OutOfMemory>
    requires built { IsTrue (is_built basis) }
    requires left { IsIndex basis left.now }
    requires right { IsIndex basis right.now }
    requires degree { degree_of basis left.now + degree_of basis right.now ≤ limit_of (algebra_of basis) }
    ensures { IfOk result (IsAnswer (basis ∷ []) (degree_of basis left.now + degree_of basis right.now)
        (product (element basis left.now) (element basis right.now))) }
{
    match basis {
        BasisId::QsymM => QsymM::product(alloc, left, right),
        BasisId::QsymF => QsymF::product(alloc, left, right),
        BasisId::NcsfS => NcsfS::product(alloc, left, right),
        BasisId::NcsfL => NcsfL::product(alloc, left, right),
        BasisId::NcsfR => NcsfR::product(alloc, left, right),
        BasisId::FqsymF => FqsymF::product(alloc, left, right),
        BasisId::FqsymG => FqsymG::product(alloc, left, right),
        BasisId::WqsymM => WqsymM::product(alloc, left, right),
        BasisId::FsymS => FsymS::product(alloc, left, right),
        BasisId::PbtP => PbtP::product(alloc, left, right),
    }
}

/// The coproduct of an element of a built basis, as a combination of pairs over the same basis. The cost
/// is that of the rule of the basis.
pub fn coproduct_of(alloc: Global, basis: BasisId, code: &Code) -> Result<Combo, OutOfMemory>
    requires built { IsTrue (is_built basis) }
    requires index { IsIndexWithin basis code.now }
    ensures { IfOk result (IsAnswer (basis ∷ basis ∷ []) (degree_of basis code.now) (applied coproduct 0 (element basis code.now))) }
{
    match basis {
        BasisId::QsymM => QsymM::coproduct(alloc, code),
        BasisId::QsymF => QsymF::coproduct(alloc, code),
        BasisId::NcsfS => NcsfS::coproduct(alloc, code),
        BasisId::NcsfL => NcsfL::coproduct(alloc, code),
        BasisId::NcsfR => NcsfR::coproduct(alloc, code),
        BasisId::FqsymF => FqsymF::coproduct(alloc, code),
        BasisId::FqsymG => FqsymG::coproduct(alloc, code),
        BasisId::WqsymM => WqsymM::coproduct(alloc, code),
        BasisId::FsymS => FsymS::coproduct(alloc, code),
        BasisId::PbtP => PbtP::coproduct(alloc, code),
    }
}

/// The antipode of an element of a built basis, as a combination over the same basis. The memo gives the antipodes
/// that it keeps, and keeps those that are found. The cost is that of the recursion over the coproduct.
pub fn antipode_of(
    alloc: Global,
    basis: BasisId,
    code: &Code,
    memo: &mut Memo,
) -> Result<Combo, OutOfMemory>
    requires built { IsTrue (is_built basis) }
    requires index { IsIndexWithin basis code.now }
    ensures { IfOk result (IsAnswer (basis ∷ []) (degree_of basis code.now) (applied of_antipode 0 (element basis code.now))) }
{
    match basis {
        BasisId::QsymM => antipode::<QsymM>(alloc, code, memo),
        BasisId::QsymF => antipode::<QsymF>(alloc, code, memo),
        BasisId::NcsfS => antipode::<NcsfS>(alloc, code, memo),
        BasisId::NcsfL => antipode::<NcsfL>(alloc, code, memo),
        BasisId::NcsfR => antipode::<NcsfR>(alloc, code, memo),
        BasisId::FqsymF => antipode::<FqsymF>(alloc, code, memo),
        BasisId::FqsymG => antipode::<FqsymG>(alloc, code, memo),
        BasisId::WqsymM => antipode::<WqsymM>(alloc, code, memo),
        BasisId::FsymS => antipode::<FsymS>(alloc, code, memo),
        BasisId::PbtP => antipode::<PbtP>(alloc, code, memo),
    }
}

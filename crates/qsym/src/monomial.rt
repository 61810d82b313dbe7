//! The monomial quasi-symmetric functions.
ghost use Rattle.std.specs.Prelude.{ℕ, refl};
ghost use Rattle.basis_names.specs.declared.bases.BasisId.TheVariants.{QsymM as id_m};

use crate::fundamental::QsymF;
use basis_names::{AlgebraId, BasisId, limit};
use compositions::{Composition, list, quasi_shuffle};
use hopf_num::OutOfMemory;
use index_rules::{Algebra, Change, ClassSpace, Coalgebra, Signs, Space, signed_sum};
use linear_combos::{Code, Codes, Combo};
use std::alloc::Global;

/// The monomial quasi-symmetric functions (Gessel 1984).
#[derive(Drop)]
pub struct QsymM;

impl Space for QsymM {
    ghost basis = { id_m };

    fn basis() -> BasisId {
        BasisId::QsymM
    }

    fn degree(code: &Code) -> u32 {
        code.sum()
    }

    fn is_index(code: &Code) -> bool {
        code.sum() <= limit(AlgebraId::Qsym)
    }

    fn list(alloc: Global, degree: u32) -> Result<Codes, OutOfMemory> {
        list(alloc, degree)
    }

    fn word_of(_alloc: Global, code: &Code) -> Result<Code, OutOfMemory> {
        Ok(*code)
    }
}

impl ClassSpace for QsymM {
    // The letters of a code are positive, so no exponent is to be left out.
    fn class_of(_alloc: Global, point: &Code) -> Result<Code, OutOfMemory> {
        let _len = point.len();
        Ok(*point)
    }
}

impl Algebra for QsymM {
    ghost product_growth = { 2 };

    fn product(alloc: Global, left: &Code, right: &Code) -> Result<Combo, OutOfMemory> {
        let left = Composition::of_code(*left).unwrap();
        let right = Composition::of_code(*right).unwrap();
        quasi_shuffle(alloc, &left, &right)
    }
}

impl Coalgebra for QsymM {
    ghost coproduct_growth = { 1 };

    fn coproduct(alloc: Global, code: &Code) -> Result<Combo, OutOfMemory> {
        let composition = Composition::of_code(*code).unwrap();
        composition.cuts(alloc)
    }
}

impl Change<QsymF> for QsymM {
    ghost change_growth = { 1 };

    fn change(alloc: Global, code: &Code) -> Result<Combo, OutOfMemory> {
        let composition = Composition::of_code(*code).unwrap();
        let finer = composition.refinements(alloc)?;
        signed_sum(alloc, &finer, Signs::ByLength(code.len()))
    }

    ghost same_kind = { refl };
}

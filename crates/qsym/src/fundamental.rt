//! The fundamental quasi-symmetric functions.
ghost use Rattle.std.specs.Prelude.{ℕ, refl};
ghost use Rattle.basis_names.specs.declared.bases.BasisId.TheVariants.{QsymF as id_f};

use crate::cutting::cuts_by_degree;
use crate::monomial::QsymM;
use basis_names::{AlgebraId, BasisId, limit};
use compositions::{Composition, list};
use hopf_num::OutOfMemory;
use index_rules::{Algebra, Change, Coalgebra, Signs, Space, product_by_change, signed_sum};
use linear_combos::{Code, Codes, Combo};
use std::alloc::Global;

/// The fundamental quasi-symmetric functions (Gessel 1984).
#[derive(Drop)]
pub struct QsymF;

impl Space for QsymF {
    ghost basis = { id_f };

    fn basis() -> BasisId {
        BasisId::QsymF
    }

    fn degree(code: &Code) -> u32 {
        code.sum()
    }

    fn is_index(code: &Code) -> bool {
        code.sum() <= limit(AlgebraId::Qsym)
    }

    fn list(alloc: Global, degree: u32) -> Result<Codes, OutOfMemory> {
        list(alloc, degree)
    }

    fn word_of(_alloc: Global, code: &Code) -> Result<Code, OutOfMemory> {
        Ok(*code)
    }
}

impl Algebra for QsymF {
    ghost product_growth = { 4 };

    fn product(alloc: Global, left: &Code, right: &Code) -> Result<Combo, OutOfMemory> {
        product_by_change::<QsymF, QsymM>(alloc, left, right)
    }
}

impl Coalgebra for QsymF {
    ghost coproduct_growth = { 1 };

    fn coproduct(alloc: Global, code: &Code) -> Result<Combo, OutOfMemory> {
        cuts_by_degree(alloc, code)
    }
}

impl Change<QsymM> for QsymF {
    ghost change_growth = { 1 };

    fn change(alloc: Global, code: &Code) -> Result<Combo, OutOfMemory> {
        let composition = Composition::of_code(*code).unwrap();
        let finer = composition.refinements(alloc)?;
        signed_sum(alloc, &finer, Signs::Plus)
    }

    ghost same_kind = { refl };
}

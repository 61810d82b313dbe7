//! The ribbons.
ghost use Rattle.std.specs.Prelude.{ℕ, refl};
ghost use Rattle.basis_names.specs.declared.bases.BasisId.TheVariants.{NcsfR as id_r};

use crate::complete::NcsfS;
use crate::concatenations::concatenated_both_ways;
use crate::elementary::NcsfL;
use crate::ribbon_cuts::ribbon_cuts;
use crate::words::{complement, word_of_composition};
use basis_names::{AlgebraId, BasisId, limit};
use compositions::{Composition, list};
use hopf_num::OutOfMemory;
use index_rules::{Algebra, Change, ClassSpace, Coalgebra, Signs, Space, signed_sum};
use linear_combos::{Code, Codes, Combo};
use permutation_words::descent_composition;
use std::alloc::Global;

/// The ribbons, R (Gelfand, Krob, Lascoux, Leclerc, Retakh, Thibon 1995).
///
/// Products cost two terms. A coproduct of degree n has at most 2^(2n) pairs, and a change has 2^(r - 1)
/// terms for r parts, of the composition itself or of its complement.
#[derive(Drop)]
pub struct NcsfR;

impl Space for NcsfR {
    ghost basis = { id_r };

    fn basis() -> BasisId {
        BasisId::NcsfR
    }

    fn degree(code: &Code) -> u32 {
        code.sum()
    }

    fn is_index(code: &Code) -> bool {
        code.sum() <= limit(AlgebraId::Ncsf)
    }

    fn list(alloc: Global, degree: u32) -> Result<Codes, OutOfMemory> {
        list(alloc, degree)
    }

    fn word_of(_alloc: Global, code: &Code) -> Result<Code, OutOfMemory> {
        Ok(word_of_composition(code))
    }
}

impl ClassSpace for NcsfR {
    fn class_of(_alloc: Global, point: &Code) -> Result<Code, OutOfMemory> {
        Ok(descent_composition(point))
    }
}

impl Algebra for NcsfR {
    ghost product_growth = { 1 };

    fn product(alloc: Global, left: &Code, right: &Code) -> Result<Combo, OutOfMemory> {
        concatenated_both_ways(alloc, left, right)
    }
}

impl Coalgebra for NcsfR {
    ghost coproduct_growth = { 2 };

    fn coproduct(alloc: Global, code: &Code) -> Result<Combo, OutOfMemory> {
        ribbon_cuts(alloc, code)
    }
}

impl Change<NcsfS> for NcsfR {
    ghost change_growth = { 1 };

    fn change(alloc: Global, code: &Code) -> Result<Combo, OutOfMemory> {
        let composition = Composition::of_code(*code).unwrap();
        let coarser = composition.coarsenings(alloc)?;
        signed_sum(alloc, &coarser, Signs::ByLength(code.len()))
    }

    ghost same_kind = { refl };
}

impl Change<NcsfL> for NcsfR {
    ghost change_growth = { 1 };

    fn change(alloc: Global, code: &Code) -> Result<Combo, OutOfMemory> {
        let composition = Composition::of_code(*code).unwrap();
        let outside = complement(&composition);
        let coarser = outside.coarsenings(alloc)?;
        signed_sum(alloc, &coarser, Signs::ByLength(outside.code().len()))
    }

    ghost same_kind = { refl };
}

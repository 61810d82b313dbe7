//! The complete noncommutative symmetric functions.
ghost use Rattle.std.specs.Prelude.{ℕ, refl};
ghost use Rattle.basis_names.specs.declared.bases.BasisId.TheVariants.{NcsfS as id_s};

use crate::concatenations::concatenated;
use crate::part_cuts::cuts_by_parts;
use crate::ribbon::NcsfR;
use crate::words::word_of_composition;
use basis_names::{AlgebraId, BasisId, limit};
use compositions::{Composition, list};
use hopf_num::OutOfMemory;
use index_rules::{Algebra, Change, Coalgebra, Signs, Space, signed_sum};
use linear_combos::{Code, Codes, Combo};
use std::alloc::Global;

/// The complete functions, S (Gelfand, Krob, Lascoux, Leclerc, Retakh, Thibon 1995).
///
/// Products cost one term. A coproduct of degree n has at most 2^n pairs, and a change to ribbons has
/// 2^(r - 1) terms for r parts.
#[derive(Drop)]
pub struct NcsfS;

impl Space for NcsfS {
    ghost basis = { id_s };

    fn basis() -> BasisId {
        BasisId::NcsfS
    }

    fn degree(code: &Code) -> u32 {
        code.sum()
    }

    fn is_index(code: &Code) -> bool {
        code.sum() <= limit(AlgebraId::Ncsf)
    }

    fn list(alloc: Global, degree: u32) -> Result<Codes, OutOfMemory> {
        list(alloc, degree)
    }

    fn word_of(_alloc: Global, code: &Code) -> Result<Code, OutOfMemory> {
        Ok(word_of_composition(code))
    }
}

impl Algebra for NcsfS {
    ghost product_growth = { 0 };

    fn product(alloc: Global, left: &Code, right: &Code) -> Result<Combo, OutOfMemory> {
        concatenated(alloc, left, right)
    }
}

impl Coalgebra for NcsfS {
    ghost coproduct_growth = { 1 };

    fn coproduct(alloc: Global, code: &Code) -> Result<Combo, OutOfMemory> {
        cuts_by_parts(alloc, code)
    }
}

impl Change<NcsfR> for NcsfS {
    ghost change_growth = { 1 };

    fn change(alloc: Global, code: &Code) -> Result<Combo, OutOfMemory> {
        let composition = Composition::of_code(*code).unwrap();
        let coarser = composition.coarsenings(alloc)?;
        signed_sum(alloc, &coarser, Signs::Plus)
    }

    ghost same_kind = { refl };
}

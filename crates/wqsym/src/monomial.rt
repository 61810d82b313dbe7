//! The basis M of the algebra of packed words.
ghost use Rattle.std.specs.Prelude.{ℕ};
ghost use Rattle.basis_names.specs.declared.bases.BasisId.TheVariants.{WqsymM as id_m};

use crate::packed::{is_packed, packed_word};
use basis_names::BasisId;
use fqsym::cuts_by_values;
use hopf_num::OutOfMemory;
use index_rules::{Algebra, ClassSpace, Coalgebra, Signs, Space, signed_sum};
use linear_combos::{Code, Codes, Combo};
use packed_words::{list, merge_all, pack};
use std::alloc::Global;

/// The monomial word quasi-symmetric functions: M of u is the sum of the words whose packing is u (Hivert
/// 1999; Novelli, Thibon 2006).
///
/// A product is the sum over the merges: as many terms as there are quasi-shuffles of two words of as many
/// letters as the factors have distinct ones, at the cost of their list and a sort. A coproduct has one
/// term more than the greatest letter.
#[derive(Drop)]
pub struct WqsymM;

impl Space for WqsymM {
    ghost basis = { id_m };

    fn basis() -> BasisId {
        BasisId::WqsymM
    }

    fn degree(code: &Code) -> u32 {
        code.len() as u32
    }

    fn is_index(code: &Code) -> bool {
        is_packed(code)
    }

    fn list(alloc: Global, degree: u32) -> Result<Codes, OutOfMemory> {
        list(alloc, degree)
    }

    fn word_of(_alloc: Global, code: &Code) -> Result<Code, OutOfMemory> {
        Ok(*code)
    }
}

impl ClassSpace for WqsymM {
    fn class_of(_alloc: Global, point: &Code) -> Result<Code, OutOfMemory> {
        Ok(pack(point))
    }
}

impl Algebra for WqsymM {
    ghost product_growth = { 2 };

    fn product(alloc: Global, left: &Code, right: &Code) -> Result<Combo, OutOfMemory> {
        let merges = merge_all(alloc, &packed_word(left), &packed_word(right))?;
        signed_sum(alloc, &merges, Signs::Plus)
    }
}

impl Coalgebra for WqsymM {
    ghost coproduct_growth = { 1 };

    fn coproduct(alloc: Global, code: &Code) -> Result<Combo, OutOfMemory> {
        cuts_by_values(alloc, code)
    }
}

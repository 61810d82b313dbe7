//! The basis F of the free quasi-symmetric functions.
ghost use Rattle.std.specs.Prelude.{ℕ, refl};
ghost use Rattle.basis_names.specs.declared.bases.BasisId.TheVariants.{FqsymF as id_f};

use crate::cutting::cuts_by_places;
use crate::dual::FqsymG;
use crate::permutations::{element_of_inverse, inverse, is_permutation, permutation};
use basis_names::BasisId;
use hopf_num::OutOfMemory;
use index_rules::{Algebra, Change, ClassSpace, Coalgebra, Signs, Space, signed_sum};
use linear_combos::{Code, Codes, Combo};
use permutation_words::{list, shifted_shuffle, standardise};
use std::alloc::Global;

/// The fundamental free quasi-symmetric functions: F of s is the sum of the words whose standardisation is
/// the inverse of s (Malvenuto, Reutenauer 1995; Duchamp, Hivert, Thibon 2002).
///
/// A product is the sum over the shifted shuffles: as many terms as the binomial coefficient of both degrees
/// together over the first, at the cost of their list and a sort. A coproduct has one term more than the
/// degree. F of s is G of the inverse of s: one term, at the cost of the square of the degree.
#[derive(Drop)]
pub struct FqsymF;

impl Space for FqsymF {
    ghost basis = { id_f };

    fn basis() -> BasisId {
        BasisId::FqsymF
    }

    fn degree(code: &Code) -> u32 {
        code.len() as u32
    }

    fn is_index(code: &Code) -> bool {
        is_permutation(code)
    }

    fn list(alloc: Global, degree: u32) -> Result<Codes, OutOfMemory> {
        list(alloc, degree)
    }

    fn word_of(_alloc: Global, code: &Code) -> Result<Code, OutOfMemory> {
        Ok(inverse(code))
    }
}

impl ClassSpace for FqsymF {
    fn class_of(_alloc: Global, point: &Code) -> Result<Code, OutOfMemory> {
        let standard = standardise(point);
        Ok(inverse(&standard))
    }
}

impl Algebra for FqsymF {
    ghost product_growth = { 1 };

    fn product(alloc: Global, left: &Code, right: &Code) -> Result<Combo, OutOfMemory> {
        let shuffles = shifted_shuffle(alloc, &permutation(left), &permutation(right))?;
        signed_sum(alloc, &shuffles, Signs::Plus)
    }
}

impl Coalgebra for FqsymF {
    ghost coproduct_growth = { 1 };

    fn coproduct(alloc: Global, code: &Code) -> Result<Combo, OutOfMemory> {
        cuts_by_places(alloc, code)
    }
}

impl Change<FqsymG> for FqsymF {
    ghost change_growth = { 0 };

    fn change(alloc: Global, code: &Code) -> Result<Combo, OutOfMemory> {
        element_of_inverse(alloc, code)
    }

    ghost same_kind = { refl };
}

//! The basis G of the free quasi-symmetric functions.
ghost use Rattle.std.specs.Prelude.{ℕ, refl};
ghost use Rattle.basis_names.specs.declared.bases.BasisId.TheVariants.{FqsymG as id_g};

use crate::cutting::cuts_by_values;
use crate::fundamental::FqsymF;
use crate::permutations::{element_of_inverse, is_permutation, permutation};
use basis_names::BasisId;
use hopf_num::OutOfMemory;
use index_rules::{Algebra, Change, ClassSpace, Coalgebra, Signs, Space, signed_sum};
use linear_combos::{Code, Codes, Combo};
use permutation_words::{convolution, list, standardise};
use std::alloc::Global;

/// The dual fundamental free quasi-symmetric functions: G of s is the sum of the words whose
/// standardisation is s (Duchamp, Hivert, Thibon 2002).
///
/// A product is the sum over the convolutions (Malvenuto, Reutenauer 1995): as many terms as the binomial
/// coefficient of both degrees together over the first, at the cost of their list and a sort. A coproduct has
/// one term more than the degree. G of s is F of the inverse of s: one term, at the cost of the square of the
/// degree.
#[derive(Drop)]
pub struct FqsymG;

impl Space for FqsymG {
    ghost basis = { id_g };

    fn basis() -> BasisId {
        BasisId::FqsymG
    }

    fn degree(code: &Code) -> u32 {
        code.len() as u32
    }

    fn is_index(code: &Code) -> bool {
        is_permutation(code)
    }

    fn list(alloc: Global, degree: u32) -> Result<Codes, OutOfMemory> {
        list(alloc, degree)
    }

    fn word_of(_alloc: Global, code: &Code) -> Result<Code, OutOfMemory> {
        Ok(*code)
    }
}

impl ClassSpace for FqsymG {
    fn class_of(_alloc: Global, point: &Code) -> Result<Code, OutOfMemory> {
        Ok(standardise(point))
    }
}

impl Algebra for FqsymG {
    ghost product_growth = { 1 };

    fn product(alloc: Global, left: &Code, right: &Code) -> Result<Combo, OutOfMemory> {
        let codes = convolution(alloc, &permutation(left), &permutation(right))?;
        signed_sum(alloc, &codes, Signs::Plus)
    }
}

impl Coalgebra for FqsymG {
    ghost coproduct_growth = { 1 };

    fn coproduct(alloc: Global, code: &Code) -> Result<Combo, OutOfMemory> {
        cuts_by_values(alloc, code)
    }
}

impl Change<FqsymF> for FqsymG {
    ghost change_growth = { 0 };

    fn change(alloc: Global, code: &Code) -> Result<Combo, OutOfMemory> {
        element_of_inverse(alloc, code)
    }

    ghost same_kind = { refl };
}

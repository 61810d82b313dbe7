//! Codes as permutations, and the elements of their inverses.
ghost use Rattle.std.specs.Prelude.{◌≡◌, ◌≤◌, ◌↔◌, [], ◌∷◌, pos, length, IsTrue, IfOk};
ghost use Rattle.permutation_words.specs.Sizes.{IsSmallPermutation};
ghost use Rattle.realisations.specs.IndexKinds.{is_permutation as is_permutation_code};
ghost use Rattle.realisations.specs.Standardisation.{inverse as inverse_of};

use basis_names::{AlgebraId, limit};
use hopf_num::OutOfMemory;
use linear_combos::{Code, Combo, Key};
use permutation_words::Permutation;
use std::alloc::Global;

// Whether the code is a permutation within the degree limit.
pub(crate) fn is_permutation(code: &Code) -> bool
    ensures { IsTrue result ↔ IsTrue (is_permutation_code code.now) × (length code.now ≤ 7) }
{
    if code.len() as u32 > limit(AlgebraId::Fqsym) {
        return false;
    }
    Permutation::of_code(*code).is_some()
}

// The permutation that a code is.
pub(crate) fn permutation(code: &Code) -> Permutation
    requires { IsSmallPermutation code.now }
    ensures { result ≡ code.now }
{
    Permutation::of_code(*code).unwrap()
}

// The inverse of the permutation that a code is.
pub(crate) fn inverse(code: &Code) -> Code
    requires { IsSmallPermutation code.now }
    ensures { result ≡ inverse_of code.now }
{
    let inverse = permutation(code).inverse();
    *inverse.code()
}

// The element of the inverse.
pub(crate) fn element_of_inverse(alloc: Global, code: &Code) -> Result<Combo, OutOfMemory>
    requires { IsSmallPermutation code.now }
    ensures { IfOk result (λ c. c ≡ record { rank = 1; den = 1; terms = (pos 1, inverse_of code.now ∷ []) ∷ [] }) }
{
    Combo::term(alloc, 1, Key::one(inverse(code)))
}

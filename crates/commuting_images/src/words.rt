//! Commuting images of FQSym and WQSym.
ghost use Rattle.std.proofs.Common.{arith};
ghost use Rattle.std.specs.Prelude.{◌≡◌, ℕ};
ghost use Rattle.permutation_words.specs.Sizes.{IsSmallPermutation};
ghost use Rattle.realisations.specs.Standardisation.{inverse as inverse_of};

use crate::images::CommutingImage;
use crate::quasisymmetric::one_element;
use fqsym::{FqsymF, FqsymG};
use hopf_num::OutOfMemory;
use index_rules::Change;
use linear_combos::{Code, Combo};
use permutation_words::{Permutation, descent_composition, evaluation};
use qsym::QsymF;
use std::alloc::Global;
use wqsym::WqsymM;

// The inverse of the permutation that a code is.
fn inverse(code: &Code) -> Code
    requires { IsSmallPermutation code.now }
    ensures { result ≡ inverse_of code.now }
{
    let inverse = Permutation::of_code(*code).unwrap().inverse();
    *inverse.code()
}

/// The image of F of a permutation is the fundamental quasi-symmetric function of its descent composition
/// (Malvenuto, Reutenauer 1995).
impl CommutingImage for FqsymF {
    ghost image_growth = { 1 };

    fn image(alloc: Global, code: &Code) -> Result<Combo, OutOfMemory> {
        let descents = descent_composition(code);
        QsymF::change(alloc, &descents)
    }

    ghost growth = { omega arith };
}

/// The image of G of a permutation is the fundamental quasi-symmetric function of the descent composition of
/// its inverse (Malvenuto, Reutenauer 1995).
impl CommutingImage for FqsymG {
    ghost image_growth = { 1 };

    fn image(alloc: Global, code: &Code) -> Result<Combo, OutOfMemory> {
        let inverse = inverse(code);
        let descents = descent_composition(&inverse);
        QsymF::change(alloc, &descents)
    }

    ghost growth = { omega arith };
}

/// The image of M of a packed word is the monomial quasi-symmetric function of its evaluation (Hivert 1999):
/// one term.
impl CommutingImage for WqsymM {
    ghost image_growth = { 0 };

    fn image(alloc: Global, code: &Code) -> Result<Combo, OutOfMemory> {
        let evaluation = evaluation(code);
        one_element(alloc, &evaluation)
    }

    ghost growth = { omega arith };
}

//! Inclusions of FQSym: by the standardisation of a packed word, and its inverse.
ghost use Rattle.std.proofs.Common.{arith};
ghost use Rattle.std.specs.Prelude.{◌≡◌, refl};
ghost use Rattle.inclusion_laws.proofs.InclusionsOfClasses.{standardisations};
ghost use Rattle.permutation_words.specs.Sizes.{IsSmallPermutation};
ghost use Rattle.realisations.specs.Standardisation.{inverse as inverse_of, standardise as standardised};

use crate::inclusions::InclusionIn;
use fqsym::{FqsymF, FqsymG};
use hopf_num::OutOfMemory;
use linear_combos::Code;
use permutation_words::{Permutation, standardise};
use std::alloc::Global;
use wqsym::WqsymM;

// The inverse of the permutation that a code is.
pub(crate) fn inverse(code: &Code) -> Code
    requires { IsSmallPermutation code.now }
    ensures { result ≡ inverse_of code.now }
{
    let inverse = Permutation::of_code(*code).unwrap().inverse();
    *inverse.code()
}

/// G of a permutation is the sum of M of the packed words with this standardisation (Hivert 1999).
impl InclusionIn<WqsymM> for FqsymG {
    ghost image = { λ u. standardised u };

    fn image_of(_alloc: Global, word: &Code) -> Result<Code, OutOfMemory> {
        Ok(standardise(word))
    }

    ghost inclusion = { standardisations.g_in_wqsym };

    ghost same_kind = { refl };

    ghost small = { omega arith };
}

/// F of a permutation is the sum of M of the packed words whose standardisation is its inverse.
impl InclusionIn<WqsymM> for FqsymF {
    ghost image = { λ u. inverse_of (standardised u) };

    fn image_of(_alloc: Global, word: &Code) -> Result<Code, OutOfMemory> {
        let standard = standardise(word);
        Ok(inverse(&standard))
    }

    ghost inclusion = { standardisations.f_in_wqsym };

    ghost same_kind = { refl };

    ghost small = { omega arith };
}

//! Inclusions of FSym: an element is the sum of those whose indices have its recording tableau.
ghost use Rattle.std.proofs.Common.{arith};
ghost use Rattle.std.specs.Prelude.{◌≡◌, ◌≤◌, length, refl};
ghost use Rattle.inclusion_laws.proofs.InclusionsOfClasses.{tableaux_included};
ghost use Rattle.permutation_words.specs.Sizes.{IsSmallPermutation};
ghost use Rattle.realisations.specs.Standardisation.{inverse as inverse_of};
ghost use Rattle.realisations.specs.Tableaux.{insertion_tableau, recording_tableau, tableau_code};

use crate::inclusions::InclusionIn;
use crate::permutations::inverse;
use fqsym::{FqsymF, FqsymG};
use fsym::FsymS;
use hopf_num::OutOfMemory;
use linear_combos::Code;
use permutation_words::{Permutation, standardise};
use std::alloc::Global;
use tableaux::schensted;
use wqsym::WqsymM;

// The code of the insertion tableau of the permutation that a code is.
fn insertion_code(code: &Code) -> Code
    requires { IsSmallPermutation code.now }
    ensures { result ≡ tableau_code (insertion_tableau code.now) }
{
    let tableau = schensted(&Permutation::of_code(*code).unwrap());
    tableau.code()
}

/// S of a tableau is the sum of F of the permutations with this insertion tableau (Poirier, Reutenauer 1995).
impl InclusionIn<FqsymF> for FsymS {
    ghost image = { λ s. tableau_code (insertion_tableau s) };

    fn image_of(_alloc: Global, code: &Code) -> Result<Code, OutOfMemory> {
        Ok(insertion_code(code))
    }

    ghost inclusion = { tableaux_included.in_fqsym_f };

    ghost same_kind = { refl };

    ghost small = { omega arith };
}

/// S of a tableau is the sum of G of the permutations whose inverses have this insertion tableau (Poirier,
/// Reutenauer 1995).
impl InclusionIn<FqsymG> for FsymS {
    ghost image = { λ s. tableau_code (insertion_tableau (inverse_of s)) };

    fn image_of(_alloc: Global, code: &Code) -> Result<Code, OutOfMemory> {
        let inverse = inverse(code);
        Ok(insertion_code(&inverse))
    }

    ghost inclusion = { tableaux_included.in_fqsym_g };

    ghost same_kind = { refl };

    ghost small = { omega arith };
}

/// S of a tableau is the sum of M of the packed words with this recording tableau (Duchamp, Hivert, Thibon
/// 2002).
impl InclusionIn<WqsymM> for FsymS {
    ghost image = { λ u. tableau_code (recording_tableau u) };

    fn image_of(_alloc: Global, word: &Code) -> Result<Code, OutOfMemory> {
        let standard = standardise(word);
        let inverse = inverse(&standard);
        Ok(insertion_code(&inverse))
    }

    ghost inclusion = { tableaux_included.in_wqsym };

    ghost same_kind = { refl };

    ghost small = { omega arith };
}

//! Inclusions of NCSF: a ribbon is the sum of the elements whose indices have its descents.
ghost use Rattle.std.proofs.Common.{arith};
ghost use Rattle.std.specs.Prelude.{◌≡◌, refl};
ghost use Rattle.inclusion_laws.proofs.InclusionsOfClasses.{ribbons_included};
ghost use Rattle.inclusion_laws.specs.DescentsOfIndices.{descents_of_tableau as tableau_descents, descents_of_tree as tree_descents};
ghost use Rattle.realisations.specs.Descents.{descent_composition as descents_of};
ghost use Rattle.realisations.specs.Standardisation.{inverse as inverse_of};

use crate::descents::{descents_of_tableau, descents_of_tree};
use crate::inclusions::InclusionIn;
use crate::permutations::inverse;
use fqsym::{FqsymF, FqsymG};
use fsym::FsymS;
use hopf_num::OutOfMemory;
use linear_combos::Code;
use ncsf::NcsfR;
use pbt::PbtP;
use permutation_words::descent_composition;
use std::alloc::Global;
use wqsym::WqsymM;

/// A ribbon is the sum of G of the permutations with these descents (Malvenuto, Reutenauer 1995).
impl InclusionIn<FqsymG> for NcsfR {
    ghost image = { λ s. descents_of s };

    fn image_of(_alloc: Global, code: &Code) -> Result<Code, OutOfMemory> {
        Ok(descent_composition(code))
    }

    ghost inclusion = { ribbons_included.in_fqsym_g };

    ghost same_kind = { refl };

    ghost small = { omega arith };
}

/// A ribbon is the sum of F of the permutations whose inverses have these descents (Malvenuto, Reutenauer
/// 1995).
impl InclusionIn<FqsymF> for NcsfR {
    ghost image = { λ s. descents_of (inverse_of s) };

    fn image_of(_alloc: Global, code: &Code) -> Result<Code, OutOfMemory> {
        let inverse = inverse(code);
        Ok(descent_composition(&inverse))
    }

    ghost inclusion = { ribbons_included.in_fqsym_f };

    ghost same_kind = { refl };

    ghost small = { omega arith };
}

/// A ribbon is the sum of P of the trees with these descents (Loday, Ronco 1998).
impl InclusionIn<PbtP> for NcsfR {
    ghost image = { λ code. tree_descents code };

    fn image_of(_alloc: Global, code: &Code) -> Result<Code, OutOfMemory> {
        Ok(descents_of_tree(code))
    }

    ghost inclusion = { ribbons_included.in_pbt };

    ghost same_kind = { refl };

    ghost small = { omega arith };
}

/// A ribbon is the sum of S of the tableaux with these descents (Poirier, Reutenauer 1995).
impl InclusionIn<FsymS> for NcsfR {
    ghost image = { λ code. tableau_descents code };

    fn image_of(_alloc: Global, code: &Code) -> Result<Code, OutOfMemory> {
        Ok(descents_of_tableau(code))
    }

    ghost inclusion = { ribbons_included.in_fsym };

    ghost same_kind = { refl };

    ghost small = { omega arith };
}

/// A ribbon is the sum of M of the packed words with these descents (Novelli, Thibon 2006).
impl InclusionIn<WqsymM> for NcsfR {
    ghost image = { λ u. descents_of u };

    fn image_of(_alloc: Global, word: &Code) -> Result<Code, OutOfMemory> {
        Ok(descent_composition(word))
    }

    ghost inclusion = { ribbons_included.in_wqsym };

    ghost same_kind = { refl };

    ghost small = { omega arith };
}

//! Commuting images of PBT and FSym, whose elements are sums of F of permutations.
ghost use Rattle.std.proofs.Common.{arith};
ghost use Rattle.std.specs.Prelude.{ℕ, ◌≤◌, [], ◌∷◌, IfOk};
ghost use Rattle.basis_names.specs.declared.bases.BasisId.TheVariants.{QsymM as id_m};
ghost use Rattle.index_rules.specs.Rules.{IsAnswerWithin};
ghost use Rattle.index_rules.specs.Spaces.{IsIndexWithin, limit_for};
ghost use Rattle.realisations.specs.Indices.{degree_of};
ghost use Rattle.realisations.specs.Readings.{applied, commute, element};

use crate::images::{CommutingImage, image_component};
use fqsym::FqsymF;
use fsym::FsymS;
use hopf_num::OutOfMemory;
use inclusion_rules::{ByInclusion, InclusionIn};
use index_rules::Rule;
use linear_combos::{Code, Combo};
use pbt::PbtP;
use std::alloc::Global;

// The sum of the images of F of the permutations over an index.
fn image_by_permutations<A: InclusionIn<FqsymF>>(
    alloc: Global,
    code: &Code,
) -> Result<Combo, OutOfMemory>
    requires index { IsIndexWithin A.basis code.now }
    requires limit { limit_for A.basis ≤ 7 }
    ensures { IfOk result (IsAnswerWithin 4 (id_m ∷ []) (degree_of A.basis code.now) (applied commute 0 (element A.basis code.now))) }
{
    let mut inclusion: ByInclusion<A, FqsymF> = ByInclusion::new(alloc);
    let sum = inclusion.apply(alloc, code)?;
    image_component::<FqsymF>(alloc, &sum, 1)
}

/// The image of P of a tree is the sum of those of F of the permutations over it, which are the linear
/// extensions of the tree (Hivert, Novelli, Thibon 2005).
///
/// The cost is that of the inclusion, which goes through all permutations of the degree, and of their images.
impl CommutingImage for PbtP {
    ghost image_growth = { 4 };

    fn image(alloc: Global, code: &Code) -> Result<Combo, OutOfMemory> {
        image_by_permutations::<PbtP>(alloc, code)
    }

    ghost growth = { omega arith };
}

/// The image of S of a tableau is the sum of those of F of the permutations with this insertion tableau: the
/// Schur function of its shape (Poirier, Reutenauer 1995).
///
/// The cost is that of the inclusion, which goes through all permutations of the degree, and of their images.
impl CommutingImage for FsymS {
    ghost image_growth = { 4 };

    fn image(alloc: Global, code: &Code) -> Result<Combo, OutOfMemory> {
        image_by_permutations::<FsymS>(alloc, code)
    }

    ghost growth = { omega arith };
}

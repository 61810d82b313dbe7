//! Inclusions of PBT: an element is the sum of those whose indices have its decreasing tree.
ghost use Rattle.std.proofs.Common.{arith};
ghost use Rattle.std.specs.Prelude.{◌≡◌, ◌≤◌, length, IfOk, refl};
ghost use Rattle.inclusion_laws.proofs.InclusionsOfClasses.{trees_included};
ghost use Rattle.realisations.specs.Standardisation.{inverse as inverse_of};
ghost use Rattle.realisations.specs.Trees.{decreasing_tree, tree_code};

use crate::inclusions::InclusionIn;
use crate::permutations::inverse;
use binary_trees::decreasing_shape;
use fqsym::{FqsymF, FqsymG};
use hopf_num::OutOfMemory;
use linear_combos::Code;
use pbt::PbtP;
use std::alloc::Global;
use wqsym::WqsymM;

// The code of the decreasing tree of a word.
fn decreasing_code(alloc: Global, word: &Code) -> Result<Code, OutOfMemory>
    requires { length word.now ≤ 7 }
    ensures { IfOk result (λ code. code ≡ tree_code (decreasing_tree word.now)) }
{
    let shape = decreasing_shape(alloc, word)?;
    Ok(shape.code())
}

/// P of a tree is the sum of G of the permutations with this decreasing tree (Loday, Ronco 1998).
impl InclusionIn<FqsymG> for PbtP {
    ghost image = { λ s. tree_code (decreasing_tree s) };

    fn image_of(alloc: Global, code: &Code) -> Result<Code, OutOfMemory> {
        decreasing_code(alloc, code)
    }

    ghost inclusion = { trees_included.in_fqsym_g };

    ghost same_kind = { refl };

    ghost small = { omega arith };
}

/// P of a tree is the sum of F of the permutations whose inverses have this decreasing tree (Hivert, Novelli,
/// Thibon 2005).
impl InclusionIn<FqsymF> for PbtP {
    ghost image = { λ s. tree_code (decreasing_tree (inverse_of s)) };

    fn image_of(alloc: Global, code: &Code) -> Result<Code, OutOfMemory> {
        let inverse = inverse(code);
        decreasing_code(alloc, &inverse)
    }

    ghost inclusion = { trees_included.in_fqsym_f };

    ghost same_kind = { refl };

    ghost small = { omega arith };
}

/// P of a tree is the sum of M of the packed words with this decreasing tree (Novelli, Thibon 2006).
impl InclusionIn<WqsymM> for PbtP {
    ghost image = { λ u. tree_code (decreasing_tree u) };

    fn image_of(alloc: Global, word: &Code) -> Result<Code, OutOfMemory> {
        decreasing_code(alloc, word)
    }

    ghost inclusion = { trees_included.in_wqsym };

    ghost same_kind = { refl };

    ghost small = { omega arith };
}

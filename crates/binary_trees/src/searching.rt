//! Binary search trees of permutations.
ghost use Rattle.std.specs.Prelude.{◌≡◌, IfOk};
ghost use Rattle.realisations.specs.Standardisation.{inverse as inverse_of};
ghost use Rattle.realisations.specs.Trees.{decreasing_tree};
ghost use Rattle.tree_laws.specs.SearchTrees.{search_tree, shape};
ghost use Rattle.binary_trees.specs.Shapes.{shape_of};

use crate::{Tree, decreasing_shape};
use hopf_num::OutOfMemory;
use permutation_words::Permutation;
use std::alloc::Global;

/// The shape of the binary search tree of a permutation, whose letters enter from right to left (Hivert,
/// Novelli, Thibon 2005).
///
/// It is that of the decreasing tree of the inverse. The cost grows with the square of the size.
pub fn sylvester_insert(alloc: Global, permutation: &Permutation) -> Result<Tree, OutOfMemory>
    ensures { IfOk result (λ t. (shape_of t ≡ shape (search_tree permutation.now)) × (shape_of t ≡ decreasing_tree (inverse_of permutation.now))) }
{
    let inverse = permutation.inverse();
    decreasing_shape(alloc, inverse.code())
}

//! Decreasing trees of words.
ghost use Rattle.std.specs.Prelude.{◌≡◌, ◌≤◌, length, IfOk};
ghost use Rattle.realisations.specs.Trees.{decreasing_tree};
ghost use Rattle.binary_trees.specs.Places.{IsLastGreatest};
ghost use Rattle.binary_trees.specs.Shapes.{shape_of};

use crate::tree::{Tree, join};
use hopf_num::OutOfMemory;
use linear_combos::Code;
use std::alloc::Global;

// The place of the last greatest letter of a word.
fn last_greatest(word: &Code) -> usize
    requires { 1 ≤ length word.now }
    ensures { IsLastGreatest word.now result }
{
    let mut best = 0;
    for at in 0..word.len() {
        if word.letter(best) <= word.letter(at) {
            best = at;
        }
    }
    best
}

// The decreasing tree of a word.
fn shape(alloc: Global, word: &Code) -> Result<Tree, OutOfMemory>
    ensures { IfOk result (λ t. shape_of t ≡ decreasing_tree word.now) }
{
    if word.len() == 0 {
        return Ok(Tree::Empty);
    }
    let at = last_greatest(word);
    let left = shape(alloc, &word.prefix(at))?;
    let right = shape(alloc, &word.suffix(at + 1))?;
    join(alloc, left, right)
}

/// The shape of the decreasing tree of a word (Hivert, Novelli, Thibon 2005): its root is the last
/// greatest letter, with the trees of what stands before and after that letter. The cost grows with the
/// square of the length.
pub fn decreasing_shape(alloc: Global, word: &Code) -> Result<Tree, OutOfMemory>
    requires { length word.now ≤ 12 }
    ensures { IfOk result (λ t. shape_of t ≡ decreasing_tree word.now) }
{
    shape(alloc, word)
}

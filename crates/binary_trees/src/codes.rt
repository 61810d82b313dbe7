//! Trees by their codes.
ghost use Rattle.std.specs.Prelude.{◌≡◌, ◌≤◌, ◌<◌, suc, length, take, drop, IfOk, MatchBool, MatchOption};
ghost use Rattle.realisations.specs.IndexKinds.{IsTreeCode};
ghost use Rattle.realisations.specs.Trees.{after_root, before_root, tree_code, tree_size};
ghost use Rattle.binary_trees.specs.Shapes.{shape_of};
ghost use Rattle.binary_trees.specs.Sizes.{IsSmallTreeCode};

use crate::tree::{Tree, join};
use hopf_num::OutOfMemory;
use linear_combos::Code;
use std::alloc::Global;

// The most nodes.
const MOST: usize = 12;

// The place of the root of a tree in its code: the first letter that is the number of letters from it
// on.
pub(crate) fn root_place(code: &Code) -> Option<usize>
    ensures { MatchOption result (before_root code.now ≡ code.now) (λ at. (at < length code.now) × (before_root code.now ≡ take at code.now) × (after_root code.now ≡ drop (suc at) code.now)) }
{
    for at in 0..code.len() {
        if usize::from(code.letter(at)) == code.len() - at {
            return Some(at);
        }
    }
    None
}

/// Whether these letters are the code of a tree, of any size. It takes no memory; the cost grows with the
/// square of the length.
pub fn is_code_of_tree(code: &Code) -> bool
    ensures { MatchBool result (IsTreeCode code.now) (IsTreeCode code.now → ⊥) }
{
    if code.len() == 0 {
        return true;
    }
    match root_place(code) {
        None => false,
        Some(at) => is_code_of_tree(&code.prefix(at)) && is_code_of_tree(&code.suffix(at + 1)),
    }
}

// The tree of a code.
fn build(alloc: Global, code: &Code) -> Result<Tree, OutOfMemory>
    requires { IsTreeCode code.now }
    ensures { IfOk result (λ t. tree_code (shape_of t) ≡ code.now) }
{
    match root_place(code) {
        None => Ok(Tree::Empty),
        Some(at) => {
            let left = build(alloc, &code.prefix(at))?;
            let right = build(alloc, &code.suffix(at + 1))?;
            join(alloc, left, right)
        }
    }
}

impl Tree {
    /// The tree of a code, or `None` exactly where the code is that of no tree of at most 12 nodes.
    ///
    /// The code of a tree has, for the nodes in infix order, 1 plus the number of nodes of the right
    /// subtree. The root is at the first letter that is the number of letters from it on. The cost grows
    /// with the square of the size.
    pub fn from_code(alloc: Global, code: &Code) -> Result<Option<Tree>, OutOfMemory>
        ensures { IfOk result (λ o. MatchOption o (IsSmallTreeCode code.now → ⊥) (λ t. (tree_code (shape_of t) ≡ code.now) × (tree_size (shape_of t) ≤ 12))) }
    {
        if code.len() > MOST || !is_code_of_tree(code) {
            return Ok(None);
        }
        let tree = build(alloc, code)?;
        Ok(Some(tree))
    }
}

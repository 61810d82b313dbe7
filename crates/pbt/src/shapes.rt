//! Codes as trees, and the sizes of the subtrees of a tree.
ghost use Rattle.std.specs.Prelude.{◌≡◌, ◌≤◌, ◌↔◌, length, IsTrue, IfOk};
ghost use Rattle.binary_trees.specs.Shapes.{shape_of};
ghost use Rattle.binary_trees.specs.Sizes.{IsSmallTreeCode};
ghost use Rattle.realisations.specs.IndexKinds.{IsTreeCode};
ghost use Rattle.realisations.specs.Trees.{subtree_sizes as sizes_of, tree_code, tree_size};
ghost use Rattle.pbt.specs.Shapes.{HasCode};

use basis_names::{AlgebraId, limit};
use binary_trees::{Tree, is_code_of_tree};
use hopf_num::OutOfMemory;
use linear_combos::Code;
use std::alloc::Global;

// Whether the code is that of a tree within the degree limit.
pub(crate) fn is_small_tree(code: &Code) -> bool
    ensures { IsTrue result ↔ IsTreeCode code.now × (length code.now ≤ 7) }
{
    code.len() as u32 <= limit(AlgebraId::Pbt) && is_code_of_tree(code)
}

// The tree of a code.
pub(crate) fn tree(alloc: Global, code: &Code) -> Result<Tree, OutOfMemory>
    requires { IsSmallTreeCode code.now }
    ensures { IfOk result (λ t. HasCode code.now (shape_of t)) }
{
    let tree = Tree::from_code(alloc, code)?;
    Ok(tree.unwrap())
}

// For the nodes of a tree in infix order, the number of nodes of the subtree.
pub(crate) fn subtree_sizes(tree: &Tree) -> Code
    requires { tree_size (shape_of tree.now) ≤ 12 }
    ensures { result ≡ sizes_of (shape_of tree.now) }
{
    match tree {
        Tree::Empty => Code::empty(),
        Tree::Node(left, right) => {
            let front = subtree_sizes(left);
            let root = front.with(tree.size() as u8);
            let back = subtree_sizes(right);
            root.followed_by(&back)
        }
    }
}

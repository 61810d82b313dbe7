//! Binary trees.
ghost use Rattle.std.specs.Prelude.{◌≡◌, ◌≤◌, IfOk};
ghost use Rattle.realisations.specs.Trees.{node, tree_code, tree_size};
ghost use Rattle.binary_trees.specs.Shapes.{shape_of};

use hopf_num::OutOfMemory;
use linear_combos::Code;
use std::alloc::Global;

/// A binary tree: empty, or a node with a left and a right subtree.
#[derive(Drop)]
pub enum Tree {
    Empty,
    Node(Box<Tree>, Box<Tree>),
}

// The node with these subtrees.
pub(crate) fn join(alloc: Global, left: Tree, right: Tree) -> Result<Tree, OutOfMemory>
    ensures { IfOk result (λ t. shape_of t ≡ node (shape_of left) (shape_of right)) }
{
    let left = Box::new(alloc, left)?;
    let right = Box::new(alloc, right)?;
    Ok(Tree::Node(left, right))
}

impl Tree {
    /// How many nodes there are, at most 12. It takes no memory; the cost grows with the size.
    pub fn size(&self) -> u32
        requires { tree_size (shape_of self.now) ≤ 12 }
        ensures { result ≡ tree_size (shape_of self.now) }
    {
        match self {
            Tree::Empty => 0,
            Tree::Node(left, right) => left.size() + right.size() + 1,
        }
    }

    /// The code of a tree of at most 12 nodes: for the nodes in infix order, 1 plus the number of nodes of
    /// the right subtree. It takes no memory; the cost grows at most with the square of the size.
    pub fn code(&self) -> Code
        requires { tree_size (shape_of self.now) ≤ 12 }
        ensures { result ≡ tree_code (shape_of self.now) }
    {
        match self {
            Tree::Empty => Code::empty(),
            Tree::Node(left, right) => {
                let front = left.code();
                let root = front.with(right.size() as u8 + 1);
                let back = right.code();
                root.followed_by(&back)
            }
        }
    }
}

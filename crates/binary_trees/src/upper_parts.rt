//! The coproduct of a tree, by its upper parts.
ghost use Rattle.std.specs.Prelude.{◌≡◌, ◌≤◌, ◌++◌, OnOk, IfOk};
ghost use Rattle.std.specs.List.{All, flat_map};
ghost use Rattle.realisations.specs.Trees.{tree_size};
ghost use Rattle.tree_laws.specs.UpperParts.{upper_codes};
ghost use Rattle.binary_trees.specs.PairSums.{IsSumOfPairs};
ghost use Rattle.binary_trees.specs.Places.{AreSides, each_with, joined_codes};
ghost use Rattle.binary_trees.specs.Shapes.{shape_of};

use crate::Tree;
use crate::products::push_products;
use hopf_num::OutOfMemory;
use linear_combos::{Code, Codes, Combo, ComboBuilder, Key};
use std::alloc::Global;

// Adds each of some codes, with the same code.
fn push_each(out: &mut Vec<(Code, Code)>, codes: &Codes, part: &Code) -> Result<(), OutOfMemory>
    ensures { OnOk result (out.new.items ≡ out.old.items ++ each_with part.now codes.now) }
{
    for at in 0..codes.len() {
        out.push((*codes.at(at), *part))?;
    }
    Ok(())
}

// Adds the pairs that an upper part of the left subtree and one of the right subtree make: the trees of
// the product of what hangs below both, each with the root and both parts.
fn push_joined(
    alloc: Global,
    out: &mut Vec<(Code, Code)>,
    left: &(Code, Code),
    right: &(Code, Code),
) -> Result<(), OutOfMemory>
    requires { AreSides left.now right.now }
    ensures { OnOk result (out.new.items ≡ out.old.items ++ joined_codes left.now right.now) }
{
    let mut products = Codes::new(alloc);
    let none = Code::empty();
    push_products(&mut products, &none, &left.0, &right.0, &none)?;
    let root = left.1.with(right.1.len() as u8 + 1);
    push_each(out, &products, &root.followed_by(&right.1))
}

// Adds those of an upper part of the left subtree and each of the right one.
fn push_row(
    alloc: Global,
    out: &mut Vec<(Code, Code)>,
    left: &(Code, Code),
    rights: &[(Code, Code)],
) -> Result<(), OutOfMemory>
    requires { All (AreSides left.now) rights.now }
    ensures { OnOk result (out.new.items ≡ out.old.items ++ flat_map (λ b. joined_codes left.now b) rights.now) }
{
    for right in rights {
        push_joined(alloc, out, left, right)?;
    }
    Ok(())
}

// Adds those of each upper part of the left subtree and each of the right one.
fn push_rows(
    alloc: Global,
    out: &mut Vec<(Code, Code)>,
    lefts: &[(Code, Code)],
    rights: &[(Code, Code)],
) -> Result<(), OutOfMemory>
    requires { All (λ a. All (AreSides a) rights.now) lefts.now }
    ensures { OnOk result (out.new.items ≡ out.old.items ++ flat_map (λ a. flat_map (λ b. joined_codes a b) rights.now) lefts.now) }
{
    for left in lefts {
        push_row(alloc, out, left, rights)?;
    }
    Ok(())
}

// For each upper part of a tree, the trees of the product of what hangs below it, with the part.
fn upper_pairs(alloc: Global, tree: &Tree) -> Result<Vec<(Code, Code)>, OutOfMemory>
    requires { tree_size (shape_of tree.now) ≤ 12 }
    ensures { IfOk result (λ pairs. pairs.items ≡ upper_codes (shape_of tree.now)) }
{
    let mut pairs = Vec::new(alloc);
    pairs.push((tree.code(), Code::empty()))?;
    match tree {
        Tree::Empty => Ok(pairs),
        Tree::Node(left, right) => {
            let lefts = upper_pairs(alloc, left)?;
            let rights = upper_pairs(alloc, right)?;
            push_rows(alloc, &mut pairs, lefts.as_slice(), rights.as_slice())?;
            Ok(pairs)
        }
    }
}

// The sum of the tensors of some pairs.
fn gathered(alloc: Global, pairs: &[(Code, Code)]) -> Result<Combo, OutOfMemory>
    ensures { IfOk result (IsSumOfPairs pairs.now) }
{
    let mut out = ComboBuilder::new(alloc, 2);
    for pair in pairs {
        out.push(1, Key::two(pair.0, pair.1))?;
    }
    Ok(out.finish())
}

impl Tree {
    /// The coproduct of the element of PBT.P of a tree of at most 12 nodes, as a combination of rank 2
    /// (Loday, Ronco 1998): for each upper part, each tree of the product of the subtrees that hang below
    /// it, from left to right, tensor the part.
    ///
    /// The cost grows with the number of terms and its logarithm, for the order.
    pub fn upper_parts(&self, alloc: Global) -> Result<Combo, OutOfMemory>
        requires { tree_size (shape_of self.now) ≤ 12 }
        ensures { IfOk result (IsSumOfPairs (upper_codes (shape_of self.now))) }
    {
        let pairs = upper_pairs(alloc, self)?;
        gathered(alloc, pairs.as_slice())
    }
}

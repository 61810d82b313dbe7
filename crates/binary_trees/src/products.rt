//! The product of two trees.
ghost use Rattle.std.specs.Prelude.{◌≡◌, ◌≤◌, ◌+◌, ◌++◌, OnOk, IfOk};
ghost use Rattle.realisations.specs.Trees.{tree_size};
ghost use Rattle.linear_combos.specs.CodeLists.{ListsEach};
ghost use Rattle.tree_laws.specs.TreeProducts.{IsProductCode};
ghost use Rattle.binary_trees.specs.Places.{AreParts, products_between};
ghost use Rattle.binary_trees.specs.Shapes.{shape_of};

use crate::Tree;
use crate::codes::root_place;
use hopf_num::OutOfMemory;
use linear_combos::{Code, Codes};
use std::alloc::Global;

// Adds the codes of the trees of a product, each between other letters: for T with left A and right B,
// and U with left C and right D, the nodes [Y, D] with Y of the product of T and C, and then the nodes
// [A, X] with X of the product of B and U. So they come in canonical order.
pub(crate) fn push_products(
    out: &mut Codes,
    front: &Code,
    t: &Code,
    u: &Code,
    rest: &Code,
) -> Result<(), OutOfMemory>
    requires { AreParts front.now t.now u.now rest.now }
    ensures { OnOk result (out.new ≡ out.old ++ products_between front.now t.now u.now rest.now) }
{
    match root_place(t) {
        None => out.push(front.followed_by(u).followed_by(rest)),
        Some(i) => match root_place(u) {
            None => out.push(front.followed_by(t).followed_by(rest)),
            Some(j) => {
                let back = u.suffix(j).followed_by(rest);
                push_products(out, front, t, &u.prefix(j), &back)?;
                let root = t.len() - i + u.len();
                let start = front.followed_by(&t.prefix(i)).with(root as u8);
                push_products(out, &start, &t.suffix(i + 1), u, rest)
            }
        },
    }
}

/// The codes of the trees of the product of two trees (Loday, Ronco 1998), each once, in canonical order.
///
/// The sizes are at most 12 together. The cost grows with the number of these trees, which come in order,
/// and with the square of the sizes.
pub fn over(alloc: Global, left: &Tree, right: &Tree) -> Result<Codes, OutOfMemory>
    requires { tree_size (shape_of left.now) + tree_size (shape_of right.now) ≤ 12 }
    ensures { IfOk result (ListsEach (IsProductCode (shape_of left.now) (shape_of right.now))) }
{
    let mut codes = Codes::new(alloc);
    let none = Code::empty();
    push_products(&mut codes, &none, &left.code(), &right.code(), &none)?;
    codes.sort();
    Ok(codes)
}

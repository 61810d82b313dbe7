//! The basis P of the algebra of planar binary trees.
ghost use Rattle.std.specs.Prelude.{ℕ};
ghost use Rattle.basis_names.specs.declared.bases.BasisId.TheVariants.{PbtP as id_p};

use crate::shapes::{is_small_tree, subtree_sizes, tree};
use basis_names::BasisId;
use binary_trees::{decreasing_shape, list, over};
use hopf_num::OutOfMemory;
use index_rules::{Algebra, ClassSpace, Coalgebra, Signs, Space, signed_sum};
use linear_combos::{Code, Codes, Combo};
use std::alloc::Global;

/// The basis of planar binary trees: P of T is the sum of the words whose decreasing tree has the shape T
/// (Loday, Ronco 1998; Hivert, Novelli, Thibon 2005).
///
/// A product is the sum over the trees whose first nodes, in infix order, form the first factor, and whose
/// others form the second: at most 2^n terms of degree n, at the cost of their list and the square of the
/// sizes. A coproduct is the sum over the upper parts of the tree, each with the product of the subtrees that
/// hang below it: at most 2^n terms, at the cost of their list and a sort.
#[derive(Drop)]
pub struct PbtP;

impl Space for PbtP {
    ghost basis = { id_p };

    fn basis() -> BasisId {
        BasisId::PbtP
    }

    fn degree(code: &Code) -> u32 {
        code.len() as u32
    }

    fn is_index(code: &Code) -> bool {
        is_small_tree(code)
    }

    fn list(alloc: Global, degree: u32) -> Result<Codes, OutOfMemory> {
        list(alloc, degree)
    }

    fn word_of(alloc: Global, code: &Code) -> Result<Code, OutOfMemory> {
        let shape = tree(alloc, code)?;
        Ok(subtree_sizes(&shape))
    }
}

impl ClassSpace for PbtP {
    fn class_of(alloc: Global, point: &Code) -> Result<Code, OutOfMemory> {
        let shape = decreasing_shape(alloc, point)?;
        Ok(shape.code())
    }
}

impl Algebra for PbtP {
    ghost product_growth = { 1 };

    fn product(alloc: Global, left: &Code, right: &Code) -> Result<Combo, OutOfMemory> {
        let first = tree(alloc, left)?;
        let second = tree(alloc, right)?;
        let codes = over(alloc, &first, &second)?;
        signed_sum(alloc, &codes, Signs::Plus)
    }
}

impl Coalgebra for PbtP {
    ghost coproduct_growth = { 1 };

    fn coproduct(alloc: Global, code: &Code) -> Result<Combo, OutOfMemory> {
        let shape = tree(alloc, code)?;
        let sum = shape.upper_parts(alloc)?;
        let _rank = sum.rank();
        Ok(sum)
    }
}

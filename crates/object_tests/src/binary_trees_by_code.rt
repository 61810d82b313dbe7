//! Tests of trees by their codes, of decreasing and search trees, products and lists.
use crate::code_lists::are;
use binary_trees::{Tree, decreasing_shape, list, over, sylvester_insert};
use linear_combos::{Code, Combo, Key};
use permutation_words::Permutation;
use std::test::Fail;

fn code(letters: &[u8]) -> Result<Code, Fail> {
    Ok(Code::new(letters).ok_or("no code")?)
}

/// No tree of one node has the letter 2; 121 is the code of a root with two leaves.
#[test]
fn codes_of_trees(rt: HostRuntime) -> Result<(), Fail> {
    assert!(rt; Tree::from_code(rt.alloc(), &code(&[2])?)?.is_none());
    let tree = Tree::from_code(rt.alloc(), &code(&[1, 2, 1])?)?.ok_or("no tree")?;
    assert_eq!(rt; tree.code(), code(&[1, 2, 1])?);
    assert_eq!(rt; tree.size(), 3);
    Ok(())
}

/// The decreasing tree of 221, whose root is the last greatest letter.
#[test]
fn decreasing_tree_of_221(rt: HostRuntime) -> Result<(), Fail> {
    let word = Code::new(&[2, 2, 1]).ok_or("no code")?;
    let tree = decreasing_shape(rt.alloc(), &word)?;
    assert_eq!(rt; tree.code(), code(&[1, 2, 1])?);
    Ok(())
}

/// The search tree of 312: 2 enters, then 1 on its left and 3 on its right.
#[test]
fn search_tree_of_312(rt: HostRuntime) -> Result<(), Fail> {
    let permutation = Permutation::new(&[3, 1, 2]).ok_or("no permutation")?;
    let tree = sylvester_insert(rt.alloc(), &permutation)?;
    assert_eq!(rt; tree.code(), code(&[1, 2, 1])?);
    Ok(())
}

/// The product of one node with itself, which has the trees of two nodes.
#[test]
fn product_of_two_nodes(rt: HostRuntime) -> Result<(), Fail> {
    let one = Tree::from_code(rt.alloc(), &code(&[1])?)?.ok_or("no tree")?;
    assert_eq!(rt; one.size(), 1);
    let wanted: [&[u8]; 2] = [&[1, 1], &[2, 1]];
    assert!(rt; are(&over(rt.alloc(), &one, &one)?, &wanted));
    assert!(rt; are(&list(rt.alloc(), 2)?, &wanted));
    Ok(())
}

/// How many trees there are of each size up to 7: the Catalan numbers.
#[test]
fn trees_by_degree(rt: HostRuntime) -> Result<(), Fail> {
    for (degree, count) in [
        (0, 1),
        (1, 1),
        (2, 2),
        (3, 5),
        (4, 14),
        (5, 42),
        (6, 132),
        (7, 429),
    ] {
        assert_eq!(rt; list(rt.alloc(), degree)?.len(), count);
    }
    Ok(())
}

// Whether a code is that of a tree with this code and size.
fn reads_back(rt: &HostRuntime, code: &Code) -> Result<bool, Fail> {
    match Tree::from_code(rt.alloc(), code)? {
        None => Ok(false),
        Some(tree) => Ok(tree.code() == *code),
    }
}

/// Each listed code of up to five nodes is that of a tree.
#[test]
fn listed_codes_are_read_back(rt: HostRuntime) -> Result<(), Fail> {
    for degree in 0..6 {
        let codes = list(rt.alloc(), degree)?;
        for at in 0..codes.len() {
            assert!(rt; reads_back(&rt, codes.at(at))?);
        }
    }
    Ok(())
}

// Whether the combination is the sum of these tensors, in this order.
fn is_sum_of(combo: &Combo, wanted: &[(&[u8], &[u8])]) -> bool {
    if combo.len() != wanted.len() {
        return false;
    }
    for at in 0..combo.len() {
        match (Code::new(wanted[at].0), Code::new(wanted[at].1)) {
            (Some(first), Some(second)) => {
                if combo.num_at(at) != 1 || *combo.key_at(at) != Key::two(first, second) {
                    return false;
                }
            }
            _ => return false,
        }
    }
    true
}

/// The upper parts of a root with two leaves: none, the root, the root with each leaf, and the whole tree.
#[test]
fn upper_parts_of_a_root_with_two_leaves(rt: HostRuntime) -> Result<(), Fail> {
    let tree = Tree::from_code(rt.alloc(), &code(&[1, 2, 1])?)?.ok_or("no tree")?;
    let wanted: [(&[u8], &[u8]); 6] = [
        (&[], &[1, 2, 1]),
        (&[1], &[1, 1]),
        (&[1], &[2, 1]),
        (&[1, 1], &[1]),
        (&[1, 2, 1], &[]),
        (&[2, 1], &[1]),
    ];
    assert!(rt; is_sum_of(&tree.upper_parts(rt.alloc())?, &wanted));
    Ok(())
}

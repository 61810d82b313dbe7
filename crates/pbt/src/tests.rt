//! Each rule once, where memory suffices.
use super::*;
use index_rules::{Algebra, ClassSpace, Coalgebra, Space};
use linear_combos::{Code, Combo};
use std::alloc::Global;
use std::test::Fail;

// Whether a combination has this many terms, each with numerator 1.
fn has_ones(combo: &Combo, count: usize) -> bool {
    if combo.len() != count {
        return false;
    }
    for at in 0..combo.len() {
        if combo.num_at(at) != 1 {
            return false;
        }
    }
    true
}

// Whether the product of two elements has this many terms.
fn multiplies(alloc: Global, left: &[u8], right: &[u8], count: usize) -> bool {
    let (Some(left), Some(right)) = (Code::new(left), Code::new(right)) else {
        return false;
    };
    if !PbtP::is_index(&left) || !PbtP::is_index(&right) || left.len() + right.len() > 7 {
        return false;
    }
    let Ok(product) = PbtP::product(alloc, &left, &right) else {
        return false;
    };
    has_ones(&product, count)
}

// Whether the coproduct of an element has this many terms.
fn cuts(alloc: Global, letters: &[u8], count: usize) -> bool {
    let Some(code) = Code::new(letters) else {
        return false;
    };
    if !PbtP::is_index(&code) {
        return false;
    }
    let Ok(coproduct) = PbtP::coproduct(alloc, &code) else {
        return false;
    };
    has_ones(&coproduct, count)
}

// Whether an index has this representative, and is its class.
fn represents(alloc: Global, letters: &[u8], point: &[u8]) -> bool {
    let (Some(code), Some(point)) = (Code::new(letters), Code::new(point)) else {
        return false;
    };
    if !PbtP::is_index(&code) || point.len() > 7 {
        return false;
    }
    let Ok(word) = PbtP::word_of(alloc, &code) else {
        return false;
    };
    let Ok(class) = PbtP::class_of(alloc, &point) else {
        return false;
    };
    word == point && class == code
}

/// P of one node squared is the sum of both trees of two nodes.
#[test]
fn products(rt: HostRuntime) -> Result<(), Fail> {
    assert!(rt; multiplies(rt.alloc(), &[1], &[1], 2));
    Ok(())
}

/// Of a root with two children nothing, the root, the root and a child, or all are above: as two nodes
/// have two trees in their product, that is six pairs.
#[test]
fn coproducts(rt: HostRuntime) -> Result<(), Fail> {
    assert!(rt; cuts(rt.alloc(), &[1, 2, 1], 6));
    Ok(())
}

/// A root with two children has the subtrees of 1, 3 and 1 nodes.
#[test]
fn representatives(rt: HostRuntime) -> Result<(), Fail> {
    assert!(rt; represents(rt.alloc(), &[1, 2, 1], &[1, 3, 1]));
    Ok(())
}

//! Each rule once, where memory suffices.
use super::*;
use index_rules::{Algebra, Coalgebra, Space};
use linear_combos::{Code, Combo};
use std::alloc::Global;
use std::test::Fail;

// Whether a combination has this many terms, each with numerator 1.
fn has_ones(combo: &Combo, count: usize) -> bool {
    if combo.len() != count {
        return false;
    }
    for at in 0..combo.len() {
        if combo.num_at(at) != 1 {
            return false;
        }
    }
    true
}

// Whether the product of two elements has this many terms.
fn multiplies(alloc: Global, left: &[u8], right: &[u8], count: usize) -> bool {
    let (Some(left), Some(right)) = (Code::new(left), Code::new(right)) else {
        return false;
    };
    if !WqsymM::is_index(&left) || !WqsymM::is_index(&right) || left.len() + right.len() > 6 {
        return false;
    }
    let Ok(merges) = WqsymM::product(alloc, &left, &right) else {
        return false;
    };
    has_ones(&merges, count)
}

// Whether the coproduct of an element has this many terms.
fn cuts(alloc: Global, letters: &[u8], count: usize) -> bool {
    let Some(code) = Code::new(letters) else {
        return false;
    };
    if !WqsymM::is_index(&code) {
        return false;
    }
    let Ok(values) = WqsymM::coproduct(alloc, &code) else {
        return false;
    };
    has_ones(&values, count)
}

/// M of 11 times M of 21 is the sum over the merges 1121, 1132, 2221, 2231 and 3321.
#[test]
fn products(rt: HostRuntime) -> Result<(), Fail> {
    assert!(rt; multiplies(rt.alloc(), &[1, 1], &[2, 1], 5));
    Ok(())
}

/// The coproduct of M of 2121 has a term for each value from 0 to 2.
#[test]
fn coproducts(rt: HostRuntime) -> Result<(), Fail> {
    assert!(rt; cuts(rt.alloc(), &[2, 1, 2, 1], 3));
    Ok(())
}

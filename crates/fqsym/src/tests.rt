//! Each rule once, where memory suffices.
use super::*;
use index_rules::{Algebra, Change, Coalgebra, Space};
use linear_combos::{Code, Combo};
use std::alloc::Global;
use std::test::Fail;

// Whether a combination has this many terms, each with numerator 1.
fn has_ones(combo: &Combo, count: usize) -> bool {
    if combo.len() != count {
        return false;
    }
    for at in 0..combo.len() {
        if combo.num_at(at) != 1 {
            return false;
        }
    }
    true
}

// Whether the product of two elements has this many terms over both bases.
fn multiplies(alloc: Global, left: &[u8], right: &[u8], count: usize) -> bool {
    let (Some(left), Some(right)) = (Code::new(left), Code::new(right)) else {
        return false;
    };
    if !FqsymF::is_index(&left) || !FqsymF::is_index(&right) || left.len() + right.len() > 7 {
        return false;
    }
    let Ok(shuffles) = FqsymF::product(alloc, &left, &right) else {
        return false;
    };
    let Ok(convolutions) = FqsymG::product(alloc, &left, &right) else {
        return false;
    };
    has_ones(&shuffles, count) && has_ones(&convolutions, count)
}

// Whether the coproduct of an element has this many terms over both bases.
fn cuts(alloc: Global, letters: &[u8], count: usize) -> bool {
    let Some(code) = Code::new(letters) else {
        return false;
    };
    if !FqsymF::is_index(&code) {
        return false;
    }
    let Ok(places) = FqsymF::coproduct(alloc, &code) else {
        return false;
    };
    let Ok(values) = FqsymG::coproduct(alloc, &code) else {
        return false;
    };
    has_ones(&places, count) && has_ones(&values, count)
}

// Whether F of a permutation is G of another one.
fn changes_to(alloc: Global, letters: &[u8], others: &[u8]) -> bool {
    let (Some(code), Some(other)) = (Code::new(letters), Code::new(others)) else {
        return false;
    };
    if !FqsymF::is_index(&code) {
        return false;
    }
    let Ok(changed) = FqsymF::change(alloc, &code) else {
        return false;
    };
    changed.len() == 1 && changed.rank() == 1 && *changed.key_at(0).code(1) == other
}

/// F of 1 times F of 21 is the sum over the shuffles 132, 312 and 321 of 1 and 32, and G of 1 times G of 21
/// that over the convolutions 132, 231 and 321.
#[test]
fn products(rt: HostRuntime) -> Result<(), Fail> {
    assert!(rt; multiplies(rt.alloc(), &[1], &[2, 1], 3));
    Ok(())
}

/// The coproduct of F of 231 has a term for each number of letters from 0 to 3, and that of G one for each
/// value from 0 to 3.
#[test]
fn coproducts(rt: HostRuntime) -> Result<(), Fail> {
    assert!(rt; cuts(rt.alloc(), &[2, 3, 1], 4));
    Ok(())
}

/// F of 231 is G of 312.
#[test]
fn changes(rt: HostRuntime) -> Result<(), Fail> {
    assert!(rt; changes_to(rt.alloc(), &[2, 3, 1], &[3, 1, 2]));
    Ok(())
}

//! Each rule once, where memory suffices.
use super::*;
use index_rules::{Algebra, Coalgebra, Space};
use linear_combos::{Code, Combo};
use std::alloc::Global;
use std::test::Fail;

// Whether a combination has these numerators.
fn has_nums(combo: &Combo, nums: &[i128]) -> bool {
    if combo.len() != nums.len() {
        return false;
    }
    for at in 0..combo.len() {
        if combo.num_at(at) != nums[at] {
            return false;
        }
    }
    true
}

// Whether the product of two elements over F has these numerators.
fn multiplies(alloc: Global, left: &[u8], right: &[u8], nums: &[i128]) -> bool {
    let (Some(left), Some(right)) = (Code::new(left), Code::new(right)) else {
        return false;
    };
    if !QsymF::is_index(&left) || !QsymF::is_index(&right) || left.sum() + right.sum() > 10 {
        return false;
    }
    let Ok(product) = QsymF::product(alloc, &left, &right) else {
        return false;
    };
    has_nums(&product, nums)
}

// Whether the coproduct of an element over F has these numerators.
fn cuts(alloc: Global, letters: &[u8], nums: &[i128]) -> bool {
    let Some(code) = Code::new(letters) else {
        return false;
    };
    if !QsymF::is_index(&code) {
        return false;
    }
    let Ok(coproduct) = QsymF::coproduct(alloc, &code) else {
        return false;
    };
    has_nums(&coproduct, nums)
}

/// F of (1) times F of (2) is the sum of F of (1,2), F of (2,1) and F of (3), by the shuffles of 1 and 23;
/// so the changes both ways and the quasi-shuffle are run.
#[test]
fn product_of_fundamentals(rt: HostRuntime) -> Result<(), Fail> {
    assert!(rt; multiplies(rt.alloc(), &[1], &[2], &[1, 1, 1]));
    Ok(())
}

/// The coproduct of F of (2,1) has a term for each degree from 0 to 3.
#[test]
fn coproduct_of_a_fundamental(rt: HostRuntime) -> Result<(), Fail> {
    assert!(rt; cuts(rt.alloc(), &[2, 1], &[1, 1, 1, 1]));
    Ok(())
}

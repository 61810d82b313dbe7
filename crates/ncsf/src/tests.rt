//! Each rule once, where memory suffices.
use super::*;
use index_rules::{Algebra, Change, Coalgebra, Space};
use linear_combos::{Code, Combo};
use std::alloc::Global;
use std::test::Fail;

// Whether a combination has these numerators.
fn has_nums(combo: &Combo, nums: &[i128]) -> bool {
    if combo.len() != nums.len() {
        return false;
    }
    for at in 0..combo.len() {
        if combo.num_at(at) != nums[at] {
            return false;
        }
    }
    true
}

// Whether the product of two ribbons has these numerators.
fn multiplies(alloc: Global, left: &[u8], right: &[u8], nums: &[i128]) -> bool {
    let (Some(left), Some(right)) = (Code::new(left), Code::new(right)) else {
        return false;
    };
    if !NcsfR::is_index(&left) || !NcsfR::is_index(&right) || left.sum() + right.sum() > 10 {
        return false;
    }
    let Ok(product) = NcsfR::product(alloc, &left, &right) else {
        return false;
    };
    has_nums(&product, nums)
}

// Whether the coproduct of a ribbon has these numerators.
fn cuts(alloc: Global, letters: &[u8], nums: &[i128]) -> bool {
    let Some(code) = Code::new(letters) else {
        return false;
    };
    if !NcsfR::is_index(&code) {
        return false;
    }
    let Ok(coproduct) = NcsfR::coproduct(alloc, &code) else {
        return false;
    };
    has_nums(&coproduct, nums)
}

// Whether the coproduct of a complete function has these numerators.
fn cuts_parts(alloc: Global, letters: &[u8], nums: &[i128]) -> bool {
    let Some(code) = Code::new(letters) else {
        return false;
    };
    if !NcsfS::is_index(&code) {
        return false;
    }
    let Ok(coproduct) = NcsfS::coproduct(alloc, &code) else {
        return false;
    };
    has_nums(&coproduct, nums)
}

// Whether an elementary function has these numerators over the ribbons.
fn changes(alloc: Global, letters: &[u8], nums: &[i128]) -> bool {
    let Some(code) = Code::new(letters) else {
        return false;
    };
    if !NcsfL::is_index(&code) {
        return false;
    }
    let Ok(changed) = <NcsfL as Change<NcsfR>>::change(alloc, &code) else {
        return false;
    };
    has_nums(&changed, nums)
}

/// R of (1) times R of (2) is R of (1,2) and R of (3).
#[test]
fn product_of_ribbons(rt: HostRuntime) -> Result<(), Fail> {
    assert!(rt; multiplies(rt.alloc(), &[1], &[2], &[1, 1]));
    Ok(())
}

/// The coproduct of R of (2,1) has six terms: of the empty composition and (2,1), (1) and (1,1), (1) and
/// (2), and these the other way round.
#[test]
fn coproduct_of_a_ribbon(rt: HostRuntime) -> Result<(), Fail> {
    assert!(rt; cuts(rt.alloc(), &[2, 1], &[1, 1, 1, 1, 1, 1]));
    Ok(())
}

/// The coproduct of S of (1,1) has the terms of the empty composition and (1,1), of (1) and (1) twice, and
/// of (1,1) and the empty composition; and L of (2) is R of (1,1).
#[test]
fn elementary_in_ribbons(rt: HostRuntime) -> Result<(), Fail> {
    assert!(rt; cuts_parts(rt.alloc(), &[1, 1], &[1, 2, 1]));
    assert!(rt; changes(rt.alloc(), &[2], &[1]));
    Ok(())
}

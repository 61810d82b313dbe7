//! The images over NCSF once, where memory suffices.
use super::*;
use index_rules::Space;
use linear_combos::{Code, Combo};
use ncsf::{NcsfL, NcsfR, NcsfS};
use std::alloc::Global;
use std::test::Fail;

// Whether a combination has these numerators.
fn has_nums(combo: &Combo, nums: &[i128]) -> bool {
    if combo.len() != nums.len() {
        return false;
    }
    for at in 0..combo.len() {
        if combo.num_at(at) != nums[at] {
            return false;
        }
    }
    true
}

// Whether the image of an element has these numerators.
fn becomes<A: CommutingImage>(alloc: Global, letters: &[u8], nums: &[i128]) -> bool {
    let Some(code) = Code::new(letters) else {
        return false;
    };
    if !A::is_index(&code) {
        return false;
    }
    let Ok(image) = A::image(alloc, &code) else {
        return false;
    };
    has_nums(&image, nums)
}

/// R of (2,1) becomes M of (1,1,1) twice, M of (1,2) and M of (2,1); and R of (1,1,2), which goes by L, M of
/// (1,1,1,1) three times, and M of the three compositions of 4 of three parts.
#[test]
fn image_of_a_ribbon(rt: HostRuntime) -> Result<(), Fail> {
    assert!(rt; becomes::<NcsfR>(rt.alloc(), &[2, 1], &[2, 1, 1]));
    assert!(rt; becomes::<NcsfR>(rt.alloc(), &[1, 1, 2], &[3, 1, 1, 1]));
    Ok(())
}

/// S of (2) becomes M of (1,1) and M of (2).
#[test]
fn image_of_a_complete_function(rt: HostRuntime) -> Result<(), Fail> {
    assert!(rt; becomes::<NcsfS>(rt.alloc(), &[2], &[1, 1]));
    assert!(rt; becomes::<NcsfS>(rt.alloc(), &[1, 1], &[2, 1]));
    Ok(())
}

/// L of (2) becomes M of (1,1) alone.
#[test]
fn image_of_an_elementary_function(rt: HostRuntime) -> Result<(), Fail> {
    assert!(rt; becomes::<NcsfL>(rt.alloc(), &[2], &[1]));
    assert!(rt; becomes::<NcsfL>(rt.alloc(), &[2, 1], &[3, 1, 1]));
    Ok(())
}

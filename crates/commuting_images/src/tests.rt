//! One image of each basis, where memory suffices.
use super::*;
use fqsym::{FqsymF, FqsymG};
use fsym::FsymS;
use linear_combos::{Code, Combo};
use pbt::PbtP;
use qsym::{QsymF, QsymM};
use std::alloc::Global;
use std::test::Fail;
use wqsym::WqsymM;

// The image of the element of these letters.
fn image_of<A: CommutingImage>(alloc: Global, letters: &[u8]) -> Option<Combo> {
    let code = Code::new(letters)?;
    if !A::is_index(&code) {
        return None;
    }
    A::image(alloc, &code).ok()
}

// Whether the term at a place is a number of times M of these parts.
fn has_term(combo: &Combo, at: usize, num: i128, parts: &[u8]) -> bool {
    let Some(code) = Code::new(parts) else {
        return false;
    };
    if combo.rank() != 1 || combo.den() != 1 || at >= combo.len() {
        return false;
    }
    combo.num_at(at) == num && *combo.key_at(at).code(1) == code
}

// Whether the image of an element is one M.
fn is_one<A: CommutingImage>(alloc: Global, letters: &[u8], parts: &[u8]) -> bool {
    let Some(image) = image_of::<A>(alloc, letters) else {
        return false;
    };
    image.len() == 1 && has_term(&image, 0, 1, parts)
}

// Whether the image of an element is the sum of two M.
fn is_sum<A: CommutingImage>(alloc: Global, letters: &[u8], first: &[u8], second: &[u8]) -> bool {
    let Some(image) = image_of::<A>(alloc, letters) else {
        return false;
    };
    image.len() == 2 && has_term(&image, 0, 1, first) && has_term(&image, 1, 1, second)
}

/// M of a composition is its own image.
#[test]
fn monomials(rt: HostRuntime) -> Result<(), Fail> {
    assert!(rt; is_one::<QsymM>(rt.alloc(), &[2, 1], &[2, 1]));
    Ok(())
}

/// F of (2,1) is M of (1,1,1) and of (2,1).
#[test]
fn fundamentals(rt: HostRuntime) -> Result<(), Fail> {
    assert!(rt; is_sum::<QsymF>(rt.alloc(), &[2, 1], &[1, 1, 1], &[2, 1]));
    Ok(())
}

/// F of 231, whose descent composition is (2,1).
#[test]
fn permutations(rt: HostRuntime) -> Result<(), Fail> {
    assert!(rt; is_sum::<FqsymF>(rt.alloc(), &[2, 3, 1], &[1, 1, 1], &[2, 1]));
    Ok(())
}

/// G of 231: the descent composition of its inverse 312 is (1,2).
#[test]
fn dual_permutations(rt: HostRuntime) -> Result<(), Fail> {
    assert!(rt; is_sum::<FqsymG>(rt.alloc(), &[2, 3, 1], &[1, 1, 1], &[1, 2]));
    Ok(())
}

/// M of 211 has two letters 1 and one letter 2.
#[test]
fn packed_words(rt: HostRuntime) -> Result<(), Fail> {
    assert!(rt; is_one::<WqsymM>(rt.alloc(), &[2, 1, 1], &[2, 1]));
    Ok(())
}

// Whether the image of an element is that of F of (1,2) and of F of (2,1).
fn is_both<A: CommutingImage>(alloc: Global, letters: &[u8]) -> bool {
    let Some(image) = image_of::<A>(alloc, letters) else {
        return false;
    };
    image.len() == 3
        && has_term(&image, 0, 2, &[1, 1, 1])
        && has_term(&image, 1, 1, &[1, 2])
        && has_term(&image, 2, 1, &[2, 1])
}

/// P of a root with two children is F of 132 and of 312, so its image is F of (2,1) and of (1,2).
#[test]
fn trees(rt: HostRuntime) -> Result<(), Fail> {
    assert!(rt; is_both::<PbtP>(rt.alloc(), &[1, 2, 1]));
    Ok(())
}

/// S of the tableau with the rows 12 and 3 is F of the same two permutations.
#[test]
fn standard_tableaux(rt: HostRuntime) -> Result<(), Fail> {
    assert!(rt; is_both::<FsymS>(rt.alloc(), &[1, 1, 2]));
    Ok(())
}

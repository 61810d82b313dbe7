//! Tests of shuffles, convolutions and lists of permutations.
use crate::code_lists::are;
use linear_combos::Code;
use permutation_words::{Permutation, convolution, list, shifted_shuffle, shuffles};
use std::test::Fail;

/// The shuffles of 1 and 32, by the places of the first word.
#[test]
fn shuffles_of_three_letters(rt: HostRuntime) -> Result<(), Fail> {
    let one = Code::new(&[1]).ok_or("no code")?;
    let other = Code::new(&[3, 2]).ok_or("no code")?;
    let codes = shuffles(rt.alloc(), &one, &other)?;
    assert!(rt; are(&codes, &[&[1, 3, 2], &[3, 1, 2], &[3, 2, 1]]));
    Ok(())
}

/// The shifted shuffles of 1 and 21, and their convolution.
#[test]
fn products_of_permutations(rt: HostRuntime) -> Result<(), Fail> {
    let one = Permutation::new(&[1]).ok_or("no permutation")?;
    let other = Permutation::new(&[2, 1]).ok_or("no permutation")?;
    let shifted = shifted_shuffle(rt.alloc(), &one, &other)?;
    assert!(rt; are(&shifted, &[&[1, 3, 2], &[3, 1, 2], &[3, 2, 1]]));
    let convolved = convolution(rt.alloc(), &one, &other)?;
    assert!(rt; are(&convolved, &[&[1, 3, 2], &[2, 3, 1], &[3, 2, 1]]));
    Ok(())
}

/// The permutations of 2, and how many there are of each number up to 7.
#[test]
fn permutations_by_degree(rt: HostRuntime) -> Result<(), Fail> {
    assert!(rt; are(&list(rt.alloc(), 2)?, &[&[1, 2], &[2, 1]]));
    for (degree, count) in [
        (0, 1),
        (1, 1),
        (2, 2),
        (3, 6),
        (4, 24),
        (5, 120),
        (6, 720),
        (7, 5040),
    ] {
        assert_eq!(rt; list(rt.alloc(), degree)?.len(), count);
    }
    Ok(())
}

//! Tests of merges and lists of packed words.
use crate::code_lists::are;
use packed_words::{PackedWord, list, merge_all};
use std::test::Fail;

/// The merges of 1 and 1, which are the packed words of two letters.
#[test]
fn packed_words_of_two_letters(rt: HostRuntime) -> Result<(), Fail> {
    let one = PackedWord::new(&[1]).ok_or("no packed word")?;
    let wanted: [&[u8]; 3] = [&[1, 1], &[1, 2], &[2, 1]];
    assert!(rt; are(&merge_all(rt.alloc(), &one, &one)?, &wanted));
    assert!(rt; are(&list(rt.alloc(), 2)?, &wanted));
    Ok(())
}

/// How many packed words there are of each length up to 6.
#[test]
fn packed_words_by_degree(rt: HostRuntime) -> Result<(), Fail> {
    for (degree, count) in [
        (0, 1),
        (1, 1),
        (2, 3),
        (3, 13),
        (4, 75),
        (5, 541),
        (6, 4683),
    ] {
        assert_eq!(rt; list(rt.alloc(), degree)?.len(), count);
    }
    Ok(())
}

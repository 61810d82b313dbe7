//! Tests of codes and keys.
use linear_combos::{Code, Codes, Key};
use std::test::Fail;

fn code(letters: &[u8]) -> Result<Code, Fail> {
    Ok(Code::new(letters).ok_or("no code")?)
}

/// What a code is, and the canonical order.
#[test]
fn codes_in_canonical_order(rt: HostRuntime) -> Result<(), Fail> {
    assert!(rt; Code::new(&[0]).is_none());
    assert!(rt; Code::new(&[16]).is_none());
    assert!(rt; Code::new(&[1; 16]).is_none());
    assert!(rt; Code::new(&[15; 15]).is_some());

    let mut rising = Codes::new(rt.alloc());
    for letters in [&[] as &[u8], &[1], &[1, 1], &[1, 2], &[2], &[2, 1]] {
        rising.push(code(letters)?)?;
    }
    assert_eq!(rt; rising.len(), 6);
    for at in 1..6usize {
        assert!(rt; at < rising.len());
        assert!(rt; rising.at(at - 1) < rising.at(at), "at {at}");
    }
    Ok(())
}

// Whether the key of these codes is that of the first followed by that of the second.
fn is_row(left: &Code, right: &Code, row: &Key) -> bool {
    let left = Key::one(*left);
    let right = Key::one(*right);
    let made = left.followed_by(&right);
    made == *row
}

/// The codes of one key and then of the other.
#[test]
fn keys_in_a_row(rt: HostRuntime) -> Result<(), Fail> {
    let one = code(&[1])?;
    let two = code(&[2])?;
    let row = Key::two(one, two);
    assert!(rt; is_row(&one, &two, &row));
    assert!(rt; !is_row(&two, &one, &row));
    Ok(())
}

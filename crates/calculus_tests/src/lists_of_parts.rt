//! Tests of compositions.
use compositions::Composition;
use std::test::Fail;

fn composition(parts: &[u8]) -> Result<Composition, Fail> {
    Ok(Composition::new(parts).ok_or("no composition")?)
}

/// A list is a composition of at most 12, or none.
#[test]
fn lists_of_parts(rt: HostRuntime) -> Result<(), Fail> {
    assert!(rt; Composition::new(&[2, 0]).is_none());
    assert!(rt; Composition::new(&[6, 7]).is_none());
    assert!(rt; Composition::new(&[1; 13]).is_none());
    assert_eq!(rt; composition(&[6, 6])?.size(), 12);
    assert_eq!(rt; composition(&[])?.size(), 0);
    Ok(())
}

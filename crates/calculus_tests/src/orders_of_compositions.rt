//! Tests of lists of compositions, and of their cuts.
use compositions::{Composition, list};
use linear_combos::{Code, Codes, Combo, Key};
use std::test::Fail;

fn composition(parts: &[u8]) -> Result<Composition, Fail> {
    Ok(Composition::new(parts).ok_or("no composition")?)
}

// Whether the codes are these, in this order.
fn are(codes: &Codes, wanted: &[&[u8]]) -> bool {
    if codes.len() != wanted.len() {
        return false;
    }
    for at in 0..codes.len() {
        if Code::new(wanted[at]) != Some(*codes.at(at)) {
            return false;
        }
    }
    true
}

/// The finer compositions of the coarsest one of 2, and the coarser ones of the finest.
#[test]
fn both_compositions_of_2(rt: HostRuntime) -> Result<(), Fail> {
    let finer = composition(&[2])?.refinements(rt.alloc())?;
    assert!(rt; are(&finer, &[&[1, 1], &[2]]));
    let coarser = composition(&[1, 1])?.coarsenings(rt.alloc())?;
    assert!(rt; are(&coarser, &[&[1, 1], &[2]]));
    Ok(())
}

/// The compositions of 3, and how many there are of each number up to 7.
#[test]
fn compositions_by_degree(rt: HostRuntime) -> Result<(), Fail> {
    let of_three = list(rt.alloc(), 3)?;
    assert!(rt; are(&of_three, &[&[1, 1, 1], &[1, 2], &[2, 1], &[3]]));
    for (degree, count) in [
        (0, 1),
        (1, 1),
        (2, 2),
        (3, 4),
        (4, 8),
        (5, 16),
        (6, 32),
        (7, 64),
    ] {
        assert_eq!(rt; list(rt.alloc(), degree)?.len(), count);
    }
    Ok(())
}

// Whether the terms are these pairs of codes, each with coefficient 1, in this order.
fn are_pairs(combo: &Combo, wanted: &[(&[u8], &[u8])]) -> bool {
    if combo.len() != wanted.len() {
        return false;
    }
    for at in 0..combo.len() {
        let (Some(left), Some(right)) = (Code::new(wanted[at].0), Code::new(wanted[at].1)) else {
            return false;
        };
        if combo.num_at(at) != 1 || *combo.key_at(at) != Key::two(left, right) {
            return false;
        }
    }
    true
}

/// The coproduct of a monomial quasi-symmetric function.
#[test]
fn cuts_of_a_composition(rt: HostRuntime) -> Result<(), Fail> {
    let cuts = composition(&[2, 1])?.cuts(rt.alloc())?;
    assert!(rt; are_pairs(&cuts, &[(&[], &[2, 1]), (&[2], &[1]), (&[2, 1], &[])]));
    Ok(())
}

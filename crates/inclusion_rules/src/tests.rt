//! Inclusions of each of the three algebras, where memory suffices.
ghost use Rattle.std.specs.Prelude.{◌≤◌};
ghost use Rattle.index_rules.specs.Spaces.{limit_for};

use super::*;
use fqsym::{FqsymF, FqsymG};
use fsym::FsymS;
use index_rules::{Rule, Space};
use linear_combos::{Code, Combo};
use ncsf::NcsfR;
use pbt::PbtP;
use std::alloc::Global;
use std::test::Fail;
use wqsym::WqsymM;

// Whether a combination is the sum of two elements.
fn is_sum(combo: &Combo, first: &Code, second: &Code) -> bool {
    if combo.len() != 2 || combo.rank() != 1 || combo.den() != 1 {
        return false;
    }
    combo.num_at(0) == 1
        && *combo.key_at(0).code(1) == *first
        && combo.num_at(1) == 1
        && *combo.key_at(1).code(1) == *second
}

// Whether a rule answers, for an element, the sum of two elements of the finer basis.
fn answers<A: InclusionIn<B>, B: Space>(
    alloc: Global,
    rule: &mut ByInclusion<A, B>,
    letters: &[u8],
    first: &[u8],
    second: &[u8],
) -> bool
    requires coarse { 6 ≤ limit_for A.basis }
    requires fine { 6 ≤ limit_for B.basis }
{
    let (Some(code), Some(first), Some(second)) = (
        Code::new(letters),
        Code::new(first),
        Code::new(second),
    ) else {
        return false;
    };
    if !A::is_index(&code) || A::degree(&code) > 6 {
        return false;
    }
    let Ok(sum) = rule.apply(alloc, &code) else {
        return false;
    };
    is_sum(&sum, &first, &second)
}

// Whether an element is the sum of two elements of the finer basis.
fn includes<A: InclusionIn<B>, B: Space>(
    alloc: Global,
    letters: &[u8],
    first: &[u8],
    second: &[u8],
) -> bool
    requires coarse { 6 ≤ limit_for A.basis }
    requires fine { 6 ≤ limit_for B.basis }
{
    let mut rule: ByInclusion<A, B> = ByInclusion::new(alloc);
    answers(alloc, &mut rule, letters, first, second)
}

/// R of 2, 1 is G of 132 and of 231.
#[test]
fn ribbons(rt: HostRuntime) -> Result<(), Fail> {
    assert!(rt; includes::<NcsfR, FqsymG>(rt.alloc(), &[2, 1], &[1, 3, 2], &[2, 3, 1]));
    Ok(())
}

/// P of a root with two children is F of 132 and of 312.
#[test]
fn trees(rt: HostRuntime) -> Result<(), Fail> {
    assert!(rt; includes::<PbtP, FqsymF>(rt.alloc(), &[1, 2, 1], &[1, 3, 2], &[3, 1, 2]));
    Ok(())
}

/// S of the tableau with the rows 12 and 3 is F of 132 and of 312, and R of 2, 2 is S of both tableaux of four
/// numbers that have 3, and no other number, below the one before it.
#[test]
fn tableaux_and_ribbons(rt: HostRuntime) -> Result<(), Fail> {
    assert!(rt; includes::<FsymS, FqsymF>(rt.alloc(), &[1, 1, 2], &[1, 3, 2], &[3, 1, 2]));
    assert!(rt; includes::<NcsfR, FsymS>(rt.alloc(), &[2, 2], &[1, 1, 2, 1], &[1, 1, 2, 2]));
    Ok(())
}

/// G of 12 is M of 11 and of 12.
#[test]
fn permutations(rt: HostRuntime) -> Result<(), Fail> {
    assert!(rt; includes::<FqsymG, WqsymM>(rt.alloc(), &[1, 2], &[1, 1], &[1, 2]));
    Ok(())
}

/// R of 1, 2 is P of both trees of three nodes that have a right child at the first node alone: 211 and 311.
#[test]
fn descents(rt: HostRuntime) -> Result<(), Fail> {
    assert!(rt; includes::<NcsfR, PbtP>(rt.alloc(), &[1, 2], &[2, 1, 1], &[3, 1, 1]));
    Ok(())
}

/// One rule, asked for two indices of degree 3, one of degree 2, and the first one again: G of 132 is M of
/// 121 and of 132, G of 213 is M of 212 and of 213, and G of 12 is M of 11 and of 12.
#[test]
fn several_degrees(rt: HostRuntime) -> Result<(), Fail> {
    let mut rule: ByInclusion<FqsymG, WqsymM> = ByInclusion::new(rt.alloc());
    assert!(rt; answers(rt.alloc(), &mut rule, &[1, 3, 2], &[1, 2, 1], &[1, 3, 2]));
    assert!(rt; answers(rt.alloc(), &mut rule, &[2, 1, 3], &[2, 1, 2], &[2, 1, 3]));
    assert!(rt; answers(rt.alloc(), &mut rule, &[1, 2], &[1, 1], &[1, 2]));
    assert!(rt; answers(rt.alloc(), &mut rule, &[1, 3, 2], &[1, 2, 1], &[1, 3, 2]));
    Ok(())
}

//! Known antipodes, where memory suffices.
ghost use Rattle.std.specs.Prelude.{◌≤◌, ◌<◌, length};
ghost use Rattle.index_rules.specs.Spaces.{limit_for};

use super::*;
use fqsym::{FqsymF, FqsymG};
use index_rules::{Rule, Space};
use linear_combos::{Code, Combo, Key};
use ncsf::{NcsfL, NcsfR, NcsfS};
use pbt::PbtP;
use qsym::{QsymF, QsymM};
use std::alloc::Global;
use std::test::Fail;
use wqsym::WqsymM;

// Whether the term at a place is this numerator times this code.
fn is_term(combo: &Combo, at: usize, num: i128, letters: &[u8]) -> bool
    requires { at < length combo.now.terms }
{
    let Some(code) = Code::new(letters) else {
        return false;
    };
    if combo.rank() != 1 {
        return false;
    }
    combo.num_at(at) == num && *combo.key_at(at).code(1) == code
}

// Whether a combination has these terms.
fn has_terms(combo: &Combo, terms: &[(i128, &[u8])]) -> bool {
    if combo.len() != terms.len() || combo.den() != 1 {
        return false;
    }
    for at in 0..combo.len() {
        let (num, letters) = terms[at];
        if !is_term(combo, at, num, letters) {
            return false;
        }
    }
    true
}

// Whether the antipode of an element has these terms, with a memo of what was found before.
fn turns<A: Antipode>(
    alloc: Global,
    memo: &mut Memo,
    letters: &[u8],
    terms: &[(i128, &[u8])],
) -> bool {
    let Some(code) = Code::new(letters) else {
        return false;
    };
    if !A::is_index(&code) {
        return false;
    }
    let Ok(found) = antipode::<A>(alloc, &code, memo) else {
        return false;
    };
    has_terms(&found, terms)
}

// The same by a new memo.
fn turns_alone<A: Antipode>(alloc: Global, letters: &[u8], terms: &[(i128, &[u8])]) -> bool {
    let mut memo = Memo::new(alloc);
    turns::<A>(alloc, &mut memo, letters, terms)
}

// The antipode of an element, as the lift of the rule to its component.
fn lifted<A: Antipode>(alloc: Global, memo: &mut Memo, letters: &[u8]) -> Option<Combo>
    requires { 6 ≤ limit_for A.basis }
{
    let code = Code::new(letters)?;
    if !A::is_index(&code) || A::degree(&code) > 6 {
        return None;
    }
    let element = Combo::term(alloc, 1, Key::one(code)).ok()?;
    antipode_component::<A>(alloc, &element, 1, memo).ok()
}

/// The antipode of M of 2, 1 is M of 1, 2 and M of 3, and that of F of 1, 2 is minus F of 1, 2.
#[test]
fn quasi_symmetric_functions(rt: HostRuntime) -> Result<(), Fail> {
    assert!(rt; turns_alone::<QsymM>(rt.alloc(), &[2, 1], &[(1, &[1, 2]), (1, &[3])]));
    assert!(rt; turns_alone::<QsymF>(rt.alloc(), &[1, 2], &[(-1, &[1, 2])]));
    Ok(())
}

/// The antipodes of S of 2 and of L of 2 are L of 2 and S of 2, and that of R of 3 is minus R of 1, 1, 1.
#[test]
fn noncommutative_symmetric_functions(rt: HostRuntime) -> Result<(), Fail> {
    assert!(rt; turns_alone::<NcsfS>(rt.alloc(), &[2], &[(1, &[1, 1]), (-1, &[2])]));
    assert!(rt; turns_alone::<NcsfL>(rt.alloc(), &[2], &[(1, &[1, 1]), (-1, &[2])]));
    assert!(rt; turns_alone::<NcsfR>(rt.alloc(), &[3], &[(-1, &[1, 1, 1])]));
    Ok(())
}

/// The antipode of F of 12 is F of 21. That of G of 312 is G of 1 times G of 21 and G of 12 times G of 1,
/// without G of 312 and the cube of G of 1.
#[test]
fn permutations(rt: HostRuntime) -> Result<(), Fail> {
    assert!(rt; turns_alone::<FqsymF>(rt.alloc(), &[1, 2], &[(1, &[2, 1])]));
    assert!(rt;
        turns_alone::<FqsymG>(
            rt.alloc(),
            &[3, 1, 2],
            &[
                (1, &[1, 3, 2]),
                (-1, &[2, 1, 3]),
                (1, &[2, 3, 1]),
                (-2, &[3, 1, 2])
            ],
        )
    );
    Ok(())
}

/// The antipode of M of 12 is M of 11 and of 21, and that of P of a root with a right child is P of a root
/// with a left child.
#[test]
fn packed_words_and_trees(rt: HostRuntime) -> Result<(), Fail> {
    assert!(rt; turns_alone::<WqsymM>(rt.alloc(), &[1, 2], &[(1, &[1, 1]), (1, &[2, 1])]));
    assert!(rt; turns_alone::<PbtP>(rt.alloc(), &[2, 1], &[(1, &[1, 1])]));
    Ok(())
}

/// One memo serves bases whose indices have the same codes, twice.
#[test]
fn memo_of_two_bases(rt: HostRuntime) -> Result<(), Fail> {
    let mut memo = Memo::new(rt.alloc());
    for _ in 0..2 {
        assert!(rt; turns::<QsymM>(rt.alloc(), &mut memo, &[2], &[(-1, &[2])]));
        assert!(rt; turns::<QsymF>(rt.alloc(), &mut memo, &[2], &[(1, &[1, 1])]));
        assert!(rt; turns::<QsymF>(rt.alloc(), &mut memo, &[], &[(1, &[])]));
    }
    Ok(())
}

/// The lift to the one component of an element is the antipode of that element.
#[test]
fn components(rt: HostRuntime) -> Result<(), Fail> {
    let mut memo = Memo::new(rt.alloc());
    let found = lifted::<NcsfR>(rt.alloc(), &mut memo, &[1, 1]).ok_or("no antipode")?;
    assert!(rt; has_terms(&found, &[(1, &[2])]));
    Ok(())
}

/// The rule answers as the function does.
#[test]
fn rules(rt: HostRuntime) -> Result<(), Fail> {
    let code = Code::new(&[1, 2]).ok_or("no code")?;
    assert!(rt; FqsymF::is_index(&code));
    let mut rule: ByAntipode<FqsymF> = ByAntipode::new(Memo::new(rt.alloc()));
    let found = rule.apply(rt.alloc(), &code)?;
    assert!(rt; has_terms(&found, &[(1, &[2, 1])]));
    let _memo = rule.into_memo();
    Ok(())
}

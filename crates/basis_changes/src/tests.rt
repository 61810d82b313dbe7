//! Changes of elements, where memory suffices.
ghost use Rattle.std.specs.Prelude.{◌≡◌, ◌≢◌, ◌<◌, ◌≤◌, IsTrue, length};
ghost use Rattle.basis_names.specs.Bases.{algebra_of};
ghost use Rattle.built_bases.specs.Table.{is_built};
ghost use Rattle.realisations.specs.Bases.{lies_in};
ghost use Rattle.index_rules.specs.Spaces.{limit_for};

use super::*;
use basis_names::BasisId;
use fqsym::{FqsymF, FqsymG};
use index_rules::Space;
use linear_combos::{Code, Combo, Key};
use ncsf::{NcsfL, NcsfR, NcsfS};
use pbt::PbtP;
use qsym::{QsymF, QsymM};
use std::alloc::Global;
use std::test::Fail;
use wqsym::WqsymM;

// Whether a combination has these numerators.
fn has_nums(combo: &Combo, nums: &[i128]) -> bool {
    if combo.len() != nums.len() {
        return false;
    }
    for at in 0..combo.len() {
        if combo.num_at(at) != nums[at] {
            return false;
        }
    }
    true
}

// Whether the term at a place is this word.
fn is_word(combo: &Combo, at: usize, letters: &[u8]) -> bool
    requires { at < length combo.now.terms }
{
    let Some(word) = Code::new(letters) else {
        return false;
    };
    if combo.rank() != 1 {
        return false;
    }
    combo.num_at(at) == 1 && *combo.key_at(at).code(1) == word
}

// Whether a combination is the sum of these words.
fn is_sum(combo: &Combo, words: &[&[u8]]) -> bool {
    if combo.len() != words.len() || combo.den() != 1 {
        return false;
    }
    for at in 0..combo.len() {
        if !is_word(combo, at, words[at]) {
            return false;
        }
    }
    true
}

// An element of one basis over another one.
fn changed<A: Space, B: Space>(alloc: Global, letters: &[u8]) -> Option<Combo>
    requires from { IsTrue (is_built A.basis) }
    requires to { IsTrue (is_built B.basis) }
    requires inside { IsTrue (lies_in (algebra_of A.basis) (algebra_of B.basis)) }
    requires different { A.basis ≢ B.basis }
    requires limit { 6 ≤ limit_for A.basis }
    requires limit_over { 6 ≤ limit_for B.basis }
{
    let code = Code::new(letters)?;
    if !A::is_index(&code) || A::degree(&code) > 6 {
        return None;
    }
    let element = Combo::term(alloc, 1, Key::one(code)).ok()?;
    change_between(alloc, &element, 1, A::basis(), B::basis()).ok()
}

// Whether an element of one basis has these numerators over another one.
fn changes<A: Space, B: Space>(alloc: Global, letters: &[u8], nums: &[i128]) -> bool
    requires from { IsTrue (is_built A.basis) }
    requires to { IsTrue (is_built B.basis) }
    requires inside { IsTrue (lies_in (algebra_of A.basis) (algebra_of B.basis)) }
    requires different { A.basis ≢ B.basis }
    requires limit { 6 ≤ limit_for A.basis }
    requires limit_over { 6 ≤ limit_for B.basis }
{
    let Some(combo) = changed::<A, B>(alloc, letters) else {
        return false;
    };
    has_nums(&combo, nums)
}

// Whether an element of one basis is the sum of these words over another one.
fn adds_up<A: Space, B: Space>(alloc: Global, letters: &[u8], words: &[&[u8]]) -> bool
    requires from { IsTrue (is_built A.basis) }
    requires to { IsTrue (is_built B.basis) }
    requires inside { IsTrue (lies_in (algebra_of A.basis) (algebra_of B.basis)) }
    requires different { A.basis ≢ B.basis }
    requires limit { 6 ≤ limit_for A.basis }
    requires limit_over { 6 ≤ limit_for B.basis }
{
    let Some(combo) = changed::<A, B>(alloc, letters) else {
        return false;
    };
    is_sum(&combo, words)
}

/// M of (1,2) is F of (1,2) minus F of (1,1,1), by the refinements of (1,2) with signs; and F of (1,2) is
/// M of (1,1,1) plus M of (1,2).
#[test]
fn monomial_and_fundamental(rt: HostRuntime) -> Result<(), Fail> {
    assert!(rt; changes::<QsymM, QsymF>(rt.alloc(), &[1, 2], &[-1, 1]));
    assert!(rt; changes::<QsymF, QsymM>(rt.alloc(), &[1, 2], &[1, 1]));
    Ok(())
}

/// L of (3) over S, and S of (3) over L, have the numerators 1, -1, -1, 1 at (1,1,1), (1,2), (2,1) and (3):
/// the sum over k of (-1)^k L of (k) S of (n - k) is 0 for each positive n.
#[test]
fn complete_and_elementary(rt: HostRuntime) -> Result<(), Fail> {
    assert!(rt; changes::<NcsfL, NcsfS>(rt.alloc(), &[3], &[1, -1, -1, 1]));
    assert!(rt; changes::<NcsfS, NcsfL>(rt.alloc(), &[3], &[1, -1, -1, 1]));
    Ok(())
}

/// R of (1,2) is S of (1) S of (2) minus S of (3), and L of (2) L of (1) minus L of (3).
#[test]
fn ribbons(rt: HostRuntime) -> Result<(), Fail> {
    assert!(rt; changes::<NcsfR, NcsfS>(rt.alloc(), &[1, 2], &[1, -1]));
    assert!(rt; changes::<NcsfR, NcsfL>(rt.alloc(), &[1, 2], &[1, -1]));
    Ok(())
}

/// S of (2,1) is the sum of G of the permutations of three letters with descents at 2 alone or none; L of (2)
/// is M of 21.
#[test]
fn words_by_way_of_ribbons(rt: HostRuntime) -> Result<(), Fail> {
    assert!(rt;
        adds_up::<NcsfS, FqsymG>(rt.alloc(), &[2, 1], &[&[1, 2, 3], &[1, 3, 2], &[2, 3, 1]])
    );
    assert!(rt; adds_up::<NcsfL, WqsymM>(rt.alloc(), &[2], &[&[2, 1]]));
    Ok(())
}

/// P of a root with two children is F of 132 and of 312, and F of 231 is G of its inverse.
#[test]
fn words_by_one_rule(rt: HostRuntime) -> Result<(), Fail> {
    assert!(rt; adds_up::<PbtP, FqsymF>(rt.alloc(), &[1, 2, 1], &[&[1, 3, 2], &[3, 1, 2]]));
    assert!(rt; adds_up::<FqsymF, FqsymG>(rt.alloc(), &[2, 3, 1], &[&[3, 1, 2]]));
    Ok(())
}

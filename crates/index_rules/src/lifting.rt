//! The lift of a rule to one component of a combination.
ghost use Rattle.std.specs.Prelude.{◌≡◌, ◌+◌, ◌-◌, ◌*◌, ◌*ℤ◌, ◌^◌, ◌<◌, ◌≤◌, length, unsigned_abs, IfOk, OnOk};
ghost use Rattle.realisations.specs.Combinations.{IsCanonical, norm_of};
ghost use Rattle.index_rules.specs.Lifting.{AddsReplaced, AreLifted, IsLiftedWhole};
ghost use Rattle.index_rules.specs.Lifts.{CanLift, IsLift, one_code};

use crate::replacing::replaced;
use crate::rules::Rule;
use hopf_num::{OutOfMemory, product};
use linear_combos::{Combo, ComboBuilder, Key};
use std::alloc::Global;

// The product of two numerators that has room.
fn times(left: i128, right: i128) -> i128
    requires { unsigned_abs (left *ℤ right) < 2 ^ 127 }
    ensures { result ≡ left *ℤ right }
{
    product(left, right)
}

// The denominator.
pub(crate) fn den_of(value: &Combo) -> u128
    ensures value { result ≡ value.now.den }
    ensures canonical { IsCanonical value.now.rank value.now.den value.now.terms }
{
    let _rank = value.rank();
    value.den() as u128
}

// Adds a multiple of a combination, its keys put into a component of a key.
pub(crate) fn add_replaced(
    out: &mut ComboBuilder,
    num: i128,
    key: &Key,
    component: u32,
    by: &Combo,
) -> Result<(), OutOfMemory>
    requires first { 1 ≤ component }
    requires last { component ≤ length key.now }
    requires most { length key.now + by.now.rank ≤ 4 }
    requires rank { length key.now + by.now.rank ≡ out.old.rank + 1 }
    requires room { norm_of out.old.terms + unsigned_abs num * norm_of by.now.terms < 2 ^ 127 }
    ensures { OnOk result (AddsReplaced out.old num (component - 1) key.now by.now.terms (length by.now.terms) out.new) }
{
    for at in 0..by.len() {
        let multiple = times(num, by.num_at(at));
        let codes = replaced(key, component, by.key_at(at));
        out.push(multiple, codes)?;
    }
    Ok(())
}

// Adds the answer at the code of one term, put into its key.
fn add_answer<R: Rule>(
    alloc: Global,
    out: &mut ComboBuilder,
    value: &Combo,
    component: u32,
    at: usize,
    rule: &mut R,
) -> Result<(), OutOfMemory>
    requires first { 1 ≤ component }
    requires can { CanLift (R.facts rule.old) (component - 1) value.now }
    requires canonical { IsCanonical value.now.rank value.now.den value.now.terms }
    requires in_range { at < length value.now.terms }
    requires lifted { AreLifted (one_code (R.facts rule.old) (component - 1)) (component - 1) value.now.rank value.now.terms at out.old }
    ensures lifted { OnOk result (AreLifted (one_code (R.facts rule.old) (component - 1)) (component - 1) value.now.rank value.now.terms (at + 1) out.new) }
    ensures keeps { R.facts rule.new ≡ R.facts rule.old }
{
    let key = value.key_at(at);
    let answer = rule.apply(alloc, key.code(component))?;
    add_replaced(out, value.num_at(at), key, component, &answer)
}

// Adds the answers at the codes of all terms.
fn add_answers<R: Rule>(
    alloc: Global,
    out: &mut ComboBuilder,
    value: &Combo,
    component: u32,
    rule: &mut R,
) -> Result<(), OutOfMemory>
    requires first { 1 ≤ component }
    requires can { CanLift (R.facts rule.old) (component - 1) value.now }
    requires lifted { AreLifted (one_code (R.facts rule.old) (component - 1)) (component - 1) value.now.rank value.now.terms 0 out.old }
    ensures lifted { OnOk result (AreLifted (one_code (R.facts rule.old) (component - 1)) (component - 1) value.now.rank value.now.terms (length value.now.terms) out.new) }
    ensures keeps { R.facts rule.new ≡ R.facts rule.old }
{
    for at in 0..value.len() {
        add_answer(alloc, out, value, component, at, rule)?;
    }
    Ok(())
}

// The lift to a component of the numerators of a combination, over 1.
fn lift_whole<R: Rule>(
    alloc: Global,
    value: &Combo,
    component: u32,
    rule: &mut R,
) -> Result<Combo, OutOfMemory>
    requires first { 1 ≤ component }
    requires can { CanLift (R.facts rule.old) (component - 1) value.now }
    ensures lifts { IfOk result (IsLiftedWhole (one_code (R.facts rule.old) (component - 1)) (component - 1) value.now.rank value.now) }
    ensures keeps { R.facts rule.new ≡ R.facts rule.old }
{
    let mut out = ComboBuilder::new(alloc, value.rank() - 1 + rule.rank());
    add_answers(alloc, &mut out, value, component, rule)?;
    Ok(out.finish())
}

/// The rule applied to one component, counted from 1, of every key, and the terms gathered.
///
/// Want of memory is the only error; after it the rule states what it stated before. The cost is that of
/// the rule at each term, and a sort of the terms of its answers.
pub fn lift<R: Rule>(
    alloc: Global,
    value: &Combo,
    component: u32,
    rule: &mut R,
) -> Result<Combo, OutOfMemory>
    requires first { 1 ≤ component }
    requires can { CanLift (R.facts rule.old) (component - 1) value.now }
    ensures lifts { IfOk result (IsLift (R.facts rule.old) (component - 1) value.now) }
    ensures keeps { R.facts rule.new ≡ R.facts rule.old }
{
    let whole = lift_whole(alloc, value, component, rule)?;
    Ok(whole.over(den_of(value)))
}

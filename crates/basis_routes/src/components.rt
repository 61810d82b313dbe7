//! Operations on one component of a value, and on two neighbours.
ghost use Rattle.std.specs.Prelude.{◌≡◌, ◌<◌, ◌+◌, ◌-◌, ◌≤◌, [], ◌∷◌, ℕ, IsTrue, All, length, IfOk, OnOk};
ghost use Rattle.realisations.specs.Combinations.{IsCanonical};
ghost use Rattle.realisations.specs.Readings.{antipode, applied, commute, coproduct, counit, mult};
ghost use Rattle.basis_names.specs.declared.bases.BasisId.TheVariants.{QsymM};
ghost use Rattle.hopf_laws.specs.Values.{Expands, reading_of};
ghost use Rattle.basis_routes.specs.Checks.{Passes};
ghost use Rattle.basis_routes.specs.Conversions.{linear_checks};
ghost use Rattle.basis_routes.specs.KeptTerms.{AreKept, IsKept, IsKeptWhole};
ghost use Rattle.basis_routes.specs.Lists.{doubled, replaced as with_others, without};

use crate::Value;
use crate::lifts::{antipode_over, coproduct_over, image_over, product_over};
use hopf_laws::BasisId;
use hopf_num::OutOfMemory;
use index_rules::replaced;
use linear_combos::{Combo, ComboBuilder, Key};
use std::alloc::Global;

/// The value with the coproduct of a component, counted from 1, in its place. Want of memory is the
/// only error. The cost is that of the coproducts of its codes, and of sorting their terms.
pub fn coproduct_at(alloc: Global, value: &Value, component: u32) -> Result<Value, OutOfMemory>
    requires first { 1 ≤ component }
    requires last { component ≤ length value.now.bases }
    requires most { length value.now.bases ≤ 2 }
    requires room { All Passes (linear_checks value.now) }
    ensures { IfOk result (Expands (doubled (component - 1) value.now.bases) (applied coproduct (component - 1) (reading_of value.now))) }
{
    let basis = value.basis(component);
    let combo = coproduct_over(alloc, value.combo(), component, basis)?;
    Ok(Value::over(value.bases().doubled(component), combo))
}

/// The value with the antipode of a component, counted from 1, in its place, over the same bases. Want of
/// memory is the only error. The cost is that of the antipodes of its codes, by the recursion over the
/// coproduct, once for each index that it meets, and of sorting their terms.
pub fn antipode_at(alloc: Global, value: &Value, component: u32) -> Result<Value, OutOfMemory>
    requires first { 1 ≤ component }
    requires last { component ≤ length value.now.bases }
    requires room { All Passes (linear_checks value.now) }
    ensures { IfOk result (Expands value.now.bases (applied antipode (component - 1) (reading_of value.now))) }
{
    let basis = value.basis(component);
    let combo = antipode_over(alloc, value.combo(), component, basis)?;
    Ok(Value::over(value.bases().copy(), combo))
}

/// The value with the commuting image of a component, counted from 1, in its place, over `QSym.M`. Want of
/// memory is the only error. The cost is that of the images of its codes, and of sorting their terms.
pub fn commuting_image_at(
    alloc: Global,
    value: &Value,
    component: u32,
) -> Result<Value, OutOfMemory>
    requires first { 1 ≤ component }
    requires last { component ≤ length value.now.bases }
    requires room { All Passes (linear_checks value.now) }
    ensures { IfOk result (Expands (with_others (component - 1) (QsymM ∷ []) value.now.bases) (applied commute (component - 1) (reading_of value.now))) }
{
    let basis = value.basis(component);
    let combo = image_over(alloc, value.combo(), component, basis)?;
    Ok(Value::over(value.bases().replaced(component, BasisId::QsymM), combo))
}

// Adds the term at a place without the code of a component, where this is empty.
fn keep_term(
    out: &mut ComboBuilder,
    value: &Combo,
    component: u32,
    at: usize,
) -> Result<(), OutOfMemory>
    requires first { 1 ≤ component }
    requires last { component ≤ value.now.rank }
    requires most { value.now.rank ≤ 3 }
    requires canonical { IsCanonical value.now.rank value.now.den value.now.terms }
    requires in_range { at < length value.now.terms }
    requires kept { AreKept (component - 1) value.now at out.old }
    ensures { OnOk result (AreKept (component - 1) value.now (at + 1) out.new) }
{
    let key = value.key_at(at);
    if key.code(component).len() != 0 {
        return Ok(());
    }
    let none = Key::none();
    let others = replaced(key, component, &none);
    out.push(value.num_at(at), others)
}

// Adds the terms whose code at a component is empty, without it.
fn keep_terms(out: &mut ComboBuilder, value: &Combo, component: u32) -> Result<(), OutOfMemory>
    requires first { 1 ≤ component }
    requires last { component ≤ value.now.rank }
    requires most { value.now.rank ≤ 3 }
    requires kept { AreKept (component - 1) value.now 0 out.old }
    ensures { OnOk result (AreKept (component - 1) value.now (length value.now.terms) out.new) }
{
    for at in 0..value.len() {
        keep_term(out, value, component, at)?;
    }
    Ok(())
}

// The terms whose code at a component is empty, without it, over 1.
fn kept_whole(alloc: Global, value: &Combo, component: u32) -> Result<Combo, OutOfMemory>
    requires first { 1 ≤ component }
    requires last { component ≤ value.now.rank }
    requires most { value.now.rank ≤ 3 }
    ensures { IfOk result (IsKeptWhole (component - 1) value.now) }
{
    let mut out = ComboBuilder::new(alloc, value.rank() - 1);
    keep_terms(&mut out, value, component)?;
    Ok(out.finish())
}

// The denominator.
fn den_of(value: &Combo) -> u128
    ensures value { result ≡ value.now.den }
    ensures canonical { IsCanonical value.now.rank value.now.den value.now.terms }
{
    let _rank = value.rank();
    value.den() as u128
}

// What is left of the terms by the counit of a component, in lowest terms.
fn counit_over(alloc: Global, value: &Combo, component: u32) -> Result<Combo, OutOfMemory>
    requires first { 1 ≤ component }
    requires last { component ≤ value.now.rank }
    requires most { value.now.rank ≤ 3 }
    ensures { IfOk result (IsKept (component - 1) value.now) }
{
    let whole = kept_whole(alloc, value, component)?;
    Ok(whole.over(den_of(value)))
}

/// The value with the counit of a component, counted from 1: the terms in which it is 1, without it. Want
/// of memory is the only error. The cost is one pass.
pub fn counit_at(alloc: Global, value: &Value, component: u32) -> Result<Value, OutOfMemory>
    requires first { 1 ≤ component }
    requires last { component ≤ length value.now.bases }
    ensures { IfOk result (Expands (without (component - 1) value.now.bases) (applied counit (component - 1) (reading_of value.now))) }
{
    let combo = counit_over(alloc, value.combo(), component)?;
    Ok(Value::over(value.bases().without(component), combo))
}

/// The value with the product of a component, counted from 1, and the next one in the place of both.
/// They have one basis. Want of memory is the only error. The cost is that of the products of their codes,
/// and of sorting their terms.
pub fn product_at(alloc: Global, value: &Value, component: u32) -> Result<Value, OutOfMemory>
    requires first { 1 ≤ component }
    requires last { component + 1 ≤ length value.now.bases }
    requires same { value.now.bases ≡ doubled (component - 1) (without component value.now.bases) }
    requires room { All Passes (linear_checks value.now) }
    ensures { IfOk result (Expands (without component value.now.bases) (applied mult (component - 1) (reading_of value.now))) }
{
    let basis = value.basis(component);
    let combo = product_over(alloc, value.combo(), component, basis)?;
    Ok(Value::over(value.bases().without(component + 1), combo))
}

//! Conversions of values to other bases.
ghost use Rattle.std.specs.Prelude.{◌≡◌, ◌≢◌, ◌<◌, ◌≤◌, ◌-◌, ℕ, [], ◌∷◌, min, drop, IsTrue, length, get_or, unwrap_or, All, IfOk, IfErr, Ok, Err};
ghost use Rattle.basis_names.specs.Bases.{algebra_of, limit_of};
ghost use Rattle.basis_names.specs.declared.bases.BasisId.{BasisId as BasisOf};
ghost use Rattle.realisations.specs.Bases.{lies_in};
ghost use Rattle.built_bases.specs.Table.{is_built};
ghost use Rattle.hopf_laws.specs.Bases.{AreBuilt, least_limit};
ghost use Rattle.hopf_laws.specs.Values.{Expands, IsValue, degree_of_value, reading_of};
ghost use Rattle.basis_routes.specs.Changed.{AreSameTo, CanChange, way_checks};
ghost use Rattle.basis_routes.specs.Checks.{Passes, Tests};
ghost use Rattle.basis_routes.specs.Conversions.{ConversionRow, Converts, ConvertsAt, ConvertsFrom, conversion_checks, linear_checks};
ghost use Rattle.basis_routes.specs.Joins.{LieIn};
ghost use Rattle.basis_routes.specs.Lists.{replaced};
ghost use Rattle.basis_routes.specs.Rows.{Answers, Checked, OrMemory};

use crate::places::component_of;
use crate::{Bases, Check, Place, Refusal, Value, join};
use basis_changes::change_between;
use hopf_laws::{BasisId, algebra, limit};
use hopf_num::{Need, OutOfMemory};
use std::alloc::Global;

// The value with a component over another basis, where it has room.
fn changed(alloc: Global, value: &Value, component: u32, to: BasisId) -> Result<Value, OutOfMemory>
    requires first { 1 ≤ component }
    requires change { CanChange (component - 1) to value.now }
    requires room { All Passes (linear_checks value.now) }
    ensures { IfOk result (Expands (replaced (component - 1) (to ∷ []) value.now.bases) (reading_of value.now)) }
{
    let from = value.basis(component);
    let combo = change_between(alloc, value.combo(), component, from, to)?;
    Ok(Value::over(value.bases().replaced(component, to), combo))
}

// The same, with want of memory as a refusal.
fn changed_or_refused(
    alloc: Global,
    value: &Value,
    component: u32,
    to: BasisId,
) -> Result<Value, Refusal>
    requires first { 1 ≤ component }
    requires change { CanChange (component - 1) to value.now }
    requires room { All Passes (linear_checks value.now) }
    ensures { OrMemory (Answers (replaced (component - 1) (to ∷ []) value.now.bases) (reading_of value.now)) result }
{
    match changed(alloc, value, component, to) {
        Ok(made) => Ok(made),
        Err(_) => Err(Refusal::Memory),
    }
}

// Whether the linear rule holds.
fn test_room(value: &Value) -> Result<(), Refusal>
    ensures checks { Tests (linear_checks value.now) result }
    ensures valid { IsValue value.now }
{
    let need = Need::Linear {
        norm: value.combo().norm(),
        shift: 5 * value.degree(),
    };
    Check::Room { need }.test()
}

// The value with a component over another basis, where the linear rule holds.
fn changed_with_room(
    alloc: Global,
    value: &Value,
    component: u32,
    to: BasisId,
) -> Result<Value, Refusal>
    requires first { 1 ≤ component }
    requires change { CanChange (component - 1) to value.now }
    ensures valid { IsValue value.now }
    ensures row { OrMemory (Checked (linear_checks value.now) (Answers (replaced (component - 1) (to ∷ []) value.now.bases) (reading_of value.now))) result }
{
    test_room(value)?;
    changed_or_refused(alloc, value, component, to)
}

// Whether there is a way from the basis of a component to another one, and the degree is within the limit.
fn test_way(value: &Value, component: u32, to: BasisId) -> Result<(), Refusal>
    requires first { 1 ≤ component }
    requires last { component ≤ length value.now.bases }
    ensures { Tests (way_checks (component - 1) to value.now) result }
{
    let from = value.basis(component);
    Check::Routed { from, to }.test()?;
    let bases = value.bases().replaced(component, to);
    let common = limit(algebra(join(from, to).unwrap_or(from)));
    Check::DegreeWithin {
        degree: value.degree(),
        limit: bases.least_limit().min(common),
    }
    .test()
}

// Whether a component can be converted to another basis: there is a way, there is room, and its basis lies
// in the algebra of the other one.
fn test_conversion(value: &Value, component: u32, to: BasisId) -> Result<(), Refusal>
    requires first { 1 ≤ component }
    requires last { component ≤ length value.now.bases }
    ensures { Tests (conversion_checks (component - 1) to value.now) result }
{
    test_way(value, component, to)?;
    test_room(value)?;
    Check::Contained {
        from: value.basis(component),
        to,
    }
    .test()
}

// The value with a component over another basis, where the checks of a conversion pass.
fn changed_on_the_way(
    alloc: Global,
    value: &Value,
    component: u32,
    to: BasisId,
) -> Result<Value, Refusal>
    requires first { 1 ≤ component }
    requires last { component ≤ length value.now.bases }
    requires built { IsTrue (is_built to) }
    requires different { get_or value.now.bases (component - 1) to ≢ to }
    ensures { OrMemory (Checked (conversion_checks (component - 1) to value.now) (Answers (replaced (component - 1) (to ∷ []) value.now.bases) (reading_of value.now))) result }
{
    test_conversion(value, component, to)?;
    changed_or_refused(alloc, value, component, to)
}

// The same value.
fn copied(alloc: Global, value: &Value) -> Result<Value, Refusal>
    ensures { OrMemory (λ answer. answer ≡ Ok value.now) result }
{
    match value.copy(alloc) {
        Ok(copy) => Ok(copy),
        Err(_) => Err(Refusal::Memory),
    }
}

/// The value with a component over another basis, which reads as before.
///
/// Its checks, in order: the component is there (`Rank` where it has no number and is not the only one,
/// else `Component`). Where it has the basis already, the value stays as it is. Else there is a way from
/// its basis to the other one (`NoRoute`), the degree is within the limits (`Degree`), the norm times
/// 2^(5n), n the degree, has room (`TooLarge`), and the algebra of the other basis contains that of its own
/// (`NotBuilt`). The cost is that of the changes of its codes, and of sorting their terms.
pub fn convert(alloc: Global, value: &Value, at: Place, to: BasisId) -> Result<Value, Refusal>
    requires { IsTrue (is_built to) }
    ensures { OrMemory (ConversionRow at to value.now) result }
{
    let component = component_of(at, value.rank())?;
    if value.basis(component) == to {
        return copied(alloc, value);
    }
    changed_on_the_way(alloc, value, component, to)
}

// The value with a component brought to a basis: where it has it already, it is the answer.
fn brought(alloc: Global, value: Value, component: u32, to: BasisId) -> Result<Value, Refusal>
    requires first { 1 ≤ component }
    requires last { component ≤ length value.bases }
    requires built { IsTrue (is_built to) }
    requires inside { IsTrue (lies_in (algebra_of (get_or value.bases (component - 1) to)) (algebra_of to)) }
    requires degree { degree_of_value value ≤ limit_of (algebra_of to) }
    ensures valid { IsValue value }
    ensures row { OrMemory (ConvertsAt (component - 1) to value) result }
{
    if value.bases().at(component) == to {
        return Ok(value);
    }
    changed_with_room(alloc, &value, component, to)
}

// The components from one on, counted from 0, brought to these bases.
fn converted_from(
    alloc: Global,
    value: Value,
    first: u32,
    targets: &Bases,
) -> Result<Value, Refusal>
    requires built { AreBuilt targets.now }
    requires inside { LieIn value.bases targets.now }
    requires degree { degree_of_value value ≤ least_limit targets.now }
    ensures { OrMemory (ConvertsFrom first (drop first targets.now) value) result }
{
    let mut now = value;
    for at in first..targets.len() {
        let to = targets.at(at + 1);
        let next = brought(alloc, now, at + 1, to)?;
        now = next;
    }
    Ok(now)
}

// How many of the first components are the same.
fn same_components(a: &Bases, b: &Bases) -> u32
    requires { length b.now ≡ length a.now }
    ensures at_most { result ≤ length a.now }
    ensures same { AreSameTo result a.now b.now }
    ensures other { result < length a.now → (d : BasisOf) → get_or a.now result d ≢ get_or b.now result d }
{
    for at in 0..a.len() {
        let left = a.at(at + 1);
        let right = b.at(at + 1);
        if left != right {
            return at;
        }
    }
    a.len()
}

// The components from one on, counted from 1, which has another basis, brought to these bases.
fn converted_behind(
    alloc: Global,
    value: &Value,
    component: u32,
    targets: &Bases,
) -> Result<Value, Refusal>
    requires first { 1 ≤ component }
    requires last { component ≤ length value.now.bases }
    requires built { AreBuilt targets.now }
    requires inside { LieIn value.now.bases targets.now }
    requires degree { degree_of_value value.now ≤ least_limit targets.now }
    requires different { (d : BasisOf) → get_or value.now.bases (component - 1) d ≢ get_or targets.now (component - 1) d }
    ensures { OrMemory (ConvertsFrom (component - 1) (drop (component - 1) targets.now) value.now) result }
{
    let to = targets.at(component);
    let made = changed_with_room(alloc, value, component, to)?;
    converted_from(alloc, made, component, targets)
}

/// What a value comes to over these bases, or `None` where it is over them already: then nothing is
/// copied. The components that have another basis are converted from the first to the last, each where
/// the norm times 2^(5n), n the degree, has room (`TooLarge`).
pub fn converted_operand(
    alloc: Global,
    value: &Value,
    targets: &Bases,
) -> Result<Option<Value>, Refusal>
    requires built { AreBuilt targets.now }
    requires inside { LieIn value.now.bases targets.now }
    requires degree { degree_of_value value.now ≤ least_limit targets.now }
    ensures value { IfOk result (λ made. Converts targets.now value.now (Ok (unwrap_or made value.now))) }
    ensures refusal { IfErr result (λ refusal. OrMemory (Converts targets.now value.now) (Err refusal)) }
    ensures valid { IsValue value.now }
{
    let same = same_components(value.bases(), targets);
    if same == value.rank() {
        return Ok(None);
    }
    match converted_behind(alloc, value, same + 1, targets) {
        Ok(made) => Ok(Some(made)),
        Err(refusal) => Err(refusal),
    }
}

/// The same of a value that is handed over: where it is over these bases already, it is the answer.
pub fn converted(alloc: Global, value: Value, targets: &Bases) -> Result<Value, Refusal>
    requires built { AreBuilt targets.now }
    requires inside { LieIn value.bases targets.now }
    requires degree { degree_of_value value ≤ least_limit targets.now }
    ensures { OrMemory (Converts targets.now value) result }
{
    converted_from(alloc, value, 0, targets)
}

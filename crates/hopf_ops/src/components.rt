//! Operations on one component of a value, and on two neighbours.
ghost use Rattle.std.specs.Prelude.{◌≡◌, ◌+◌, ◌-◌, ◌≤◌, [], ◌∷◌, length, Ok, Err, IfOk, IfErr};
ghost use Rattle.basis_names.specs.declared.bases.BasisId.TheVariants.{QsymM};
ghost use Rattle.realisations.specs.Readings.{applied, commute as commuting, mult as multiplied};
ghost use Rattle.hopf_laws.specs.Values.{IsValue, Expands, reading_of};
ghost use Rattle.basis_routes.specs.Checks.{Tests};
ghost use Rattle.basis_routes.specs.Conversions.{linear_checks};
ghost use Rattle.basis_routes.specs.Lists.{doubled, replaced, without};
ghost use Rattle.basis_routes.specs.Rows.{OrMemory};
ghost use Rattle.hopf_ops.specs.Answers.{AreJoined};
ghost use Rattle.hopf_ops.specs.Operations.{AntipodeRow, CommuteRow, CoproductRow, CounitRow, MultAt, MultRow};

use crate::common::made_or_given;
use basis_routes::{
    Bases, Check, Place, Refusal, Value, antipode_at, commuting_image_at, component_of,
    converted_operand, coproduct_at, counit_at, doubled_component_of, first_neighbour_of, join,
    product_at,
};
use hopf_laws::BasisId;
use hopf_num::Need;
use std::alloc::Global;

/// The coproduct of a component, whose two parts take its place.
///
/// Its checks, in order: there is room for one component more, and where the component has no number, it
/// is the only one (`Rank`); it is there (`Component`); the norm times 2^(5n), n the degree, has room (`TooLarge`).
/// The cost is that of the coproducts of its codes, and of sorting their terms.
pub fn coproduct(alloc: Global, a: &Value, at: Place) -> Result<Value, Refusal>
    ensures { OrMemory (CoproductRow at a.now) result }
{
    let component = doubled_component_of(at, a.rank())?;
    test_linear(a)?;
    match coproduct_at(alloc, a, component) {
        Ok(value) => Ok(value),
        Err(_) => Err(Refusal::Memory),
    }
}

/// The counit of a component, which goes away.
///
/// Its checks, in order: where the component has no number, it is the only one (`Rank`); it is there (`Component`).
/// The cost is one pass.
pub fn counit(alloc: Global, a: &Value, at: Place) -> Result<Value, Refusal>
    ensures { OrMemory (CounitRow at a.now) result }
{
    let component = component_of(at, a.rank())?;
    match counit_at(alloc, a, component) {
        Ok(value) => Ok(value),
        Err(_) => Err(Refusal::Memory),
    }
}

/// The antipode of a component, over the same bases.
///
/// Its checks, in order: where the component has no number, it is the only one (`Rank`); it is there (`Component`);
/// the norm times 2^(5n), n the degree, has room (`TooLarge`). The cost is that of the antipodes of its codes, by the
/// recursion over the coproduct (Takeuchi 1971), once for each index that it meets, and of sorting their terms.
pub fn antipode(alloc: Global, a: &Value, at: Place) -> Result<Value, Refusal>
    ensures { OrMemory (AntipodeRow at a.now) result }
{
    let component = component_of(at, a.rank())?;
    test_linear(a)?;
    match antipode_at(alloc, a, component) {
        Ok(value) => Ok(value),
        Err(_) => Err(Refusal::Memory),
    }
}

/// The commuting image of a component, which comes to stand over `QSym.M`.
///
/// Its checks, in order: where the component has no number, it is the only one (`Rank`); it is there (`Component`).
/// Where it is over `QSym.M` already, the answer is a copy of the value. Else the norm times 2^(5n), n the
/// degree, has room (`TooLarge`). The cost is that of the commuting images of its codes, and of sorting their
/// terms.
pub fn commute(alloc: Global, a: &Value, at: Place) -> Result<Value, Refusal>
    ensures { OrMemory (CommuteRow at a.now) result }
{
    let component = component_of(at, a.rank())?;
    if a.basis(component) == BasisId::QsymM {
        return copied(alloc, a);
    }
    commuting_image(alloc, a, component)
}

// The same value.
fn copied(alloc: Global, a: &Value) -> Result<Value, Refusal>
    ensures { OrMemory (λ answer. answer ≡ Ok a.now) result }
{
    match a.copy(alloc) {
        Ok(copy) => Ok(copy),
        Err(_) => Err(Refusal::Memory),
    }
}

// The commuting image of a component, where the linear rule holds.
fn commuting_image(alloc: Global, a: &Value, component: u32) -> Result<Value, Refusal>
    requires first { 1 ≤ component }
    requires last { component ≤ length a.now.bases }
    ensures checks { Tests (linear_checks a.now) result }
    ensures value { IfOk result (Expands (replaced (component - 1) (QsymM ∷ []) a.now.bases) (applied commuting (component - 1) (reading_of a.now))) }
{
    test_linear(a)?;
    match commuting_image_at(alloc, a, component) {
        Ok(value) => Ok(value),
        Err(_) => Err(Refusal::Memory),
    }
}

/// The product of a component and the next one, which takes the place of both.
///
/// Its checks, in order: where the component has no number, there are two (`Rank`); both are there
/// (`Component`); their bases have a join (`Mixed`); the degree is within the least limit of the bases that
/// the answer has (`Degree`). Then both are brought to the join, the first before the second: one that has
/// another basis is converted where the norm of what the value is then, times 2^(5n), n the degree, has room
/// (`TooLarge`). At last the same is tested of what the value became (`TooLarge`). The cost is that of the
/// conversions and products of its codes, and of sorting their terms; a value that has the join at both
/// components is not copied.
pub fn mult(alloc: Global, a: &Value, at: Place) -> Result<Value, Refusal>
    ensures { OrMemory (MultRow at a.now) result }
{
    let component = first_neighbour_of(at, a.rank())?;
    neighbours_multiplied(alloc, a, component)
}

// The product of a component and the next one.
fn neighbours_multiplied(alloc: Global, a: &Value, component: u32) -> Result<Value, Refusal>
    requires first { 1 ≤ component }
    requires last { component + 1 ≤ length a.now.bases }
    ensures { OrMemory (MultAt (component - 1) a.now) result }
{
    let bases = bases_with_join(a, component)?;
    product_over(alloc, a, component, &bases)
}

// The bases with the join of a component and the next one in the place of both, where it is there and
// the degree is within their limit.
fn bases_with_join(a: &Value, component: u32) -> Result<Bases, Refusal>
    requires first { 1 ≤ component }
    requires last { component + 1 ≤ length a.now.bases }
    ensures refusal { IfErr result (λ refusal. OrMemory (MultAt (component - 1) a.now) (Err refusal)) }
    ensures value { IfOk result (λ bases. AreJoined bases (component - 1) a.now) }
{
    let given = a.bases();
    let left = given.at(component);
    let right = given.at(component + 1);
    Check::Joined { left, right }.test()?;
    let kept = given.without(component + 1);
    let made = kept.replaced(component, join(left, right).unwrap_or(left));
    Check::DegreeWithin {
        degree: a.degree(),
        limit: made.least_limit(),
    }
    .test()?;
    Ok(made)
}

// The product over these bases: a component and the next one are brought to the basis that they have there.
fn product_over(alloc: Global, a: &Value, component: u32, bases: &Bases) -> Result<Value, Refusal>
    requires first { 1 ≤ component }
    requires joined { AreJoined bases.now (component - 1) a.now }
    ensures { OrMemory (MultAt (component - 1) a.now) result }
{
    let targets = bases.doubled(component);
    let made = converted_operand(alloc, a, &targets)?;
    product_of_same(alloc, made_or_given(&made, a), component)
}

// The product of a component and the next one, which have one basis.
fn product_of_same(alloc: Global, a: &Value, component: u32) -> Result<Value, Refusal>
    requires first { 1 ≤ component }
    requires last { component + 1 ≤ length a.now.bases }
    requires same { a.now.bases ≡ doubled (component - 1) (without component a.now.bases) }
    ensures checks { Tests (linear_checks a.now) result }
    ensures value { IfOk result (Expands (without component a.now.bases) (applied multiplied (component - 1) (reading_of a.now))) }
{
    test_linear(a)?;
    match product_at(alloc, a, component) {
        Ok(value) => Ok(value),
        Err(_) => Err(Refusal::Memory),
    }
}

// Whether a value has room by the linear rule.
fn test_linear(a: &Value) -> Result<(), Refusal>
    ensures checks { Tests (linear_checks a.now) result }
    ensures value { IsValue a.now }
{
    Check::Room {
        need: Need::Linear {
            norm: a.combo().norm(),
            shift: 5 * a.degree(),
        },
    }
    .test()
}

//! Tensor products, and products.
ghost use Rattle.std.specs.Prelude.{◌≡◌, ◌+◌, ◌*◌, ◌≤◌, ◌++◌, length, All, IfOk};
ghost use Rattle.realisations.specs.Readings.{product as multiply, tensor as tensor_of};
ghost use Rattle.hopf_laws.specs.Bases.{least_limit};
ghost use Rattle.hopf_laws.specs.Values.{IsValue, Expands, reading_of, degree_of_value};
ghost use Rattle.basis_routes.specs.Checks.{Passes, Tests};
ghost use Rattle.basis_routes.specs.Rows.{OrMemory};
ghost use Rattle.hopf_ops.specs.Answers.{AreTargets};
ghost use Rattle.hopf_ops.specs.Operations.{ComponentRow, ProductOver, ProductRow, TensorRow, product_room};

use crate::common::{common_bases, den_of, made_or_given, over_bases};
use crate::gather::gathered_products;
use crate::multiples::scaled_with_room;
use basis_routes::{Bases, Check, Refusal, Value, converted_operand};
use hopf_num::{Need, OutOfMemory};
use linear_combos::Combo;
use std::alloc::Global;

/// The tensor product: the components of the first value, and then those of the second.
///
/// Its checks, in order: there are at most 3 components (`Rank`), the degrees add to at most the least
/// limit of all bases (`Degree`), and the product of the denominators and that of the norms have room
/// (`TooLarge`). Nothing is converted. The cost is one step for each two terms.
pub fn tensor(alloc: Global, a: &Value, b: &Value) -> Result<Value, Refusal>
    ensures { OrMemory (TensorRow a.now b.now) result }
{
    Check::RankWithin {
        rank: a.rank() + b.rank(),
    }
    .test()?;
    let bases = a.bases().followed_by(b.bases());
    Check::DegreeWithin {
        degree: a.degree() + b.degree(),
        limit: bases.least_limit(),
    }
    .test()?;
    tensor_over(alloc, a, b, bases)
}

/// The product. One with a scalar is its multiple; other values multiply component by component.
///
/// With a scalar the only checks are that the product of the denominators and that of the norms have
/// room (`TooLarge`). Else its checks are, in order: the ranks are equal (`Rank`), each two components
/// have a join (`Mixed`), and the degrees add to at most the least limit of the joins (`Degree`). Then each
/// operand is brought to the joins, component by component, the first operand before the second: a
/// component that has another basis is converted where the norm of what the value is then, times 2^(5n), n
/// the degree, has room (`TooLarge`). At last the product of the denominators of what they became, and
/// that of their norms times 2^(5n), n the sum of the degrees, have room (`TooLarge`). The cost is that of
/// the conversions, of one product of basis elements for each two terms, and of sorting their terms; an
/// operand over the joins is not copied.
pub fn times(alloc: Global, a: &Value, b: &Value) -> Result<Value, Refusal>
    ensures { OrMemory (ProductRow a.now b.now) result }
{
    if a.rank() == 0 || b.rank() == 0 {
        return tensor_over(alloc, a, b, a.bases().followed_by(b.bases()));
    }
    product_by_components(alloc, a, b)
}

/// The product, made of the first value where the second one is a scalar. Its checks and conversions are
/// those of `times`. With a scalar it takes no memory, and the cost is one pass.
pub fn times_by(alloc: Global, a: Value, b: &Value) -> Result<Value, Refusal>
    ensures { OrMemory (ProductRow a b.now) result }
{
    let Some(factor) = b.as_fraction() else {
        return times(alloc, &a, b);
    };
    test_room(&a, b, 0)?;
    let (bases, combo) = a.into_parts();
    let combo = scaled_with_room(combo, &factor);
    Ok(Value::over(bases, combo))
}

/// The product, made of the second value where the first one is a scalar. Its checks and conversions are
/// those of `times`. With a scalar it takes no memory, and the cost is one pass.
pub fn times_onto(alloc: Global, a: &Value, b: Value) -> Result<Value, Refusal>
    ensures { OrMemory (ProductRow a.now b) result }
{
    let Some(factor) = a.as_fraction() else {
        return times(alloc, a, &b);
    };
    test_room(a, &b, 0)?;
    let (bases, combo) = b.into_parts();
    let combo = scaled_with_room(combo, &factor);
    Ok(Value::over(bases, combo))
}

// The product component by component.
fn product_by_components(alloc: Global, a: &Value, b: &Value) -> Result<Value, Refusal>
    requires some { 1 ≤ length a.now.bases }
    ensures { OrMemory (ComponentRow a.now b.now) result }
{
    let targets = common_bases(a, b, a.degree() + b.degree())?;
    product_over(alloc, a, b, &targets)
}

// The same over these bases, to which both operands are brought.
fn product_over(alloc: Global, a: &Value, b: &Value, targets: &Bases) -> Result<Value, Refusal>
    requires some { 1 ≤ length targets.now }
    requires targets { AreTargets targets.now (degree_of_value a.now + degree_of_value b.now) a.now b.now }
    ensures { OrMemory (ProductOver targets.now a.now b.now) result }
{
    let x = converted_operand(alloc, a, targets)?;
    let y = converted_operand(alloc, b, targets)?;
    product_of_same(alloc, made_or_given(&x, a), made_or_given(&y, b))
}

// The product of two values over the same bases.
fn product_of_same(alloc: Global, a: &Value, b: &Value) -> Result<Value, Refusal>
    requires some { 1 ≤ length a.now.bases }
    requires same { a.now.bases ≡ b.now.bases }
    requires degree { degree_of_value a.now + degree_of_value b.now ≤ least_limit a.now.bases }
    ensures checks { Tests (product_room (5 * (degree_of_value a.now + degree_of_value b.now)) a.now b.now) result }
    ensures value { IfOk result (Expands a.now.bases (multiply (reading_of a.now) (reading_of b.now))) }
{
    test_room(a, b, 5 * (a.degree() + b.degree()))?;
    match multiplied(alloc, a, b) {
        Ok(product) => Ok(product),
        Err(OutOfMemory) => Err(Refusal::Memory),
    }
}

// Whether the product of two values, whose norm may grow by 2^shift, has room.
fn test_room(a: &Value, b: &Value, shift: u32) -> Result<(), Refusal>
    requires { shift ≤ 120 }
    ensures checks { Tests (product_room shift a.now b.now) result }
    ensures left { IsValue a.now }
    ensures right { IsValue b.now }
{
    Check::Room {
        need: Need::Denominator {
            left: den_of(a),
            right: den_of(b),
        },
    }
    .test()?;
    Check::Room {
        need: Need::Product {
            left: a.combo().norm(),
            right: b.combo().norm(),
            shift,
        },
    }
    .test()
}

// The product of two values over the same bases, where it has room.
fn multiplied(alloc: Global, a: &Value, b: &Value) -> Result<Value, OutOfMemory>
    requires some { 1 ≤ length a.now.bases }
    requires same { a.now.bases ≡ b.now.bases }
    requires degree { degree_of_value a.now + degree_of_value b.now ≤ least_limit a.now.bases }
    requires room { All Passes (product_room (5 * (degree_of_value a.now + degree_of_value b.now)) a.now b.now) }
    ensures { IfOk result (Expands a.now.bases (multiply (reading_of a.now) (reading_of b.now))) }
{
    let product = gathered_products(alloc, a.bases(), a.combo(), b.combo())?;
    Ok(Value::over(a.bases().copy(), product.over(den_of(a) * den_of(b))))
}

// The tensor product over the bases of both values.
pub(crate) fn tensor_over(
    alloc: Global,
    a: &Value,
    b: &Value,
    bases: Bases,
) -> Result<Value, Refusal>
    requires bases { bases ≡ a.now.bases ++ b.now.bases }
    requires rank { length a.now.bases + length b.now.bases ≤ 3 }
    requires degree { degree_of_value a.now + degree_of_value b.now ≤ least_limit (a.now.bases ++ b.now.bases) }
    ensures checks { Tests (product_room 0 a.now b.now) result }
    ensures value { IfOk result (Expands (a.now.bases ++ b.now.bases) (tensor_of (reading_of a.now) (reading_of b.now))) }
{
    over_bases(bases, Combo::tensor(alloc, a.combo(), b.combo()))
}

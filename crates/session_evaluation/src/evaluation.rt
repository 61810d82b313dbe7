//! The value of an expression.
ghost use Rattle.std.specs.Prelude.{true, ◌≡◌, ◌⊎◌, ◌^◌, ◌<◌, ◌+◌, ◌∷◌, length, drop, if◌then◌else◌, IsTrue, Ok};
ghost use Rattle.built_bases.specs.Table.{is_built};
ghost use Rattle.built_forms.specs.Forms.{is_built_map};
ghost use Rattle.basis_routes.specs.Conversions.{ConversionRow};
ghost use Rattle.session_grammar.specs.declared.expression.Expr.{size-Expr};
ghost use Rattle.session_evaluation.specs.Built.{IsBuilt};
ghost use Rattle.session_evaluation.specs.Evaluation.{told, OrMemory, number_value, Allows, Operates, Signs, Evaluates, Compares};
ghost use Rattle.hopf_ops.specs.Operations.{EqualRow};
ghost use Rattle.session_evaluation.specs.EvaluationSteps.{held, answer_of, is_minus, steps_of};
ghost use Rattle.session_evaluation.specs.Functions.{place_of, LinearRow};

use crate::elements::value_of_element;
use crate::{EvaluationRefusal, Names};
use basis_names::BasisId;
use basis_routes::{Place as ValuePlace, Refusal, Value, convert};
use hopf_num::OutOfMemory;
use hopf_ops::{
    Operator, add, add_to, antipode, commute, coproduct, counit, divide, divided, equal, mult,
    negate, negated, sub, sub_from, tensor, times, times_by, times_onto,
};
use linear_combos::{Combo, Key};
use session_grammar::{Expr, Factor, Place, Signed};
use session_tokens::{Linear, Name};
use std::alloc::Global;

// A value with at most so many terms is added to another one by a search for each of them.
const FEW_TERMS: usize = 16;

// A value to operate on: that of a name, which stays, or one that was made for the operation.
#[derive(Drop)]
enum Operand<'a> {
    Known(&'a Value),
    Made(Value),
}

impl<'a> Operand<'a> {
    // The value.
    fn value(&self) -> &Value
        ensures { result.now ≡ held self.now }
    {
        match self {
            Operand::Known(value) => value,
            Operand::Made(value) => value,
        }
    }

    // The value for keeps: that of a name is copied.
    fn owned(self, alloc: Global) -> Result<Value, EvaluationRefusal>
        ensures { OrMemory (λ answer. answer ≡ Ok (held self.entry)) result }
    {
        match self {
            Operand::Known(value) => match value.copy(alloc) {
                Ok(value) => Ok(value),
                Err(OutOfMemory) => Err(EvaluationRefusal::Value(Refusal::Memory)),
            },
            Operand::Made(value) => Ok(value),
        }
    }
}

// The refusal of an operation is that of the statement.
fn told_of(value: Result<Value, Refusal>) -> Result<Value, EvaluationRefusal>
    ensures { result ≡ told value }
{
    match value {
        Ok(value) => Ok(value),
        Err(refusal) => Err(EvaluationRefusal::Value(refusal)),
    }
}

// The scalar that a number is.
fn value_of_number(alloc: Global, number: u128) -> Result<Value, EvaluationRefusal>
    requires { number < 2 ^ 127 }
    ensures { OrMemory (λ answer. answer ≡ Ok (number_value number)) result }
{
    match Combo::term(alloc, number as i128, Key::none()) {
        Ok(combo) => Ok(Value::from_combo(&[], combo)),
        Err(OutOfMemory) => Err(EvaluationRefusal::Value(Refusal::Memory)),
    }
}

// The refusal of a name without a value.
fn unknown(alloc: Global, name: &Name) -> EvaluationRefusal
    ensures { (result ≡ EvaluationRefusal.Value Refusal.Memory) ⊎ (result ≡ EvaluationRefusal.UnknownName name.now) }
{
    match Name::new(alloc, name.as_slice()) {
        Ok(name) => EvaluationRefusal::UnknownName(name),
        Err(OutOfMemory) => EvaluationRefusal::Value(Refusal::Memory),
    }
}

// The value of a name.
fn named<'a>(alloc: Global, names: &'a Names, name: &Name) -> Result<Operand<'a>, EvaluationRefusal>
    ensures { OrMemory (Evaluates names.now (Expr.Named name.now)) (answer_of result) }
{
    match names.get(name.as_slice()) {
        Some(value) => Ok(Operand::Known(value)),
        None => Err(unknown(alloc, name)),
    }
}

// A copy of the value of a name.
fn value_of_name(alloc: Global, names: &Names, name: &Name) -> Result<Value, EvaluationRefusal>
    ensures { OrMemory (Evaluates names.now (Expr.Named name.now)) result }
{
    let value = named(alloc, names, name)?;
    value.owned(alloc)
}

// One operation on two values that stay.
fn operate_between(
    alloc: Global,
    operator: Operator,
    a: &Value,
    b: &Value,
) -> Result<Value, EvaluationRefusal>
    ensures { OrMemory (Operates operator a.now b.now) result }
{
    told_of(match operator {
        Operator::Plus => add(alloc, a, b),
        Operator::Minus => sub(alloc, a, b),
        Operator::Hash => tensor(alloc, a, b),
        Operator::Times => times(alloc, a, b),
        Operator::Over => divide(alloc, a, b),
    })
}

// The same where the first value was made for it: sums, multiples and quotients are made of it.
fn operate_from(
    alloc: Global,
    operator: Operator,
    a: Value,
    b: &Value,
) -> Result<Value, EvaluationRefusal>
    ensures { OrMemory (Operates operator a b.now) result }
{
    told_of(match operator {
        Operator::Plus => add_to(alloc, a, b),
        Operator::Minus => sub_from(alloc, a, b),
        Operator::Hash => tensor(alloc, &a, b),
        Operator::Times => times_by(alloc, a, b),
        Operator::Over => divided(a, b),
    })
}

// Whether what the operation answers is the first value with few changes, or a multiple of it: then
// to change a copy of it is far less work than to operate on a value that stays.
fn is_changed_copy(operator: Operator, b: &Value) -> bool {
    match operator {
        Operator::Plus | Operator::Minus => b.combo().len() <= FEW_TERMS,
        Operator::Hash => false,
        Operator::Times | Operator::Over => b.rank() == 0,
    }
}

// The same on an operand and a value that stays.
fn operate_on(
    alloc: Global,
    operator: Operator,
    a: Operand<'_>,
    b: &Value,
) -> Result<Value, EvaluationRefusal>
    ensures { OrMemory (Operates operator (held a.entry) b.now) result }
{
    if is_changed_copy(operator, b) {
        let first = a.owned(alloc)?;
        return operate_from(alloc, operator, first, b);
    }
    match a {
        Operand::Known(a) => operate_between(alloc, operator, a, b),
        Operand::Made(a) => operate_from(alloc, operator, a, b),
    }
}

// One operation. A multiple of the second value is made of it, or of a copy.
fn operate(
    alloc: Global,
    operator: Operator,
    a: Operand<'_>,
    b: Operand<'_>,
) -> Result<Value, EvaluationRefusal>
    ensures { OrMemory (Operates operator (held a.entry) (held b.entry)) result }
{
    if operator == Operator::Times && a.value().rank() == 0 {
        let second = b.owned(alloc)?;
        return told_of(times_onto(alloc, a.value(), second));
    }
    operate_on(alloc, operator, a, b.value())
}

// The value of an operand with the other sign.
fn opposite(alloc: Global, a: Operand<'_>) -> Result<Value, EvaluationRefusal>
    ensures { OrMemory (Signs true (Ok (held a.entry))) result }
{
    match a {
        Operand::Known(a) => told_of(negate(alloc, a)),
        Operand::Made(a) => Ok(negated(a)),
    }
}

// The first operand, with its sign.
fn with_sign<'a>(
    alloc: Global,
    sign: Operator,
    a: Operand<'a>,
) -> Result<Operand<'a>, EvaluationRefusal>
    ensures { OrMemory (Signs (is_minus sign) (Ok (held a.entry))) (answer_of result) }
{
    match sign {
        Operator::Minus => {
            let value = opposite(alloc, a)?;
            Ok(Operand::Made(value))
        }
        _ => Ok(a),
    }
}

// The component that an expression names.
fn component(at: Place) -> ValuePlace
    ensures { result ≡ place_of at }
{
    match at {
        Place::Only => ValuePlace::Only,
        Place::At(number) => ValuePlace::At(number),
    }
}

// A value with a component over another basis.
fn converted(alloc: Global, to: BasisId, a: &Value, at: Place) -> Result<Value, EvaluationRefusal>
    requires { IsTrue (is_built to) }
    ensures { OrMemory (Allows (ConversionRow (place_of at) to a.now)) result }
{
    told_of(convert(alloc, a, component(at), to))
}

// A function on a component of a value.
fn mapped(alloc: Global, map: Linear, a: &Value, at: Place) -> Result<Value, EvaluationRefusal>
    requires { IsTrue (is_built_map map) }
    ensures { OrMemory (Allows (LinearRow map (place_of at) a.now)) result }
{
    match map {
        Linear::Coproduct => told_of(coproduct(alloc, a, component(at))),
        Linear::Antipode => told_of(antipode(alloc, a, component(at))),
        Linear::Counit => told_of(counit(alloc, a, component(at))),
        Linear::Mult => told_of(mult(alloc, a, component(at))),
        Linear::Commute => told_of(commute(alloc, a, component(at))),
    }
}

// How many operands a sum, a tensor product or a product has: each is a step of its evaluation.
fn count_of_steps(x: &Expr) -> usize
    ensures { result ≡ length (steps_of x.now) }
{
    match x {
        Expr::Sum(parts) => parts.as_slice().len(),
        Expr::Tensor(parts) => parts.as_slice().len(),
        Expr::Product(parts) => parts.as_slice().len(),
        _ => 0,
    }
}

// A part of a sum, and its sign as the operation before it.
fn step_of_part(part: &Signed) -> (Operator, &Expr)
    ensures operator { result.0 ≡ (if part.now.minus then Operator.Minus else Operator.Plus) }
    ensures operand { result.1.now ≡ part.now.value }
{
    let operator = if part.minus {
        Operator::Minus
    } else {
        Operator::Plus
    };
    (operator, &part.value)
}

// A factor or a divisor, and the operation before it.
fn step_of_factor(part: &Factor) -> (Operator, &Expr)
    ensures operator { result.0 ≡ (if part.now.divides then Operator.Over else Operator.Times) }
    ensures operand { result.1.now ≡ part.now.value }
{
    let operator = if part.divides {
        Operator::Over
    } else {
        Operator::Times
    };
    (operator, &part.value)
}

// An operand, and the operation before it; only in a sum the first one's counts, as its sign.
fn step_at(x: &Expr, i: usize) -> (Operator, &Expr)
    requires { i < length (steps_of x.now) }
    ensures step { drop i (steps_of x.now) ≡ (result.0, result.1.now) ∷ drop (i + 1) (steps_of x.now) }
    ensures smaller { size-Expr result.1.now < size-Expr x.now }
{
    match x {
        Expr::Sum(parts) => step_of_part(&parts.as_slice()[i]),
        Expr::Tensor(parts) => (Operator::Hash, &parts.as_slice()[i]),
        Expr::Product(parts) => step_of_factor(&parts.as_slice()[i]),
        _ => unreachable!(),
    }
}

// An expression, evaluated as an operand. The value of a name is not copied.
#[cycle(evaluation)]
fn operand_of<'a>(
    alloc: Global,
    names: &'a Names,
    x: &Expr,
) -> Result<Operand<'a>, EvaluationRefusal>
    requires { IsBuilt x.now }
    ensures { OrMemory (Evaluates names.now x.now) (answer_of result) }
{
    if let Expr::Named(name) = x {
        return named(alloc, names, name);
    }
    let value = value_of(alloc, names, x)?;
    Ok(Operand::Made(value))
}

// The value of a conversion.
#[cycle(evaluation)]
fn value_of_conversion(
    alloc: Global,
    names: &Names,
    to: BasisId,
    x: &Expr,
    at: Place,
) -> Result<Value, EvaluationRefusal>
    requires basis { IsTrue (is_built to) }
    requires built { IsBuilt x.now }
    ensures { OrMemory (Evaluates names.now (Expr.Convert to x.now at)) result }
{
    let operand = operand_of(alloc, names, x)?;
    converted(alloc, to, operand.value(), at)
}

// The value of a function on a component.
#[cycle(evaluation)]
fn value_of_function(
    alloc: Global,
    names: &Names,
    map: Linear,
    x: &Expr,
    at: Place,
) -> Result<Value, EvaluationRefusal>
    requires map { IsTrue (is_built_map map) }
    requires built { IsBuilt x.now }
    ensures { OrMemory (Evaluates names.now (Expr.Apply map x.now at)) result }
{
    let operand = operand_of(alloc, names, x)?;
    mapped(alloc, map, operand.value(), at)
}

// The value of a sum, a tensor product or a product.
#[cycle(evaluation)]
fn value_of_operation(alloc: Global, names: &Names, x: &Expr) -> Result<Value, EvaluationRefusal>
    requires built { IsBuilt x.now }
    requires some { 0 < length (steps_of x.now) }
    ensures { OrMemory (Evaluates names.now x.now) result }
{
    let (sign, y) = step_at(x, 0);
    let first = operand_of(alloc, names, y)?;
    let mut value = with_sign(alloc, sign, first)?;
    for i in 1..count_of_steps(x) {
        let (operator, y) = step_at(x, i);
        let next = operand_of(alloc, names, y)?;
        value = Operand::Made(operate(alloc, operator, value, next)?);
    }
    value.owned(alloc)
}

/// The value of an expression, or the refusal that comes first. Operands are evaluated from left to
/// right, each just before its operation. The value of a name is copied only where
/// no operation follows, or where one is made by a few changes of the copy.
#[cycle(evaluation)]
pub fn value_of(alloc: Global, names: &Names, x: &Expr) -> Result<Value, EvaluationRefusal>
    requires { IsBuilt x.now }
    ensures { OrMemory (Evaluates names.now x.now) result }
{
    match x {
        Expr::Number(number) => value_of_number(alloc, *number),
        Expr::Element(basis, items) => value_of_element(alloc, *basis, items.as_slice()),
        Expr::Named(name) => value_of_name(alloc, names, name),
        Expr::Convert { to, value, at } => {
            value_of_conversion(alloc, names, *to, value.get(), *at)
        }
        Expr::Apply { map, value, at } => value_of_function(alloc, names, *map, value.get(), *at),
        Expr::Sum(_) | Expr::Tensor(_) | Expr::Product(_) => value_of_operation(alloc, names, x),
        Expr::Pair(_, _) | Expr::Along { .. } => unreachable!(),
    }
}

// Whether two values are equal.
fn compared(alloc: Global, a: &Value, b: &Value) -> Result<bool, EvaluationRefusal>
    ensures { OrMemory (Allows (EqualRow a.now b.now)) result }
{
    match equal(alloc, a, b) {
        Ok(same) => Ok(same),
        Err(refusal) => Err(EvaluationRefusal::Value(refusal)),
    }
}

/// Whether two expressions come to values that are equal, or the refusal that comes first: that of the
/// first expression, of the second, or of the comparison. Values of names are not copied.
pub fn are_equal(
    alloc: Global,
    names: &Names,
    x: &Expr,
    y: &Expr,
) -> Result<bool, EvaluationRefusal>
    requires first { IsBuilt x.now }
    requires second { IsBuilt y.now }
    ensures { OrMemory (Compares names.now x.now y.now) result }
{
    let first = operand_of(alloc, names, x)?;
    let second = operand_of(alloc, names, y)?;
    compared(alloc, first.value(), second.value())
}

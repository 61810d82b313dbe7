//! Sums and differences.
ghost use Rattle.std.specs.Prelude.{◌≡◌, ℕ, ◌+◌, ◌*◌, ◌^◌, ◌<◌, pos, neg_ℤ, max, if◌then◌else◌, true, false, length, unsigned_abs, IfOk, OnOk};
ghost use Rattle.std.specs.Int.{◌∣◌};
ghost use Rattle.hopf_num.specs.Divisors.{IsLcm};
ghost use Rattle.hopf_num.specs.Room.{sum_rule};
ghost use Rattle.realisations.specs.Combinations.{IsCanonical, norm_of};
ghost use Rattle.linear_combos.specs.Faults.{TestsRoom};
ghost use Rattle.hopf_laws.specs.Values.{Expands, reading_of, degree_of_value};
ghost use Rattle.basis_routes.specs.Checks.{Tests};
ghost use Rattle.basis_routes.specs.Rows.{OrMemory};
ghost use Rattle.hopf_ops.specs.Answers.{AreTargets, IsSumOrDifference};
ghost use Rattle.hopf_ops.specs.Gathering.{AddsMultiple};
ghost use Rattle.hopf_ops.specs.Operations.{SumRow, SumOver, sum_room};
ghost use Rattle.hopf_ops.specs.ReadingOperations.{sum_or_difference};

use crate::common::{common_bases_of_sum, den_of, made_or_given, over_bases};
use crate::gather::times;
use basis_routes::{Bases, Refusal, Value, converted, converted_operand};
use hopf_num::{Need, OutOfMemory};
use linear_combos::{Combo, ComboFault};
use std::alloc::Global;

// So many terms are put among others one by one, and more are merged with them.
const FEW_TERMS: usize = 16;

/// The sum.
///
/// Its checks, in order: the ranks are equal (`Rank`), each two components have a join (`Mixed`), and the
/// greater degree is within the least limit of the joins (`Degree`). Then each operand is brought to the
/// joins, component by component, the first operand before the second: a component that has another basis
/// is converted where the norm of what the value is then, times 2^(5n), n the degree, has room
/// (`TooLarge`). At last the least common multiple of the denominators of what they became, and the sum
/// of the norms over it, have room (`TooLarge`). The cost is that of the conversions, and one merge; an
/// operand over the joins is not copied.
pub fn add(alloc: Global, a: &Value, b: &Value) -> Result<Value, Refusal>
    ensures { OrMemory (SumRow false a.now b.now) result }
{
    sum_or_difference(alloc, a, b, false)
}

/// The difference. Its checks, conversions and cost are those of the sum.
pub fn sub(alloc: Global, a: &Value, b: &Value) -> Result<Value, Refusal>
    ensures { OrMemory (SumRow true a.now b.now) result }
{
    sum_or_difference(alloc, a, b, true)
}

/// The sum, made of the first operand. Its checks and conversions are those of `add`.
///
/// Where the denominator of the first, over the joins, is a multiple of that of the second, and the second
/// has few terms, each of these costs a search among those of the first, and the sum comes to lowest terms
/// as by `Combo::over`. Else the cost is that of `add`.
pub fn add_to(alloc: Global, a: Value, b: &Value) -> Result<Value, Refusal>
    ensures { OrMemory (SumRow false a b.now) result }
{
    grown(alloc, a, b, false)
}

/// The difference, made of the first operand as `add_to` makes the sum.
pub fn sub_from(alloc: Global, a: Value, b: &Value) -> Result<Value, Refusal>
    ensures { OrMemory (SumRow true a b.now) result }
{
    grown(alloc, a, b, true)
}

// The difference, or else the sum.
fn sum_or_difference(alloc: Global, a: &Value, b: &Value, minus: bool) -> Result<Value, Refusal>
    ensures { OrMemory (SumRow minus a.now b.now) result }
{
    let targets = common_bases_of_sum(a, b)?;
    sum_over(alloc, a, b, &targets, minus)
}

// The same over these bases, to which both operands are brought.
fn sum_over(
    alloc: Global,
    a: &Value,
    b: &Value,
    targets: &Bases,
    minus: bool,
) -> Result<Value, Refusal>
    requires { AreTargets targets.now (max (degree_of_value a.now) (degree_of_value b.now)) a.now b.now }
    ensures { OrMemory (SumOver minus targets.now a.now b.now) result }
{
    let x = converted_operand(alloc, a, targets)?;
    let y = converted_operand(alloc, b, targets)?;
    sum_of_same(alloc, made_or_given(&x, a), made_or_given(&y, b), minus)
}

// The difference, or else the sum, made of the first operand.
fn grown(alloc: Global, a: Value, b: &Value, minus: bool) -> Result<Value, Refusal>
    ensures { OrMemory (SumRow minus a b.now) result }
{
    let targets = common_bases_of_sum(&a, b)?;
    grown_over(alloc, a, b, &targets, minus)
}

// The same over these bases, to which both operands are brought.
fn grown_over(
    alloc: Global,
    a: Value,
    b: &Value,
    targets: &Bases,
    minus: bool,
) -> Result<Value, Refusal>
    requires { AreTargets targets.now (max (degree_of_value a) (degree_of_value b.now)) a b.now }
    ensures { OrMemory (SumOver minus targets.now a b.now) result }
{
    let x = converted(alloc, a, targets)?;
    let y = converted_operand(alloc, b, targets)?;
    grown_of_same(alloc, x, made_or_given(&y, b), minus)
}

// The same of two values over the same bases.
fn grown_of_same(alloc: Global, a: Value, b: &Value, minus: bool) -> Result<Value, Refusal>
    requires same { a.bases ≡ b.now.bases }
    ensures checks { (m : ℕ) → IsLcm a.combination.den b.now.combination.den m → Tests (sum_room m a b.now) result }
    ensures value { IfOk result (Expands a.bases (sum_or_difference minus (reading_of a) (reading_of b.now))) }
{
    if b.combo().len() > FEW_TERMS {
        return sum_of_same(alloc, &a, b, minus);
    }
    if den_of(&a) % den_of(b) != 0 {
        return sum_of_same(alloc, &a, b, minus);
    }
    with_terms(a, b, minus)
}

// The same over the denominator of the first operand: the terms of the second one are put among its own.
fn with_terms(a: Value, b: &Value, minus: bool) -> Result<Value, Refusal>
    requires same { a.bases ≡ b.now.bases }
    requires multiple { b.now.combination.den ∣ a.combination.den }
    ensures checks { (m : ℕ) → IsLcm a.combination.den b.now.combination.den m → Tests (sum_room m a b.now) result }
    ensures value { IfOk result (Expands a.bases (sum_or_difference minus (reading_of a) (reading_of b.now))) }
{
    let factor = den_of(&a) / den_of(b);
    let (bases, combo) = a.into_parts();
    over_bases(bases, with_terms_of(combo, b.combo(), factor, minus))
}

// The same of combinations, where the denominator of the first is that of the second times a factor.
fn with_terms_of(a: Combo, b: &Combo, factor: u128, minus: bool) -> Result<Combo, ComboFault>
    requires rank { a.rank ≡ b.now.rank }
    requires factor { a.den ≡ factor * b.now.den }
    requires canonical { IsCanonical a.rank a.den a.terms }
    ensures sum { IfOk result (IsSumOrDifference minus a b.now) }
    ensures room { (m : ℕ) → IsLcm a.den b.now.den m
        → TestsRoom (sum_rule m a.den b.now.den (norm_of a.terms) (norm_of b.now.terms)) result }
{
    let need = Need::Sum {
        left: a.norm(),
        left_factor: 1,
        right: b.norm(),
        right_factor: factor,
    };
    if need.test().is_err() {
        return Err(ComboFault::TooLarge(need));
    }
    let den = a.den() as u128;
    let mut sum = a.numerators();
    if add_multiple(&mut sum, with_sign(factor, minus), b).is_err() {
        return Err(ComboFault::Memory);
    }
    Ok(sum.over(den))
}

// Adds a multiple of a combination, both over 1, where there is room. Each term costs a search among
// those of the first, and a new one moves the terms behind it.
fn add_multiple(out: &mut Combo, num: i128, by: &Combo) -> Result<(), OutOfMemory>
    requires rank { by.now.rank ≡ out.old.rank }
    requires whole { out.old.den ≡ 1 }
    requires room { norm_of out.old.terms + unsigned_abs num * norm_of by.now.terms < 2 ^ 127 }
    ensures { OnOk result (AddsMultiple out.old num by.now.terms (length by.now.terms) out.new) }
{
    for at in 0..by.len() {
        let multiple = times(num, by.num_at(at));
        out.add_with_room(multiple, *by.key_at(at))?;
    }
    Ok(())
}

// A factor, or else its negation.
fn with_sign(factor: u128, minus: bool) -> i128
    requires { factor < 2 ^ 127 }
    ensures { result ≡ (if minus then (neg_ℤ (pos factor)) else (pos factor)) }
{
    let factor = factor as i128;
    if minus { -factor } else { factor }
}

// The difference, or else the sum, of two values over the same bases.
fn sum_of_same(alloc: Global, a: &Value, b: &Value, minus: bool) -> Result<Value, Refusal>
    requires same { a.now.bases ≡ b.now.bases }
    ensures checks { (m : ℕ) → IsLcm a.now.combination.den b.now.combination.den m → Tests (sum_room m a.now b.now) result }
    ensures value { IfOk result (Expands a.now.bases (sum_or_difference minus (reading_of a.now) (reading_of b.now))) }
{
    over_bases(
        a.bases().copy(),
        plus_or_minus(alloc, a.combo(), b.combo(), minus),
    )
}

// The same of combinations.
fn plus_or_minus(alloc: Global, a: &Combo, b: &Combo, minus: bool) -> Result<Combo, ComboFault>
    requires rank { a.now.rank ≡ b.now.rank }
    ensures sum { IfOk result (IsSumOrDifference minus a.now b.now) }
    ensures room { (m : ℕ) → IsLcm a.now.den b.now.den m
        → TestsRoom (sum_rule m a.now.den b.now.den (norm_of a.now.terms) (norm_of b.now.terms)) result }
{
    if minus {
        Combo::minus(alloc, a, b)
    } else {
        Combo::plus(alloc, a, b)
    }
}

//! What operations on two values have in common.
ghost use Rattle.std.specs.Prelude.{◌≡◌, ◌≤◌, [], ◌∷◌, max, IfOk, unwrap_or};
ghost use Rattle.hopf_laws.specs.Values.{IsValue, degree_of_value};
ghost use Rattle.basis_routes.specs.declared.checks.Check.TheVariants.{DegreeWithin};
ghost use Rattle.basis_routes.specs.Checks.{Tests};
ghost use Rattle.basis_routes.specs.Joins.{joined};
ghost use Rattle.hopf_ops.specs.Operations.{common_checks};
ghost use Rattle.hopf_ops.specs.Answers.{AreTargets, IsOver, IsAnswerOver};

use basis_routes::{Bases, Check, Refusal, Value};
use linear_combos::{Combo, ComboFault};

// The joined bases of two values of one rank, where a degree is within their limit.
pub(crate) fn common_bases(a: &Value, b: &Value, degree: u32) -> Result<Bases, Refusal>
    ensures checks { Tests (common_checks degree a.now b.now) result }
    ensures value { IfOk result (λ bases. bases ≡ joined a.now.bases b.now.bases) }
    ensures targets { IfOk result (λ bases. AreTargets bases degree a.now b.now) }
{
    Check::SameRank {
        left: a.rank(),
        right: b.rank(),
    }
    .test()?;
    let bases = a.bases().joined(b.bases())?;
    Check::DegreeWithin {
        degree,
        limit: bases.least_limit(),
    }
    .test()?;
    Ok(bases)
}

// The same where the degree is the greater one of both.
pub(crate) fn common_bases_of_sum(a: &Value, b: &Value) -> Result<Bases, Refusal>
    ensures checks { Tests (common_checks (max (degree_of_value a.now) (degree_of_value b.now)) a.now b.now) result }
    ensures value { IfOk result (λ bases. bases ≡ joined a.now.bases b.now.bases) }
    ensures targets { IfOk result (λ bases. AreTargets bases (max (degree_of_value a.now) (degree_of_value b.now)) a.now b.now) }
{
    Check::SameRank {
        left: a.rank(),
        right: b.rank(),
    }
    .test()?;
    let bases = a.bases().joined(b.bases())?;
    test_degree_of_sum(a, b, bases.least_limit())?;
    Ok(bases)
}

// Whether the greater degree is within a limit. The keys are looked at only where the limit is below
// that of one of the values.
fn test_degree_of_sum(a: &Value, b: &Value, limit: u32) -> Result<(), Refusal>
    ensures { Tests (DegreeWithin (max (degree_of_value a.now) (degree_of_value b.now)) limit ∷ []) result }
{
    if a.bases().least_limit().max(b.bases().least_limit()) <= limit {
        return Ok(());
    }
    Check::DegreeWithin {
        degree: a.degree().max(b.degree()),
        limit,
    }
    .test()
}

// The combination over these bases, or the refusal that its fault is.
pub(crate) fn over_bases(bases: Bases, combo: Result<Combo, ComboFault>) -> Result<Value, Refusal>
    requires { IfOk combo (IsOver bases) }
    ensures answer { IsAnswerOver bases combo result }
    ensures value { IfOk result IsValue }
{
    match combo {
        Ok(combo) => Ok(Value::over(bases, combo)),
        Err(ComboFault::TooLarge(need)) => Err(Refusal::TooLarge(need)),
        Err(ComboFault::Memory) => Err(Refusal::Memory),
    }
}

// What was made of a value, or the value itself where nothing was.
pub(crate) fn made_or_given<'a>(made: &'a Option<Value>, given: &'a Value) -> &'a Value
    ensures { result.now ≡ unwrap_or made.now given.now }
{
    match made {
        Some(value) => value,
        None => given,
    }
}

// The denominator of a value, from 1 to 2^127 - 1.
pub(crate) fn den_of(a: &Value) -> u128
    ensures den { result ≡ a.now.combination.den }
    ensures positive { 1 ≤ result }
    ensures value { IsValue a.now }
{
    a.combo().den() as u128
}

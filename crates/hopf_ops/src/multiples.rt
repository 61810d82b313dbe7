//! Negation, and the quotient by a scalar.
ghost use Rattle.std.specs.Prelude.{◌≡◌, ◌*◌, ◌^◌, ◌<◌, negsuc, unsigned_abs};
ghost use Rattle.realisations.specs.Combinations.{IsCanonical, norm_of};
ghost use Rattle.linear_combos.specs.Combos.{IsMultiple};
ghost use Rattle.hopf_laws.specs.Values.{Expands, reading_of};
ghost use Rattle.basis_routes.specs.Rows.{OrMemory};
ghost use Rattle.hopf_ops.specs.Operations.{NegationRow, QuotientRow};
ghost use Rattle.hopf_ops.specs.ReadingOperations.{negative};

use crate::common::over_bases;
use basis_routes::{Check, Refusal, Value};
use hopf_num::Fraction;
use linear_combos::Combo;
use std::alloc::Global;

/// The value with the other sign. Want of memory is its only refusal. The cost is one pass.
pub fn negate(alloc: Global, a: &Value) -> Result<Value, Refusal>
    ensures { OrMemory (NegationRow a.now) result }
{
    over_bases(
        a.bases().copy(),
        Combo::scale(alloc, a.combo(), &minus_one()),
    )
}

/// The value with the other sign, made of the value itself. It takes no memory. The cost is one pass.
pub fn negated(a: Value) -> Value
    ensures { Expands a.bases (negative (reading_of a)) result }
{
    let (bases, combo) = a.into_parts();
    let combo = scaled_with_room(combo, &minus_one());
    Value::over(bases, combo)
}

// The multiple of a combination, made of the combination itself, where it has room.
pub(crate) fn scaled_with_room(a: Combo, by: &Fraction) -> Combo
    requires dens { a.den * by.now.den < 2 ^ 127 }
    requires norms { norm_of a.terms * unsigned_abs by.now.num < 2 ^ 127 }
    ensures multiple { IsMultiple a by.now result }
    ensures canonical { IsCanonical result.rank result.den result.terms }
{
    match a.scaled(by) {
        Ok(multiple) => multiple,
        Err(_) => unreachable!(),
    }
}

// The fraction -1.
fn minus_one() -> Fraction
    ensures { result ≡ record { num = negsuc 0; den = 1 } }
{
    Fraction::new(-1, 1).unwrap()
}

/// The quotient by a scalar.
///
/// Its checks, in order: the divisor is a scalar (`NotScalar`) and not 0 (`ZeroDivisor`), and the
/// product with its reciprocal has room (`TooLarge`). The cost is one pass.
pub fn divide(alloc: Global, a: &Value, b: &Value) -> Result<Value, Refusal>
    ensures { OrMemory (QuotientRow a.now b.now) result }
{
    let Some(divisor) = b.as_fraction() else {
        return Err(Refusal::NotScalar);
    };
    Check::Nonzero { num: divisor.num() }.test()?;
    over_bases(
        a.bases().copy(),
        Combo::scale(alloc, a.combo(), &divisor.recip()),
    )
}

/// The quotient by a scalar, made of the first value. Its checks are those of `divide`. It takes no
/// memory.
pub fn divided(a: Value, b: &Value) -> Result<Value, Refusal>
    ensures { OrMemory (QuotientRow a b.now) result }
{
    let Some(divisor) = b.as_fraction() else {
        return Err(Refusal::NotScalar);
    };
    Check::Nonzero { num: divisor.num() }.test()?;
    let (bases, combo) = a.into_parts();
    over_bases(bases, combo.scaled(&divisor.recip()))
}

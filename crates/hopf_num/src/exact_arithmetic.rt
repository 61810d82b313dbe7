//! Exact arithmetic at any integer type.
ghost use Rattle.std.specs.Prelude.{◌≡◌, ◌↔◌, ◌<ℤ◌, ◌*ℤ◌, ◌+ℤ◌, pos, neg_ℤ, int_div, IsSome, IfSome};

use num_traits::{CheckedAdd, CheckedMul, Integral, Num, Signed};

// The sum of two products, where the type has both and their sum.
pub(crate) fn sum_of_products<T: CheckedMul + CheckedAdd>(
    left: &T,
    left_factor: &T,
    right: &T,
    right_factor: &T,
) -> Option<T>
    ensures exact { IfSome result (λ sum. T.value sum
        ≡ T.value left.now *ℤ T.value left_factor.now +ℤ T.value right.now *ℤ T.value right_factor.now) }
    ensures some { IsSome result ↔ (T.fits (T.value left.now *ℤ T.value left_factor.now)
        × T.fits (T.value right.now *ℤ T.value right_factor.now)
        × T.fits (T.value left.now *ℤ T.value left_factor.now +ℤ T.value right.now *ℤ T.value right_factor.now)) }
{
    let first = left.checked_mul(left_factor)?;
    let second = right.checked_mul(right_factor)?;
    first.checked_add(&second)
}

/// The product of two numbers whose product the type has.
pub fn product<T: Num + Integral>(left: T, right: T) -> T
    requires { T.fits (T.value left *ℤ T.value right) }
    ensures { T.value result ≡ T.value left *ℤ T.value right }
{
    left * right
}

/// The quotient by a positive number, rounded towards 0.
pub fn quotient<T: Num + Integral>(num: T, divisor: T) -> T
    requires num { T.fits (T.value num) }
    requires divisor { T.fits (T.value divisor) }
    requires positive { pos 0 <ℤ T.value divisor }
    ensures { T.value result ≡ int_div (T.value num) (T.value divisor) }
{
    num / divisor
}

// The number with the other sign, where the type has it.
pub(crate) fn negation<T: Signed + Integral>(num: T) -> T
    requires { T.fits (neg_ℤ (T.value num)) }
    ensures { T.value result ≡ neg_ℤ (T.value num) }
{
    -num
}

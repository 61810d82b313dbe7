//! Common divisors and common multiples.
ghost use Rattle.std.specs.Prelude.{◌↔◌, ◌^◌, ◌<◌, ◌≤◌, unsigned_abs, IsSome, IfSome};
ghost use Rattle.std.specs.Int.{IsGcd};
ghost use Rattle.hopf_num.specs.Divisors.{IsLcm};
ghost use Rattle.hopf_num.specs.Room.{HasRoom};
ghost use Rattle.hopf_num.specs.declared.room.Need.TheVariants.{CommonDenominator};

use crate::fits;
use num_traits::{PrimInt, Unsigned};

/// The greatest common divisor. That of 0 and 0 is 0.
pub fn gcd(a: u128, b: u128) -> u128
    ensures { IsGcd a b result }
{
    euclid(a, b)
}

/// The least common multiple, or `None` exactly where it is 2^127 or more.
pub fn lcm(a: u128, b: u128) -> Option<u128>
    requires left { 1 ≤ a }
    requires right { 1 ≤ b }
    ensures least { IfSome result (λ m. IsLcm a b m) }
    ensures small { IfSome result (λ m. m < 2 ^ 127) }
    ensures room { IsSome result ↔ HasRoom (CommonDenominator a b) }
{
    let part = a / gcd(a, b);
    if fits(part, b, 0) {
        Some(part * b)
    } else {
        None
    }
}

// The greatest common divisor, by Euclid's algorithm (Elements, book VII): in as many steps as the
// smaller number has digits, to a constant factor.
fn euclid<T: PrimInt + Unsigned>(a: T, b: T) -> T
    requires a { T.fits (T.value a) }
    requires b { T.fits (T.value b) }
    ensures { IsGcd (unsigned_abs (T.value a)) (unsigned_abs (T.value b)) (unsigned_abs (T.value result)) }
{
    let mut x = a;
    let mut y = b;
    'steps: while !y.is_zero() {
        let rest = x % y;
        x = y;
        y = rest;
    }
    x
}

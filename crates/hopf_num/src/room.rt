//! The test of room.
ghost use Rattle.std.specs.Prelude.{◌≡◌, ◌+◌, ◌*◌, ◌^◌, ◌<◌, ◌≤◌, ◌↔◌, [], ◌∷◌, IsTrue};
ghost use Rattle.hopf_num.specs.Room.{ProductFits, HasRoom, IsNeed, TestsRoom};

use crate::exact_arithmetic::sum_of_products;
use crate::lcm;

/// What a refused call needed room for: its numbers, with which the stated inequality fails.
///
/// Norms and denominators of what is kept are below 2^127; one that a caller gave may be 2^127, the
/// absolute value of the least `i128`. Shifts are at most 120.
#[derive(Clone, Copy, Debug, PartialEq, Eq)]
pub enum Need {
    /// `left * right < 2^127`, for the product of two denominators.
    Denominator {
        left: u128,
        right: u128,
    },
    /// The least common multiple of two denominators is below 2^127.
    CommonDenominator {
        left: u128,
        right: u128,
    },
    /// `norm * 2^shift < 2^127`, for a linear map of a value of this norm.
    Linear {
        norm: u128,
        shift: u32,
    },
    /// `left * right * 2^shift < 2^127`, for the product of two values of these norms.
    Product {
        left: u128,
        right: u128,
        shift: u32,
    },
    /// `left * left_factor + right * right_factor < 2^127`, for the sum of two values of these
    /// norms, brought to a common denominator by the factors.
    Sum {
        left: u128,
        left_factor: u128,
        right: u128,
        right_factor: u128,
    },
}

impl Need {
    /// Whether what is needed has room: `TooLarge` with the need exactly where it has none.
    ///
    /// The denominators of a `CommonDenominator` are at least 1, and shifts at most 120.
    pub fn test(self) -> Result<(), NumFault>
        requires { IsNeed self }
        ensures { TestsRoom (self ∷ []) result }
    {
        if self.has_room() {
            Ok(())
        } else {
            Err(NumFault::TooLarge(self))
        }
    }

    fn has_room(self) -> bool
        requires { IsNeed self }
        ensures { IsTrue result ↔ HasRoom self }
    {
        match self {
            Need::Denominator { left, right } => fits(left, right, 0),
            Need::CommonDenominator { left, right } => lcm(left, right).is_some(),
            Need::Linear { norm, shift } => fits(norm, 1, shift),
            Need::Product { left, right, shift } => fits(left, right, shift),
            Need::Sum {
                left,
                left_factor,
                right,
                right_factor,
            } => sum_fits(left, left_factor, right, right_factor),
        }
    }
}

/// Why a fraction was not made.
#[derive(Clone, Copy, Debug, PartialEq, Eq)]
pub enum NumFault {
    /// A number would pass its room. The need tells the numbers.
    TooLarge(Need),
    /// A denominator is 0.
    ZeroDivisor,
}

/// Whether `left * right * 2^shift < 2^127`. It takes no memory.
pub fn fits(left: u128, right: u128, shift: u32) -> bool
    requires { shift ≤ 120 }
    ensures { IsTrue result ↔ ProductFits left right shift }
{
    match left.checked_mul(right) {
        Some(product) => product < 1 << (127 - shift),
        None => false,
    }
}

// Whether `left * left_factor + right * right_factor < 2^127`.
fn sum_fits(left: u128, left_factor: u128, right: u128, right_factor: u128) -> bool
    ensures { IsTrue result ↔ (left * left_factor + right * right_factor < 2 ^ 127) }
{
    let Some(sum) = sum_of_products(&left, &left_factor, &right, &right_factor) else {
        return false;
    };
    fits(sum, 1, 0)
}

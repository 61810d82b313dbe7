//! The numbers of the calculator: exact fractions, the room that numbers have, and want of memory.
//!
//! Every number that is kept lies below 2^127 in absolute value. Whether an answer has that room is
//! tested before it is made, and a refusal carries the numbers that it was about. No call of this
//! crate takes memory.
#![tactic(auto)]

mod decimal;
mod divisors;
mod exact_arithmetic;
mod fraction;
mod memory;
mod room;

pub use divisors::{gcd, lcm};
pub use exact_arithmetic::{product, quotient};
pub use fraction::Fraction;
pub use memory::OutOfMemory;
pub use room::{Need, NumFault, fits};

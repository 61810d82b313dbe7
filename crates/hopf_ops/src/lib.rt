//! Operations on values, each with its row of checks and conversions.
//!
//! Its `specs/` say for each operation what it checks of its operands and which it converts, in order, over
//! which bases its answer stands and what the answer reads as.
#![tactic(auto)]

mod common;
mod components;
mod equality;
mod gather;
mod laws;
mod multiples;
mod operator;
mod products;
mod sums;

pub use components::{antipode, commute, coproduct, counit, mult};
pub use equality::equal;
pub use laws::{convolution_law, row_law};
pub use multiples::{divide, divided, negate, negated};
pub use operator::Operator;
pub use products::{tensor, times, times_by, times_onto};
pub use sums::{add, add_to, sub, sub_from};

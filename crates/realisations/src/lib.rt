//! What basis elements mean: definitions that stand on no code, and laws of them.
//!
//! Its `specs/` say where a basis element occurs in its ordered alphabet, what a combination and
//! operations on combinations read at points, which codes are indices, what a combination in canonical
//! form is, and what the rule of an operation answers.
#![tactic(auto)]

mod laws;

pub use laws::{
    bilinearity_law, descent_law, gathering_law, linearity_law, operation_law, pattern_law,
    points_law,
};

//! Separation: when a component of a combination lies in a coarser algebra of words, and the two words
//! that show that it does not; conversions into that algebra; and when two readings are equal.
#![tactic(auto)]

mod finite_tests;
mod laws;

pub use finite_tests::{first_word_law, part_law, return_law, scan_law, twin_law};
pub use laws::{
    class_basis_law, conversion_law, equality_law, pair_law, route_law, same_pair_law,
    separation_law, upward_law,
};

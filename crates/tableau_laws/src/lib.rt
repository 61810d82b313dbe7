//! Knuth's theorem on insertion tableaux, and the codes of standard tableaux.
#![tactic(auto)]

mod laws;

pub use laws::{code_law, knuth_law, restriction_law};

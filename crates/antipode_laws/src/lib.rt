//! Laws of the antipode.
#![tactic(auto)]

mod laws;

pub use laws::{antipode_law, recursion_answer_law, recursion_law};

//! The text of a value, read as a statement, is that value again.
#![tactic(auto)]

mod laws;

pub use laws::read_back_law;

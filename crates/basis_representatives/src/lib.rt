//! The representatives of the ten bases, and that combinations over any of them are determined by what
//! they read there.
#![tactic(auto)]

mod laws;

pub use laws::{class_laws, representatives_law, uniqueness_law};

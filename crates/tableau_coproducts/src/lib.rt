//! The coproduct of a standard tableau, by a rule on indices.
//!
//! The rule lists pairs of indices; its law says that their tensors read as the coproduct at all pairs
//! of points, and bounds them.
#![tactic(auto)]

mod laws;

pub use laws::tableau_coproduct_law;

//! Coproducts of basis elements, by rules on indices.
//!
//! Each rule lists pairs of indices; its law says that their tensors read as the coproduct at all pairs
//! of points, and bounds them.
#![tactic(auto)]

mod laws;

pub use laws::{answer_law, monomial_coproduct_law, packed_coproduct_law, value_coproduct_law};

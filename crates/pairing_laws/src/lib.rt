//! Laws of the pairings of readings: adjointness of product and coproduct, and dual bases.
#![tactic(auto)]

mod laws;

pub use laws::{
    adjointness_law, agreement_law, bilinearity_law, combinations_law, duality_law, evaluation_law,
    size_law, symmetry_law,
};

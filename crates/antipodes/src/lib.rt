//! The antipode of the bases of combinatorial Hopf algebras, by recursion over the coproduct, as a rule on
//! indices.
#![tactic(auto)]

mod bases;
mod changing;
mod laws;
mod memo;
mod recursion;
mod subtracting;
#[cfg(test)]
mod tests;

pub use bases::Antipode;
pub use changing::{ByAntipode, antipode_component};
pub use laws::antipodes_exist_law;
pub use memo::Memo;
pub use recursion::antipode;

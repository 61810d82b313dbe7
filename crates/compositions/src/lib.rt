//! Compositions: the indices of the bases of QSym and NCSF, and the rules on them.
#![tactic(auto)]

mod composition;
mod conjugation;
mod coproducts;
mod fronts;
mod growth;
mod laws;
mod listing;
mod products;
mod refinement;

pub use composition::Composition;
pub use laws::existence_law;
pub use listing::list;
pub use products::quasi_shuffle;

//! Inclusions of one algebra of words in another one, as rules on indices: an element of a basis is the
//! sum of the elements of a finer basis whose indices lie over its index.
#![tactic(auto)]

mod descents;
mod inclusions;
mod laws;
mod permutations;
mod ribbons;
mod standard_tableaux;
mod table;
#[cfg(test)]
mod tests;
mod trees;

pub use descents::{descents_of_tableau, descents_of_tree};
pub use inclusions::{ByInclusion, InclusionIn};
pub use laws::inclusions_exist_law;

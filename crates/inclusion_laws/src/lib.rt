//! Inclusions: the elements of a basis of words over a finer one, by functions from the indices of the
//! finer basis to those of the coarser one. And commuting images, over the bases of `QSym`.
#![tactic(auto)]

mod commuting_laws;
mod laws;

pub use commuting_laws::{fundamental_image_law, packed_image_law};
pub use laws::{
    determining_law, inverse_law, ribbon_law, standardisation_law, tableau_law, tree_law,
};

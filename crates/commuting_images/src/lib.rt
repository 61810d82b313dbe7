//! Commuting images of basis elements: what they become in QSym once the letters of words commute.
#![tactic(auto)]

mod by_permutations;
mod images;
mod laws;
mod noncommutative;
#[cfg(test)]
mod noncommutative_tests;
mod quasisymmetric;
#[cfg(test)]
mod tests;
mod words;

pub use images::{ByImage, CommutingImage, image_component};
pub use laws::images_exist_law;

//! Permutations, the indices of the bases of FQSym, and the words that lead to them.
#![tactic(auto)]

mod convolving;
mod interleaving;
mod letters;
mod listing;
mod permutation;
mod words;

pub use convolving::convolution;
pub use interleaving::{shifted_shuffle, shuffles};
pub use letters::{greatest_letter, raise_letters_past};
pub use listing::list;
pub use permutation::Permutation;
pub use words::{descent_composition, evaluation, standardise};

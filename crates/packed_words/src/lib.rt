//! Packed words: the indices of the basis of WQSym, and the words that lead to them.
#![tactic(auto)]

mod cutting;
mod listing;
mod merging;
mod packed;
mod packing;

pub use listing::list;
pub use merging::merge_all;
pub use packed::PackedWord;
pub use packing::pack;

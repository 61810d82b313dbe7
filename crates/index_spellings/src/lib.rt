//! How the indices of bases are spelled: from the items of a list to a code, and from a code to its text.
#![tactic(auto)]

mod brackets;
mod indices;
mod laws;
mod lists;
mod rows;
mod texts;
mod trees;

pub use indices::{begins_bad_list, index_in};
pub use laws::{element_text_law, spelling_law};
pub use texts::{append_index, append_list};

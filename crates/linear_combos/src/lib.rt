//! Linear combinations of basis elements: codes of indices, keys, and sums of terms in canonical
//! form.
#![tactic(auto)]

mod builder;
mod code;
mod codes;
mod combo;
mod gather;
mod key;
mod merge;
mod tensor;
mod terms;
mod unreduced;

pub use builder::ComboBuilder;
pub use code::Code;
pub use codes::Codes;
pub use combo::{Combo, ComboFault};
pub use key::Key;

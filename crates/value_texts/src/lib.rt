//! The texts of basis elements and of values.
#![tactic(auto)]

mod elements;
mod laws;
mod values;

pub use elements::print_index;
pub use laws::text_law;
pub use values::print_value;

//! Which bases are built: a line for each.
#![tactic(auto)]

mod table;

pub use table::is_built_basis;

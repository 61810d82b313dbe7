//! The free Schensted algebra.
#![tactic(auto)]

mod classes;
mod codes;
mod cutting;
mod factors;
mod laws;
mod recording;
#[cfg(test)]
mod tests;

pub use laws::{fsym_coproducts_exist_law, fsym_products_exist_law};
pub use recording::FsymS;

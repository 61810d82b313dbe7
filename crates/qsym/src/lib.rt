//! The quasi-symmetric functions in two bases, the monomial and the fundamental ones.
#![tactic(auto)]

mod cutting;
mod fundamental;
mod laws;
mod monomial;
#[cfg(test)]
mod tests;

pub use fundamental::QsymF;
pub use laws::{qsym_changes_exist_law, qsym_coproducts_exist_law, qsym_products_exist_law};
pub use monomial::QsymM;

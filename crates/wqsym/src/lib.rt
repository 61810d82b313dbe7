//! The algebra of packed words in its basis M.
#![tactic(auto)]

mod laws;
mod monomial;
mod packed;
#[cfg(test)]
mod tests;

pub use laws::{wqsym_coproducts_exist_law, wqsym_products_exist_law};
pub use monomial::WqsymM;

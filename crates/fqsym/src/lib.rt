//! The free quasi-symmetric functions in two bases, both indexed by permutations.
#![tactic(auto)]

mod cutting;
mod dual;
mod fundamental;
mod laws;
mod permutations;
#[cfg(test)]
mod tests;

pub use cutting::cuts_by_values;
pub use dual::FqsymG;
pub use fundamental::FqsymF;
pub use laws::{fqsym_changes_exist_law, fqsym_coproducts_exist_law, fqsym_products_exist_law};

//! The algebra of planar binary trees.
#![tactic(auto)]

mod laws;
mod shapes;
#[cfg(test)]
mod tests;
mod trees;

pub use laws::{pbt_coproducts_exist_law, pbt_products_exist_law};
pub use trees::PbtP;

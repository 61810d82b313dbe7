//! Laws of binary trees: codes, products and search trees.
#![tactic(auto)]

mod laws;

pub use laws::{code_law, product_law, search_tree_law};

//! Binary trees: the indices of the basis of PBT, and the rules on them.
#![tactic(auto)]

mod codes;
mod decreasing;
mod listing;
mod products;
mod searching;
mod tree;
mod upper_parts;

pub use codes::is_code_of_tree;
pub use decreasing::decreasing_shape;
pub use listing::list;
pub use products::over;
pub use searching::sylvester_insert;
pub use tree::Tree;

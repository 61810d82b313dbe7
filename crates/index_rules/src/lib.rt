//! Rules on the indices of a basis: bases as traits with laws in the contracts of their functions, and
//! the lift of a rule to one component of a combination.
#![tactic(auto)]

mod changing;
mod laws;
mod lifting;
mod multiplying;
mod products;
mod replacing;
mod rules;
mod spaces;
mod sums;

pub use changing::{ByChange, ByCoproduct, change_component, coproduct_component};
pub use laws::{
    change_reads_law, class_law, coproduct_norm_law, lift_exists_law, lifted_indices_law,
    operation_reads_law, product_reads_law, products_by_change_exist_law, products_exist_law,
    same_answer_law,
};
pub use lifting::lift;
pub use multiplying::multiply_components;
pub use products::product_by_change;
pub use replacing::replaced;
pub use rules::Rule;
pub use spaces::{Algebra, Change, ClassSpace, Coalgebra, Space};
pub use sums::{Signs, signed_sum};

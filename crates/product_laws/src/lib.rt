//! Products of basis elements, by rules on indices.
//!
//! Each rule lists indices; its law says that their elements read as the product at all points, and
//! bounds them.
#![tactic(auto)]

mod laws;

pub use laws::{
    adding_law, answer_law, class_law, classes_law, concatenation_law, convolution_law,
    existence_law, filter_law, fundamental_law, gathering_law, merge_law, ribbon_law, shuffle_law,
    sum_law, tableau_law, tree_law, tree_roots_law,
};

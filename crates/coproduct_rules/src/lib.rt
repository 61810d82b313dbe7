//! Coproducts and counits of basis elements, by rules on indices, at any component of a key.
#![tactic(auto)]

mod laws;

pub use laws::{
    compatibility_law, complete_coproduct_law, component_counit_law, component_law,
    component_mult_law, counit_law, elementary_coproduct_law, few_pairs_law,
    fundamental_coproduct_law, later_component_law, mult_law, place_coproduct_law,
    ribbon_coproduct_law, tree_coproduct_law, upper_parts_law,
};

//! Changes of basis inside one algebra, and what rules on indices make of a component of a combination.
#![tactic(auto)]

mod laws;

pub use laws::{
    change_lift_law, component_readings_law, coproduct_existence_law, few_law, ncsf_changes_law,
    ncsf_existence_law, operation_lift_law, qsym_changes_law, qsym_existence_law, replaced_law,
};

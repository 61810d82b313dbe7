//! Values over lists of bases: what they are made of, their joins, and the rules on their indices.
#![tactic(auto)]

mod bases;
mod checks;
mod components;
mod conversions;
mod joins;
mod laws;
mod lifts;
mod place;
mod places;
mod refusal;
mod rules;
mod value;

pub use bases::Bases;
pub use checks::Check;
pub use components::{antipode_at, commuting_image_at, coproduct_at, counit_at, product_at};
pub use conversions::{convert, converted, converted_operand};
pub use joins::join;
pub use laws::conversion_law;
pub use place::Place;
pub use places::{component_of, doubled_component_of, first_neighbour_of};
pub use refusal::Refusal;
pub use rules::{antipode_of, coproduct_of, is_index, list_of, product_of};
pub use value::Value;

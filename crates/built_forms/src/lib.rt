//! Which forms of the language are built, and the look for one that is not.
#![tactic(auto)]

mod form;
mod scan;

pub use form::{Form, is_built_form};
pub use scan::begins_unbuilt;

//! The statement that a text is, or what is refused in it first.
#![tactic(auto)]

mod depth;
mod fault;
mod laws;
mod parsing;
mod sights;

pub use fault::GrammarFault;
pub use laws::parse_law;
pub use parsing::parse;

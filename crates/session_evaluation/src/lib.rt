//! What an expression means, what it comes to, and its evaluator.
#![tactic(auto)]

mod elements;
mod evaluation;
mod laws;
mod names;
mod refusal;

pub use evaluation::{are_equal, value_of};
pub use hopf_ops::Operator;
pub use laws::meaning_law;
pub use names::Names;
pub use refusal::EvaluationRefusal;

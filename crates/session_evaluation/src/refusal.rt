//! Why an expression has no value.

use basis_routes::Refusal;
use session_tokens::Name;

/// Why an expression has no value.
#[derive(Drop)]
pub enum EvaluationRefusal {
    /// A name has no value: no assignment to it was accepted before.
    UnknownName(Name),
    /// An operation has no value.
    Value(Refusal),
}

//! The operations between two operands of an expression.

/// An operation between two operands.
#[derive(Clone, Copy, Debug, PartialEq, Eq)]
pub enum Operator {
    /// The sum, `+`.
    Plus,
    /// The difference, `-`.
    Minus,
    /// The tensor product, `#`.
    Hash,
    /// The product, `*`.
    Times,
    /// The quotient by a scalar, `/`.
    Over,
}

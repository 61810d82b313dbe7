//! Which component of a value an operation acts on.

/// A component of a value.
#[derive(Clone, Copy, Debug, PartialEq, Eq)]
pub enum Place {
    /// The only one.
    Only,
    /// The one with this number, counted from 1.
    At(u32),
}

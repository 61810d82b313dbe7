//! Words: spreads of their letters, and the words whose front and back have given patterns.
#![tactic(auto)]

mod laws;

pub use laws::{convolution_law, merge_law, pattern_law};

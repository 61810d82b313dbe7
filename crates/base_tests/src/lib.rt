//! Tests of the crates of numbers, bytes in and bytes out, over several of their calls.
#![tactic(auto)]

#[cfg(test)]
mod numbers;
#[cfg(test)]
mod streams;

//! Tests of the crates of the language, over several of their calls.
#![tactic(auto)]

#[cfg(test)]
mod lexemes;
#[cfg(test)]
mod texts;

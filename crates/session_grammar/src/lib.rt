//! The grammar of statements, and the parser.
//!
//! A call that takes memory fails by want of it, and by nothing else. What lexemes are is said by
//! `specs/Grammar` and `specs/Parses`; the rest of `specs/` serves private parts.
#![tactic(auto)]

mod expression;
mod laws;
mod level;
mod parsed;
mod parser;
mod state;

pub use expression::{BasisList, Expr, Factor, Place, Signed, Statement};
pub use laws::statement_law;
pub use parsed::{Parsed, statement_of};

//! The tokens of a text, and what they stand for.
//!
//! Places count bytes from 1. A call that takes memory fails by want of it, and by nothing else.
#![tactic(auto)]

mod laws;
mod lexeme;
mod lexeme_list;
mod name;
mod token;
mod tokenizer;

pub use laws::token_law;
pub use lexeme::{Lexeme, Linear, NUMBER_LIMIT, lexeme_of};
pub use lexeme_list::lexemes_of;
pub use name::Name;
pub use token::{Kind, Token, Tokens};
pub use tokenizer::{is_blank, tokens};

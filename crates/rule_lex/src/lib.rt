//! The tokens of rule texts: names, parameters, session variables, numbers, texts, and the words and signs of the
//! language.
//!
//! A text is cut at its longest tokens, and a text that has none is refused where its longest front ends that begins
//! one which has. Which bytes spell which token is a relation in `specs/Tokens`.
#![tactic(auto)]

mod bytes;
mod error;
mod front;
mod laws;
mod lexer;
mod numbers;
mod quoted;
mod signs;
mod skip;
mod token;
mod words;

pub use error::LexError;
pub use laws::{one_list_of_tokens, one_place_of_refusal, tokens_in_order};
pub use lexer::lex;
pub use token::{Symbol, Token, Tokens, Value};

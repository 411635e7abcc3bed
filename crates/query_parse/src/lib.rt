//! The texts of queries, read by their grammar.
//!
//! A text is cut into tokens, and the tokens are read from one to the next. What spells no query is refused at the
//! first token with which the tokens so far begin none. Which texts spell which queries is a relation between bytes and
//! queries, which stands in `grid_model`.
#![tactic(auto)]

mod error;
mod front;
mod laws;
mod lexer;
mod literals;
mod parser;
mod query;
mod reading;
mod signs;
mod stage;
mod token;
mod words;

pub use error::QueryError;
pub use laws::{
    each_query_has_a_text, each_text_is_read, one_place_of_refusal, one_query,
    same_query_of_same_tokens,
};
pub use query::read_query;

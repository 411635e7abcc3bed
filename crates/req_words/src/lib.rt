//! The words of a request line, read and written.
#![tactic(auto)]

mod line;
mod quoting;
mod reading;

pub use line::{WordError, words};
pub use quoting::{is_bare, push_word, quote};
pub use reading::{is_bare_byte, is_word_byte};

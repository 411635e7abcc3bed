//! The request that the words of a line make, and the body that they promise.
#![tactic(auto)]

mod choices;
mod count;
mod error;
mod laws;
mod number;
mod reading;
mod rows;
mod verbs;
mod ways;
mod words;

pub use count::body_count;
pub use error::ReadError;
pub use laws::{all_words_are_read, numbers_are_decimal, words_are_read_once};
pub use reading::read_request;

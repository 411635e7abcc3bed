//! Wildcards: whether a text of bytes matches a pattern.
//!
//! Both kinds of pattern are matched by one search, which takes no memory and at most (n + 2) (m + 1) steps for n bytes
//! of text and m of pattern.
#![tactic(auto)]

mod laws;
mod like;
mod piece;
mod search;

pub use laws::{one_star, plain_patterns, two_patterns};
pub use like::{like_sql, like_star};
pub use piece::Piece;

//! The rows that a listing shows of what is at a path.
#![tactic(auto)]

mod children;
mod listing;
mod rows;

pub use listing::list_rows;
pub use rows::{digest_text, number_text, path_text};

//! The requests of an input, with their bodies.
#![tactic(auto)]

mod head;
mod laws;
mod line_reader;
mod lines;
mod requests;

pub use laws::requests_are_read_once;
pub use requests::{Heard, Next, ReadError, Requests};

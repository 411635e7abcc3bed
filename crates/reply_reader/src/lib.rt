//! Whole replies, read from their lines.
//!
//! Each reader is exact: it answers what some front of the rest spells and the place behind it, or that none does, with
//! the length of the longest front of the text that could go on to one.
#![tactic(auto)]

mod bad_replicas;
mod causes;
mod ends;
mod failures;
mod fields;
mod heads;
mod laws;
mod lines;
mod mark_fields;
mod parts;
mod reading;
mod word_fields;

pub use laws::written_replies_are_spelled;
pub use reading::read_reply;

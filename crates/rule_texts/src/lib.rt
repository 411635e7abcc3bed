//! Each text is read as rules and as a call, or there is a place at which it is refused.
#![tactic(auto)]

mod laws;

pub use laws::{each_call_is_read, each_text_of_rules_is_read};

//! The rules that a text sets, and those that a catalogue keeps as they are printed.
#![tactic(auto)]

mod keeping;
mod laws;
mod setting;

pub use keeping::kept_rules;
pub use laws::what_is_set_is_kept;
pub use setting::rules_from;

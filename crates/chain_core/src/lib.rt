//! Chains of rules as a machine of frames: what a call of rules does, one action at a time, with one flat list of the
//! recoveries that a stop would have done.
#![tactic(auto)]

mod actions;
mod base;
mod begins;
mod calls;
mod events;
mod frames;
mod kinds;
mod machine;
mod moves;
mod services;
mod stack;

pub use actions::{Action, Event, Outcome, Start};
pub use base::RuleBase;
pub use frames::Frames;

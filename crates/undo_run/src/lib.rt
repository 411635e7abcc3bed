//! The recoveries of a command that was stopped, run when its catalogue is opened again: from the last of its list to the first, each under
//! a note, so that a stop leaves those that are still to be run.
#![tactic(auto)]

mod lists;
mod passing;
mod stopping;
mod undoing;

pub use passing::undo_one;
pub use stopping::stopped;
pub use undoing::undo_all;

//! How a run is opened over a catalogue: a command that was stopped is told and undone, one commit begins the run, and the rest of the
//! report is told.
#![tactic(auto)]

mod beginning;
mod error;
mod opening;
mod preparing;
mod telling;

pub use error::OpenError;
pub use opening::open_run;

//! The top call: `run` does what the words of the program say, over devices that are known by their traits alone.
#![tactic(auto)]

mod running;
mod service;
mod serving;
mod status;
mod sweeping;
mod words;

pub use running::run;
pub use status::Status;

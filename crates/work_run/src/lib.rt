//! An operation or a query with its points, run for a request, from the rules before it to the end of its reply.
#![tactic(auto)]

mod after;
mod asking;
mod before;
mod between;
mod calling;
mod concluding;
mod ending;
mod getting;
mod naming;
mod noting;
mod operating;
mod pointing;
mod ruled;
mod showing;
mod starting;
mod working;

pub use asking::ask;
pub use operating::operate;

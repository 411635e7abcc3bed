//! Calls of micro-services for a command, over the catalogue, the stores and the sink: each leaves the command noted while its deed
//! runs, so that a stop leaves it where the definitions have it.
#![tactic(auto)]

mod changing;
mod command;
mod copies;
mod copy_deeds;
mod copying;
mod copying_objects;
mod ending;
mod looking;
mod marking;
mod noting;
mod replicating;
mod running;
mod summing;

pub use changing::change;
pub use command::Command;
pub use copies::{copy_call, copy_calls, copy_marks, copy_passeds};
pub use copying_objects::copy_object;
pub use ending::Ending;
pub use looking::{Looked, look_at_all, numbers_of};
pub use noting::{announce, note};
pub use replicating::repl;
pub use running::run_call;
pub use summing::chksum;

//! Operations that are deeds, as calls of a command, over the catalogue, the stores and the sink: each leaves the command noted while files
//! are written, so that a stop leaves it where the definitions have it. A get is such a call in two steps: it is noted, where something is
//! still to be told, and then its file is sent.
#![tactic(auto)]

mod calling;
mod marking;
mod noting;
mod planning;
mod putting;
mod replicating;
mod sending;
mod summing;
mod writing;

pub use noting::note_call;
pub use putting::put;
pub use replicating::repl;
pub use sending::send_file;
pub use summing::{chksum, sum_words};

//! Files of the vault, written, read and removed through the stores that a run was handed.
#![tactic(auto)]

mod copying;
mod fault;
mod line;
mod reading;
mod removal;
mod sending;
mod sent;
mod verifying;
mod write;

pub use copying::copy;
pub use fault::Fault;
pub use grid_model::{NewFile, OldFile};
pub use reading::Found;
pub use removal::{Removed, remove, remove_all};
pub use sending::send;
pub use sent::{SendError, Sent};
pub use verifying::{ReadError, verify};
pub use write::write_all;

// How many bytes of a file are written, read or sent at once.
const PART: usize = 65_536;

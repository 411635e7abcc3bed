//! A log of records on a disk, from a base place on.
//!
//! A record is a gate byte, and where the gate is 1, a length of 8 bytes, the greatest byte first, and the body. A
//! gate other than 1 ends the log. A record is first written behind a closed gate and kept there, and then the gate
//! is opened by a write of its own, so a stop at any moment leaves the old records, or these and the new one.
#![tactic(auto)]

mod block;
mod error;
mod framing;
mod log;
mod opening;
mod records;
mod synced;

pub use error::LogError;
pub use framing::framed;
pub use log::FrameLog;
pub use records::{Record, Records};
pub use synced::write_synced;

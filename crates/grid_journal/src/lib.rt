//! The catalogue: its rows in memory, kept in a log on the main disk.
//!
//! Main begins with the bytes `iRODSgrd`, a root byte, which is even, and seven bytes that are not read. From 16 on
//! stands a log, of which each record is a list of deltas; the catalogue is what they make, one after another, of
//! tables without rows. A commit adds one record, so a stop at any moment leaves the catalogue before or after it.
#![tactic(auto)]

mod changes;
mod error;
mod head;
mod laws;
mod replay;
mod starting;
mod store;

pub use error::JournalError;
pub use laws::{kept_stands, rules_are_kept, stands_for_one};
pub use store::Store;

//! The changes that operations on collections, users and access make, or why they are refused.
#![tactic(auto)]

mod access;
mod collections;
mod dropping;
mod flags;
mod making;
mod members;
mod moving;
mod users;

pub use access::plan_chmod;
pub use dropping::plan_rmdir;
pub use flags::plan_inherit;
pub use making::plan_mkdir;
pub use members::{plan_addmember, plan_rmmember};
pub use moving::plan_move;
pub use users::{plan_mkgroup, plan_mkuser};

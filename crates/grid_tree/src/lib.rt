//! The tree of resources over the rows: where new data goes, and which replicas are read.
#![tactic(auto)]

mod choosing;
mod hierarchies;
mod reach;
mod reading;
mod siblings;
mod upward;

pub use choosing::targets;
pub use hierarchies::hierarchy;
pub use reach::{Leaves, has_targets, possible};
pub use reading::first_candidate;
pub use siblings::{Child, children_in_order};
pub use upward::is_in;

//! Plans of operations after which files are no longer wanted, as pure functions of the rows.
#![tactic(auto)]

mod removing;
mod replicas;
mod trimming;

pub use removing::plan_rm;
pub use trimming::plan_trim;

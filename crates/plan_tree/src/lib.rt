//! The changes that operations on resources make, or why they are refused.
#![tactic(auto)]

mod children;
mod making;
mod rows;
mod status;

pub use children::plan_addchild;
pub use making::plan_mkresc;
pub use status::plan_modresc;

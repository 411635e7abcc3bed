#![tactic(auto)]

mod calls;
mod error;
mod expressions;
mod faults;
mod known;
mod names;
mod rules;
mod sorts;
mod tables;

pub use error::RuleError;
pub use rules::{check_call, check_rules};

//! The rules of a point, and calls by themselves, run over whatever does their calls.
//!
//! The machine of `chain_core` says what is to be done, conditions and arguments are computed by `rule_cond`, and a [`Doer`]
//! does the calls.
#![tactic(auto)]

mod acting;
mod computing;
mod doer;
mod running;
mod stop;

pub use doer::Doer;
pub use running::{run_point, run_rule};
pub use stop::RunStop;

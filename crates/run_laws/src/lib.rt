//! What one request of a run does, and that a run of such requests is what is promised of runs. The functions do nothing: their
//! contracts are laws.
#![tactic(auto)]

mod around;
mod laws;

pub use around::Around;
pub use laws::{
    a_run_ends_answered, a_run_ends_early, a_run_ends_in_its_opening, a_run_ends_in_its_sweep,
    a_run_goes_on, a_run_is_begun,
};

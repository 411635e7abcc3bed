//! What a call of a micro-service does, by the rows alone: changes of rows, a deed, or its failure.
#![tactic(auto)]

mod calling;
mod changing;
mod deeds;
mod error;
mod plans;

pub use calling::{plan_call, words_are_added};
pub use error::ServiceError;
pub use plans::ServicePlan;

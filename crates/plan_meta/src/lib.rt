//! The changes that put metadata and take it away, what is shown of it, or why that is refused.
#![tactic(auto)]

mod changing;
mod items;
mod showing;
mod things;
mod words;

pub use changing::{plan_addmeta, plan_rmmeta};
pub use showing::list_triples;
pub use things::{ThingName, thing_named};

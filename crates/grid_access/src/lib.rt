//! What a user may do at an object or a collection.
#![tactic(auto)]

mod access;
mod order;
mod scan;
#[cfg(test)]
mod tests;

pub use access::{level, may};

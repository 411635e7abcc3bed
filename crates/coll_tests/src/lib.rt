//! Tests of the plans of users and collections, of calls of micro-services and of listings, in a crate of their own, since a
//! crate with tests is proved once more for them.
#![tactic(auto)]

#[cfg(test)]
mod tests;

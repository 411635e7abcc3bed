//! Tests of `grid_tables`, in a crate of their own: a crate with tests is proved once more for them, and that one is large.
#![tactic(auto)]

#[cfg(test)]
mod tests;

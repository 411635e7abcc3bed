//! Tests of `grid_journal` and `row_codec`, in a crate of their own: a crate with tests is proved once more for them.
#![tactic(auto)]

#[cfg(test)]
mod rows;
#[cfg(test)]
mod tests;

//! Tests of `frame_log` and `grid_vault` over devices in memory, in a crate of their own: a crate with tests is proved once
//! more for them.
#![tactic(auto)]

#[cfg(test)]
mod files;
#[cfg(test)]
mod logs;

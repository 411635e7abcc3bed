//! Laws of sizes: nothing takes the grid out of its limits, and within them what is read and written is small. The
//! functions do nothing: their contracts are the laws.
#![tactic(auto)]

mod laws;

pub use laws::{
    bodies_are_small, calls_keep_within, calls_wait_at_once, commands_keep_within, deeds_are_small,
    files_take_few, found_are_small, names_keep_within, opening_keeps_within,
    operations_keep_within, parts_are_few, pointed_keep_within, points_keep_within,
    recoveries_keep_within, recovery_keeps_within, requests_keep_within, rows_are_small,
    sources_are_small, start_is_within, work_keeps_within, works_keep_within,
};

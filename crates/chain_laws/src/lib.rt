//! Laws of calls of rules: with marks enough they come to an end, and with clean marks they end by the rows.
#![tactic(auto)]

mod laws;
mod stopping;

pub use laws::{
    calls_complete, calls_end_by_rows, machines_complete, names_complete, names_end_by_rows,
    performed_completes, recovered_completes, rows_are_of_grid, waiting_completes,
};
pub use stopping::{stops_halt, takes_in_order};

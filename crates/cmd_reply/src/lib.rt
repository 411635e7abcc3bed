//! The lines of replies, read and written.
#![tactic(auto)]

mod data;
mod ends;
mod marks;
mod parts;
mod refusals;
mod report;
mod writing;

pub use marks::mark_line;
pub use refusals::push_failure;
pub use report::{report_begun, report_rest};
pub use writing::rest;

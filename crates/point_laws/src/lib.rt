//! Laws of operations and queries with their points: the rules before and after them.
#![tactic(auto)]

mod laws;

pub use laws::{
    after_work_ends, after_work_sends, names_are_stopped, names_halt, names_take_in_order,
    pre_ends, work_ends, works_end_by_rows, works_send_behind, works_take_in_order,
};

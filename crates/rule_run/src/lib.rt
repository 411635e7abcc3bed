//! Rules run for a request: each call by `service_run`, and at the end one commit and the rest of the reply.
#![tactic(auto)]

mod calling;
mod executing;
mod finishing;
mod running;
mod sizing;
mod spelling;

pub use executing::execute;
pub use finishing::finish;
pub use running::run_point;

//! Operations that change rows alone, as calls of a command: the changes are staged, and the next commit keeps them.
#![tactic(auto)]

mod changing;
mod planning;
mod saying;

pub use changing::change_rows;

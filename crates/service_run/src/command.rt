use grid_model::{Marks, Passeds, Text};

/// A command whose calls are run: what is noted of it, and what has come of its calls so far.
#[derive(Debug, Drop)]
pub struct Command {
    /// The run that the command is of.
    pub run: u64,
    /// Its number in that run, from 1 on.
    pub number: u64,
    /// The id of the user who asked for it.
    pub user: u32,
    /// The line by which it was asked for.
    pub line: Text,
    /// The marks of its deeds, the first one first.
    pub marks: Marks,
    /// The recoveries that were passed over, the first one first.
    pub passed: Passeds,
    /// The lines of marks that were not told yet: no catalogue on main has these marks.
    pub untold: Text,
}

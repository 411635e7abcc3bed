use crate::{Items, Text, Texts};

/// A micro-service or a rule by its name, with its arguments.
#[derive(Debug, Drop)]
pub struct Call {
    pub name: Text,
    pub args: Texts,
}

/// A list of calls, as the recoveries that are still to be run.
pub type Calls = Items<Call>;

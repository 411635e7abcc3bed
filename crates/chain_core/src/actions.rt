use grid_model::{Call, Failure, Text};

/// What is to be run.
#[derive(Debug, Drop)]
pub enum Start {
    /// The rules of this name, without arguments, as a point of a command.
    Point(Text),
    /// The call by itself, as one step without a recovery.
    Exec(Call),
}

/// How a point or a call by itself ended.
#[derive(Clone, Copy, Debug, PartialEq, Eq)]
pub enum Outcome {
    EndedWell,
    Failed(Failure),
    /// It failed, and no later rule of any name was tried.
    Halted(Failure),
    /// No rule of the name applied.
    NoneApplied,
}

/// What is to be done next. Rules and steps count from 0, in the order of the text.
#[derive(Debug, Drop)]
pub enum Action {
    /// The condition of the rule is to be tested.
    Test { rule: usize },
    /// The arguments of the step of the rule, and those of its recovery, are to be computed.
    Eval { rule: usize, step: usize },
    /// The micro-service is to be run.
    Run(Call),
    /// The last of the recoveries that are listed is to be run.
    Undo,
    /// Nothing is left.
    End(Outcome),
}

/// What came of an action.
#[derive(Debug, Drop)]
pub enum Event {
    /// The condition of the rule holds, or does not.
    Tested(bool),
    /// The step and its recovery, if it has one, with their arguments, none of which is too long.
    Computed { call: Call, recovery: Option<Call> },
    /// An argument of the step or of its recovery is too long.
    LongText,
    /// The micro-service ran, or failed so.
    Ran(Result<(), Failure>),
    /// The recovery was run, or failed so.
    Undone(Option<Failure>),
}

ghost use Rattle.chain_core.specs.Answers.{args_of, asked, shown_outcome};
ghost use Rattle.chain_core.specs.Rest.{listed_recoveries, steps_begun, took_stop};
ghost use Rattle.std.specs.Prelude.{◌≡◌, false, IfOk};

use crate::actions::{Action, Outcome};
use crate::calls::copy_call;
use crate::stack::{Frame, Stack};
use grid_model::{Call, Calls, Failure, Texts};
use std::alloc::{AllocError, Global};

/// How many steps a command begins at most.
pub const MOST_STEPS: u64 = 4096;

/// What the machine waits for.
#[derive(Drop)]
pub enum Control {
    /// Whether the condition of the rule holds; the last chain of its name failed so.
    Tests(Frame, Option<Failure>),
    /// The next step of the rule.
    GoesOn(Frame),
    /// The recoveries of the rule, whose step failed so; and whether it halts.
    Fails(Frame, Failure, bool),
    /// The micro-service.
    Runs(Call),
    /// Nothing: what was called ended so.
    Ended(Outcome),
}

/// The frames of a command: what is being run, the recoveries that are fixed, and how many steps were begun.
#[derive(Drop)]
pub struct Frames {
    pub(crate) waiting: Stack,
    pub(crate) control: Control,
    pub(crate) undo: Calls,
    pub(crate) begun: u64,
    pub(crate) stopped: bool,
    pub(crate) by_itself: bool,
    none: Texts,
}

impl Frames {
    /// Nothing is run yet, and no step was begun. It takes no memory.
    pub fn new(alloc: Global) -> Frames
        ensures begun { steps_begun result ≡ 0 }
        ensures stopped { took_stop result ≡ false }
    {
        Frames {
            waiting: Stack::new(alloc),
            control: Control::Ended(Outcome::NoneApplied),
            undo: Calls::from_vec(Vec::new(alloc)),
            begun: 0,
            stopped: false,
            by_itself: false,
            none: Texts::from_vec(Vec::new(alloc)),
        }
    }

    /// The recoveries that a stop would have done now, in the order in which they were fixed: with `Undo` the last of
    /// them is the one that is to be run.
    pub fn undo(&self) -> &Calls
        ensures { result.now ≡ listed_recoveries self.now }
    {
        &self.undo
    }

    /// The arguments of the call of rules that is running, none for a point.
    pub fn args(&self) -> &Texts
        ensures { result.now ≡ args_of self.now }
    {
        match &self.control {
            Control::Tests(frame, _) => &frame.args,
            Control::GoesOn(frame) => &frame.args,
            Control::Fails(frame, _, _) => &frame.args,
            _ => match self.waiting.innermost() {
                None => &self.none,
                Some(frame) => &frame.args,
            },
        }
    }

    /// The action that is to be done next.
    pub(crate) fn action(&self, alloc: Global) -> Result<Action, AllocError>
        ensures { IfOk result (λ action. action ≡ asked self.now) }
    {
        match &self.control {
            Control::Tests(frame, _) => Ok(Action::Test { rule: frame.rule }),
            Control::GoesOn(frame) => Ok(Action::Eval {
                rule: frame.rule,
                step: frame.step,
            }),
            Control::Fails(_, _, _) => Ok(Action::Undo),
            Control::Runs(call) => Ok(Action::Run(copy_call(alloc, call)?)),
            Control::Ended(outcome) => Ok(Action::End(shown(self.by_itself, outcome))),
        }
    }
}

/// How a call by itself ended: it fails where no rule of its name applies.
fn shown(by_itself: bool, outcome: &Outcome) -> Outcome
    ensures { result ≡ shown_outcome by_itself outcome.now }
{
    match outcome {
        Outcome::NoneApplied => {
            if by_itself {
                Outcome::Failed(Failure::NoRule)
            } else {
                Outcome::NoneApplied
            }
        }
        Outcome::EndedWell => Outcome::EndedWell,
        Outcome::Failed(failure) => Outcome::Failed(*failure),
        Outcome::Halted(failure) => Outcome::Halted(*failure),
    }
}

//! How the machine takes what came of an action.
ghost use Rattle.chain_core.specs.Answers.{IsKind, IsUsable};
ghost use Rattle.chain_core.specs.Moves.{next_by, counted_step, under, waiting_for};
ghost use Rattle.chain_core.specs.declared.actions.Event.{Event};
ghost use Rattle.chain_core.specs.declared.actions.Event.TheVariants as event;
ghost use Rattle.chain_core.specs.declared.frames.Control.TheVariants as control;
ghost use Rattle.chain_core.specs.declared.kinds.Kind.{Kind};
ghost use Rattle.chain_core.specs.Rest.{rule_at};
ghost use Rattle.chain_core.specs.Seen.{rules_of, TakesEvent};
ghost use Rattle.grid_model.specs.RuleText.{Rule};
ghost use Rattle.grid_model.specs.declared.calls.Call.{Call};
ghost use Rattle.std.specs.Prelude.{◌≡◌, ◌+◌, ◌<◌, List, length, IfOk, OnOk};

use crate::actions::{Event, Outcome};
use crate::base::RuleBase;
use crate::begins::{control_of, failed_as, is_stopped, next_rule};
use crate::calls::{add_call, cut_calls, drop_call};
use crate::frames::{Control, Frames, MOST_STEPS};
use crate::kinds::{Kind, kind_of};
use crate::stack::Frame;
use grid_model::{Call, Failure};
use std::alloc::{AllocError, Global};
use std::mem;

/// One more step. A count of 2^64 steps, which no command comes to, is taken for want of memory.
pub fn one_more(begun: u64) -> Result<u64, AllocError>
    ensures { IfOk result (λ more. more ≡ begun + 1) }
{
    if begun < u64::MAX {
        Ok(begun + 1)
    } else {
        Err(AllocError)
    }
}

impl Frames {
    /// It waits for this from now on.
    pub(crate) fn set(&mut self, control: Control)
        ensures { self.new ≡ under self.old control }
    {
        drop(mem::replace(&mut self.control, control));
    }

    /// The frame waits for its step.
    fn wait(&mut self, frame: Frame, control: Control) -> Result<(), AllocError>
        ensures { OnOk result (self.new ≡ waiting_for self.old frame control) }
    {
        match self.waiting.push(frame) {
            Ok(()) => {
                self.set(control);
                Ok(())
            }
            Err(AllocError) => {
                drop(control);
                Err(AllocError)
            }
        }
    }

    /// A step of the frame begins, which is counted already.
    fn begin_in(
        &mut self,
        alloc: Global,
        rules: &RuleBase,
        frame: Frame,
        call: Call,
        kind: Kind,
    ) -> Result<(), AllocError>
        ensures { OnOk result (self.new ≡ counted_step (rules_of rules.now) self.old frame call kind) }
    {
        if MOST_STEPS < self.begun {
            return self.wait(frame, Control::Ended(Outcome::Halted(Failure::Spent)));
        }
        match kind {
            Kind::Cut => {
                let mut frame = frame;
                frame.cut = true;
                self.wait(frame, Control::Ended(Outcome::EndedWell))
            }
            Kind::Succeed => {
                cut_calls(alloc, &mut self.undo, frame.base);
                self.set(Control::Ended(Outcome::EndedWell));
                Ok(())
            }
            other => {
                match self.waiting.push(frame) {
                    Ok(()) => {
                        let control = control_of(rules, self.waiting.len(), call, other);
                        self.set(control);
                        Ok(())
                    }
                    Err(AllocError) => {
                        drop(call);
                        Err(AllocError)
                    }
                }
            }
        }
    }

    /// The step of the frame was computed.
    fn computed(
        &mut self,
        alloc: Global,
        rules: &RuleBase,
        frame: Frame,
        call: Call,
        recovery: Option<Call>,
    ) -> Result<(), AllocError>
        requires { frame.step < length (rule_at (rules_of rules.now) frame.rule).steps }
        ensures { OnOk result ((k : Kind) × IsKind call k
            × (self.new ≡ next_by (rules_of rules.now) self.old (control.GoesOn frame) (event.Computed call recovery) k)) }
    {
        let kind = kind_of(alloc, &call)?;
        add_call(alloc, &mut self.undo, recovery)?;
        self.begun = one_more(self.begun)?;
        let mut frame = frame;
        let steps = rules.steps(frame.rule);
        prove!(frame.step < steps);
        frame.step += 1;
        self.begin_in(alloc, rules, frame, call, kind)
    }

    /// A condition was tested.
    fn tested(&mut self, rules: &RuleBase, frame: Frame, last: Option<Failure>, event: Event)
        ensures { (k : Kind) → self.new ≡ next_by (rules_of rules.now) self.old (control.Tests frame last) event k }
    {
        match event {
            Event::Tested(true) => {
                let mut frame = frame;
                frame.step = 0;
                frame.base = self.undo.as_slice().len();
                frame.cut = false;
                self.set(Control::GoesOn(frame));
            }
            Event::Tested(false) => self.set(next_rule(rules, frame, last)),
            other => {
                drop(other);
                self.set(Control::Tests(frame, last));
            }
        }
    }

    /// A micro-service was run.
    fn ran(&mut self, call: Call, event: Event)
        ensures { (rules : List Rule) (k : Kind) → self.new ≡ next_by rules self.old (control.Runs call) event k }
    {
        match event {
            Event::Ran(Ok(())) => {
                drop(call);
                self.set(Control::Ended(Outcome::EndedWell));
            }
            Event::Ran(Err(failure)) => {
                drop(call);
                let stopped = is_stopped(&failure) || self.stopped;
                self.stopped = stopped;
                self.set(Control::Ended(failed_as(failure, stopped)));
            }
            other => {
                drop(other);
                self.set(Control::Runs(call));
            }
        }
    }

    /// The last recovery was run: it is done, unless it was stopped.
    fn went_back(
        &mut self,
        alloc: Global,
        frame: Frame,
        failure: Failure,
        halts: bool,
        event: &Event,
    )
        ensures { (rules : List Rule) (k : Kind) → self.new ≡ next_by rules self.old (control.Fails frame failure halts) event.now k }
    {
        self.set(Control::Fails(frame, failure, halts));
        match event {
            Event::Undone(None) => drop_call(alloc, &mut self.undo),
            Event::Undone(Some(refused)) => {
                if is_stopped(refused) {
                    self.stopped = true;
                } else {
                    drop_call(alloc, &mut self.undo);
                }
            }
            _ => {}
        }
    }

    /// What came of the step of the frame.
    fn stepped(
        &mut self,
        alloc: Global,
        rules: &RuleBase,
        frame: Frame,
        event: Event,
    ) -> Result<(), AllocError>
        requires { frame.step < length (rule_at (rules_of rules.now) frame.rule).steps }
        ensures { OnOk result (TakesEvent (rules_of rules.now) self.old (control.GoesOn frame) event self.new) }
    {
        match event {
            Event::Computed { call, recovery } => {
                self.computed(alloc, rules, frame, call, recovery)
            }
            Event::LongText => {
                self.begun = one_more(self.begun)?;
                self.set(Control::Fails(frame, Failure::LongText, false));
                Ok(())
            }
            other => {
                drop(other);
                self.set(Control::GoesOn(frame));
                Ok(())
            }
        }
    }

    /// What came of the action that was asked for. Another event leaves it as it is.
    pub(crate) fn take(
        &mut self,
        alloc: Global,
        rules: &RuleBase,
        event: Event,
    ) -> Result<(), AllocError>
        requires { IsUsable (rules_of rules.now) self.old }
        ensures { OnOk result (TakesEvent (rules_of rules.now) self.old self.old.control event self.new) }
    {
        match mem::replace(&mut self.control, Control::Ended(Outcome::NoneApplied)) {
            Control::GoesOn(frame) => self.stepped(alloc, rules, frame, event),
            Control::Tests(frame, last) => {
                self.tested(rules, frame, last, event);
                Ok(())
            }
            Control::Runs(call) => {
                self.ran(call, event);
                Ok(())
            }
            Control::Fails(frame, failure, halts) => {
                self.went_back(alloc, frame, failure, halts, &event);
                Ok(())
            }
            Control::Ended(outcome) => {
                self.set(Control::Ended(outcome));
                Ok(())
            }
        }
    }
}

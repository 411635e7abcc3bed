//! How the machine goes on until it waits.
ghost use Rattle.chain_core.specs.Answers.{is_settled, is_settled_by};
ghost use Rattle.chain_core.specs.Moves.{move, move_by};
ghost use Rattle.chain_core.specs.declared.frames.Control.TheVariants as control;
ghost use Rattle.chain_core.specs.Seen.{rules_of};
ghost use Rattle.chain_core.specs.Settling.{Settles};
ghost use Rattle.std.specs.Prelude.{◌≡◌, not};

use crate::actions::Outcome;
use crate::base::RuleBase;
use crate::begins::{resumed, rule_failed};
use crate::calls::cut_calls;
use crate::frames::{Control, Frames};
use crate::stack::Frame;
use grid_model::Failure;
use std::alloc::Global;
use std::mem;

impl Frames {
    /// The frame goes on where it has steps left.
    fn go_on(&mut self, alloc: Global, rules: &RuleBase, frame: Frame) -> bool
        ensures moved { self.new ≡ move_by (rules_of rules.now) self.old (control.GoesOn frame) }
        ensures going { result ≡ not (is_settled_by (rules_of rules.now) self.old (control.GoesOn frame)) }
    {
        if frame.step < rules.steps(frame.rule) {
            self.set(Control::GoesOn(frame));
            return false;
        }
        cut_calls(alloc, &mut self.undo, frame.base);
        self.set(Control::Ended(Outcome::EndedWell));
        true
    }

    /// The frame goes back where it has recoveries left.
    fn go_back(&mut self, rules: &RuleBase, frame: Frame, failure: Failure, halts: bool) -> bool
        ensures moved { self.new ≡ move_by (rules_of rules.now) self.old (control.Fails frame failure halts) }
        ensures going { result ≡ not (is_settled_by (rules_of rules.now) self.old (control.Fails frame failure halts)) }
    {
        if frame.base < self.undo.as_slice().len() {
            self.set(Control::Fails(frame, failure, halts));
            return false;
        }
        self.set(rule_failed(rules, frame, failure, halts, self.stopped));
        true
    }

    /// The innermost frame that waits, if there is one, takes up how its step ended.
    fn take_up(&mut self, rules: &RuleBase, outcome: Outcome) -> bool
        ensures moved { self.new ≡ move_by (rules_of rules.now) self.old (control.Ended outcome) }
        ensures going { result ≡ not (is_settled_by (rules_of rules.now) self.old (control.Ended outcome)) }
    {
        match self.waiting.pop() {
            None => {
                self.set(Control::Ended(outcome));
                false
            }
            Some(frame) => {
                self.set(resumed(frame, outcome));
                true
            }
        }
    }

    /// One move, unless it waits.
    fn advance(&mut self, alloc: Global, rules: &RuleBase) -> bool
        ensures moved { self.new ≡ move (rules_of rules.now) self.old }
        ensures going { result ≡ not (is_settled (rules_of rules.now) self.old) }
    {
        match mem::replace(&mut self.control, Control::Ended(Outcome::NoneApplied)) {
            Control::GoesOn(frame) => self.go_on(alloc, rules, frame),
            Control::Fails(frame, failure, halts) => self.go_back(rules, frame, failure, halts),
            Control::Ended(outcome) => self.take_up(rules, outcome),
            other => {
                self.set(other);
                false
            }
        }
    }

    /// Goes on until it waits.
    pub(crate) fn settle(&mut self, alloc: Global, rules: &RuleBase)
        ensures { Settles (rules_of rules.now) self.old self.new }
    {
        let mut going = true;
        while going {
            going = self.advance(alloc, rules);
        }
    }
}

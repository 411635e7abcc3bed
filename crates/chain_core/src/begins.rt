ghost use Rattle.chain_core.specs.Moves.{called, control_of, first_rule, next_named, next_rule, ended_as, rule_failed, resumed, is_stopped, failed_as};
ghost use Rattle.chain_core.specs.Seen.{rules_of};
ghost use Rattle.std.specs.Prelude.{◌≡◌, IsTrue, ◌↔◌};

use crate::actions::Outcome;
use crate::base::RuleBase;
use crate::frames::Control;
use crate::kinds::Kind;
use crate::stack::Frame;
use grid_model::{Call, Failure};

/// How many calls of rules may be within one another, that from a point or by itself among them.
pub const DEEPEST: usize = 32;

/// The first rule of the name is tested, where so many frames wait.
pub fn called(rules: &RuleBase, waiting: usize, call: Call) -> Control
    ensures { result ≡ called (rules_of rules.now) waiting call }
{
    if waiting < DEEPEST {
        match rules.first_from(&call.name, 0) {
            None => Control::Ended(Outcome::NoneApplied),
            Some(rule) => {
                let frame = Frame {
                    name: call.name,
                    args: call.args,
                    rule,
                    step: 0,
                    base: 0,
                    cut: false,
                };
                Control::Tests(frame, None)
            }
        }
    } else {
        Control::Ended(Outcome::Failed(Failure::Depth))
    }
}

/// What a call does as a step that may begin.
pub fn control_of(rules: &RuleBase, waiting: usize, call: Call, kind: Kind) -> Control
    ensures { result ≡ control_of (rules_of rules.now) waiting call kind }
{
    match kind {
        Kind::Cut | Kind::Succeed => Control::Ended(Outcome::EndedWell),
        Kind::Fail(code) => Control::Ended(Outcome::Failed(Failure::Code(code))),
        Kind::Serve => Control::Runs(call),
        Kind::Name => called(rules, waiting, call),
    }
}

/// How the rules of a name ended, the last of which failed so.
fn ended_as(last: Option<Failure>) -> Outcome
    ensures { result ≡ ended_as last }
{
    match last {
        None => Outcome::NoneApplied,
        Some(failure) => Outcome::Failed(failure),
    }
}

/// The next rule of the name is tested, if there is one.
pub fn next_rule(rules: &RuleBase, frame: Frame, last: Option<Failure>) -> Control
    ensures { result ≡ next_rule (rules_of rules.now) frame last }
{
    match rules.next_after(&frame.name, frame.rule) {
        None => Control::Ended(ended_as(last)),
        Some(rule) => {
            let mut next = frame;
            next.rule = rule;
            Control::Tests(next, last)
        }
    }
}

/// A chain that failed so, and may halt, once its recoveries are done.
pub fn rule_failed(
    rules: &RuleBase,
    frame: Frame,
    failure: Failure,
    halts: bool,
    stopped: bool,
) -> Control
    ensures { result ≡ rule_failed (rules_of rules.now) frame failure halts stopped }
{
    if stopped {
        return Control::Ended(Outcome::Halted(Failure::Stopped));
    }
    if halts {
        return Control::Ended(Outcome::Halted(failure));
    }
    if frame.cut {
        return Control::Ended(Outcome::Failed(failure));
    }
    next_rule(rules, frame, Some(failure))
}

/// A frame whose step ended so.
pub fn resumed(frame: Frame, outcome: Outcome) -> Control
    ensures { result ≡ resumed frame outcome }
{
    match outcome {
        Outcome::EndedWell => Control::GoesOn(frame),
        Outcome::Failed(failure) => Control::Fails(frame, failure, false),
        Outcome::Halted(failure) => Control::Fails(frame, failure, true),
        Outcome::NoneApplied => Control::Fails(frame, Failure::NoRule, false),
    }
}

/// The failure is a stop.
pub fn is_stopped(failure: &Failure) -> bool
    ensures { result ≡ is_stopped failure.now }
{
    match failure {
        Failure::Stopped => true,
        _ => false,
    }
}

/// A micro-service that failed so.
pub fn failed_as(failure: Failure, stopped: bool) -> Outcome
    ensures { result ≡ failed_as failure stopped }
{
    if stopped {
        Outcome::Halted(failure)
    } else {
        Outcome::Failed(failure)
    }
}

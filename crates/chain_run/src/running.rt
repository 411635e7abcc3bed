//! All actions of the machine, to its end.
ghost use Rattle.chain_core.specs.Answers.{IsUsable, Tells, asked};
ghost use Rattle.chain_core.specs.Running.{HasValues};
ghost use Rattle.chain_core.specs.Seen.{rules_of};
ghost use Rattle.chain_run.specs.Calls.{MakesCallsUntil, stop_of};
ghost use Rattle.chain_run.specs.Runs.{IsDue, ReachesEnd, by_itself, rest_from, whole_from};
ghost use Rattle.grid_model.specs.Chains.{call_rule};
ghost use Rattle.grid_model.specs.Checks.{first_fault, rules_faults};
ghost use Rattle.grid_model.specs.Parsed.{rule_of};
ghost use Rattle.grid_model.specs.Values.{Value};
ghost use Rattle.rule_cond.specs.Scopes.{env_of};
ghost use Rattle.std.specs.Prelude.{◌≡◌, [], List, None, IfOk, map};

use crate::acting::{Acted, act};
use crate::doer::Doer;
use crate::stop::RunStop;
use chain_core::{Action, Frames, Outcome, RuleBase, Start};
use grid_model::{Call, Text};
use rule_cond::Env;
use std::alloc::Global;

/// Goes on from this action to the end.
fn go_on<O: Doer>(
    alloc: Global,
    frames: &mut Frames,
    rules: &RuleBase,
    env: &Env,
    action: Action,
    doer: &mut O,
) -> Result<Outcome, RunStop<O::Stop>>
    requires user { (O.place doer.old).user ≡ env.now.user }
    requires checked { first_fault (rules_faults (map rule_of rules.now.rules)) ≡ None }
    requires usable { IsUsable (rules_of rules.now) frames.old }
    requires asked { action ≡ asked frames.old }
    requires tells { Tells (rules_of rules.now) frames.old action }
    requires ready { O.ready doer.old }
    ensures ready { IfOk result (λ outcome. O.ready doer.new) }
    ensures ends { IfOk result (λ outcome.
        ReachesEnd (rest_from (rules_of rules.now) (env_of env.now) frames.old (O.place doer.old)) (O.place doer.old) outcome frames.new (O.place doer.new)) }
    ensures makes { let whole = rest_from (rules_of rules.now) (env_of env.now) frames.old (O.place doer.old) in
        MakesCallsUntil O.went (IsDue (rules_of rules.now) (env_of env.now) whole (O.place doer.old)) O.no_size (stop_of result) doer.old doer.new }
{
    let mut action = action;
    'actions: loop {
        match act(alloc, frames, rules, env, &action, doer) {
            Err(stop) => return Err(stop),
            Ok(Acted::Ended(outcome)) => return Ok(outcome),
            Ok(Acted::Came(event)) => match frames.next(alloc, rules, event) {
                Err(_) => return Err(RunStop::Memory),
                Ok(next) => action = next,
            },
        }
    }
}

/// Runs the rules of a point, whose name this is, without arguments. Rules are checked ones, and the doer is ready and works for the user of
/// the session variables. One `frames` serves all points of a command, whose steps it counts.
///
/// # Errors
///
/// `Stopped` where the doer answered this stop, and `Memory`. What was done until then was to be done.
pub fn run_point<O: Doer>(
    alloc: Global,
    frames: &mut Frames,
    rules: &RuleBase,
    env: &Env,
    name: Text,
    doer: &mut O,
) -> Result<Outcome, RunStop<O::Stop>>
    requires user { (O.place doer.old).user ≡ env.now.user }
    requires checked { first_fault (rules_faults (map rule_of rules.now.rules)) ≡ None }
    requires ready { O.ready doer.old }
    ensures ready { IfOk result (λ outcome. O.ready doer.new) }
    ensures ends { let point = call_rule (rules_of rules.now) (env_of env.now) name [] in
        IfOk result (λ outcome. ReachesEnd (whole_from point frames.old (O.place doer.old)) (O.place doer.old) outcome frames.new (O.place doer.new)) }
    ensures makes { let point = call_rule (rules_of rules.now) (env_of env.now) name [] in
        let whole = whole_from point frames.old (O.place doer.old) in
        MakesCallsUntil O.went (IsDue (rules_of rules.now) (env_of env.now) whole (O.place doer.old)) O.no_size (stop_of result) doer.old doer.new }
{
    match frames.start(alloc, rules, Start::Point(name)) {
        Err(_) => Err(RunStop::Memory),
        Ok(action) => go_on(alloc, frames, rules, env, action, doer),
    }
}

/// Runs a call by itself, as one step without a recovery. The arguments of a `fail` are texts of values that a checked one has.
///
/// # Errors
///
/// As for [`run_point`].
pub fn run_rule<O: Doer>(
    alloc: Global,
    frames: &mut Frames,
    rules: &RuleBase,
    env: &Env,
    call: Call,
    doer: &mut O,
) -> Result<Outcome, RunStop<O::Stop>>
    requires user { (O.place doer.old).user ≡ env.now.user }
    requires checked { first_fault (rules_faults (map rule_of rules.now.rules)) ≡ None }
    requires ready { O.ready doer.old }
    ensures ready { IfOk result (λ outcome. O.ready doer.new) }
    ensures ends { IfOk result (λ outcome. (vs : List Value) → HasValues call vs →
        let alone = by_itself (rules_of rules.now) (env_of env.now) call vs in
        ReachesEnd (whole_from alone frames.old (O.place doer.old)) (O.place doer.old) outcome frames.new (O.place doer.new)) }
    ensures makes { (vs : List Value) → HasValues call vs →
        let alone = by_itself (rules_of rules.now) (env_of env.now) call vs in
        let whole = whole_from alone frames.old (O.place doer.old) in
        MakesCallsUntil O.went (IsDue (rules_of rules.now) (env_of env.now) whole (O.place doer.old)) O.no_size (stop_of result) doer.old doer.new }
{
    match frames.start(alloc, rules, Start::Exec(call)) {
        Err(_) => Err(RunStop::Memory),
        Ok(action) => go_on(alloc, frames, rules, env, action, doer),
    }
}

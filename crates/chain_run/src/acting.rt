//! One action of the machine, done.
ghost use Rattle.chain_core.specs.Answers.{Tells, asked};
ghost use Rattle.chain_core.specs.Rest.{listed_recoveries, rule_at};
ghost use Rattle.chain_core.specs.Seen.{rules_of};
ghost use Rattle.chain_core.specs.declared.actions.Action.TheVariants as action;
ghost use Rattle.chain_run.specs.Calls.{MakesCallsUntil, stop_of};
ghost use Rattle.chain_run.specs.Runs.{DoesAction, IsCallAskedFor};
ghost use Rattle.chain_run.specs.declared.stop.RunStop.TheVariants.{Stopped};
ghost use Rattle.grid_model.specs.Checks.{first_fault, rules_faults};
ghost use Rattle.grid_model.specs.Parsed.{rule_of};
ghost use Rattle.grid_model.specs.RuleText.{Rule};
ghost use Rattle.grid_model.specs.Values as values;
ghost use Rattle.grid_model.specs.Values.{size_now};
ghost use Rattle.grid_model.specs.declared.calls.Call.{Call};
ghost use Rattle.rule_cond.specs.Scopes.{env_of};
ghost use Rattle.std.specs.Prelude.{◌≡◌, ◌<◌, ◌++◌, ◌∷◌, [], List, None, IfErr, IfOk, length, map};

use crate::computing::{compute_step, test};
use crate::doer::Doer;
use crate::stop::RunStop;
use chain_core::{Action, Event, Frames, Outcome, RuleBase};
use grid_model::Call;
use rule_cond::Env;
use std::alloc::Global;

/// What came of looking for the next action.
pub enum Acted {
    /// Nothing was left to be done.
    Ended(Outcome),
    /// It was done, and this came of it.
    Came(Event),
}

/// `$dataSize`, as it is now.
fn size_now<O: Doer>(env: &Env, doer: &O) -> Result<u64, O::Stop>
    requires ready { O.ready doer.now }
    ensures size { IfOk result (λ size. size ≡ size_now (env_of env.now) (O.place doer.now).grid) }
    ensures stopped { IfErr result (O.no_size doer.now) }
{
    match env.put_size {
        Some(size) => Ok(size),
        None => doer.size_at(&env.obj),
    }
}

/// Tests the condition of a rule.
fn test_rule<O: Doer>(
    alloc: Global,
    frames: &Frames,
    rules: &RuleBase,
    env: &Env,
    rule: usize,
    doer: &O,
) -> Result<Acted, RunStop<O::Stop>>
    requires asked { asked frames.now ≡ action.Test rule }
    requires there { rule < length (rules_of rules.now) }
    requires ready { O.ready doer.now }
    ensures acts { IfOk result (λ acted. DoesAction (rules_of rules.now) (env_of env.now) frames.now acted (O.place doer.now) (O.place doer.now)) }
    ensures makes { MakesCallsUntil O.went (IsCallAskedFor frames.now (O.place doer.now)) O.no_size (stop_of result) doer.now doer.now }
{
    match size_now(env, doer) {
        Err(stop) => Err(RunStop::Stopped(stop)),
        Ok(size) => match test(alloc, frames, rules, env, rule, size) {
            Err(_) => Err(RunStop::Memory),
            Ok(holds) => Ok(Acted::Came(Event::Tested(holds))),
        },
    }
}

/// Computes the arguments of a step.
fn compute_args<O: Doer>(
    alloc: Global,
    frames: &Frames,
    rules: &RuleBase,
    env: &Env,
    place: (usize, usize),
    doer: &O,
) -> Result<Acted, RunStop<O::Stop>>
    requires asked { asked frames.now ≡ action.Eval place.0 place.1 }
    requires there { place.1 < length (rule_at (rules_of rules.now) place.0).steps }
    requires checked { first_fault (rules_faults (map rule_of rules.now.rules)) ≡ None }
    requires ready { O.ready doer.now }
    ensures acts { IfOk result (λ acted. DoesAction (rules_of rules.now) (env_of env.now) frames.now acted (O.place doer.now) (O.place doer.now)) }
    ensures makes { MakesCallsUntil O.went (IsCallAskedFor frames.now (O.place doer.now)) O.no_size (stop_of result) doer.now doer.now }
{
    match size_now(env, doer) {
        Err(stop) => Err(RunStop::Stopped(stop)),
        Ok(size) => match compute_step(alloc, frames, rules, env, place, size) {
            Err(_) => Err(RunStop::Memory),
            Ok(event) => Ok(Acted::Came(event)),
        },
    }
}

/// Has a micro-service run.
fn run_call<O: Doer>(frames: &Frames, call: &Call, doer: &mut O) -> Result<Acted, RunStop<O::Stop>>
    requires asked { asked frames.now ≡ action.Run call.now }
    requires ready { O.ready doer.old }
    ensures ready { IfOk result (λ acted. O.ready doer.new) }
    ensures acts { IfOk result (λ acted. (rules : List Rule) (env : values.Env) → env.user ≡ (O.place doer.old).user →
        DoesAction rules env frames.now acted (O.place doer.old) (O.place doer.new)) }
    ensures makes { MakesCallsUntil O.went (IsCallAskedFor frames.now (O.place doer.old)) O.no_size (stop_of result) doer.old doer.new }
{
    let listed = frames.undo();
    match doer.perform(call, listed) {
        Err(stop) => Err(RunStop::Stopped(stop)),
        Ok(ran) => Ok(Acted::Came(Event::Ran(ran))),
    }
}

/// The last of the recoveries that are listed.
fn last_recovery(frames: &Frames) -> &Call
    requires { 0 < length (listed_recoveries frames.now) }
    ensures { (us : List Call) × (listed_recoveries frames.now ≡ us ++ result.now ∷ []) }
{
    let calls = frames.undo().as_slice();
    &calls[calls.len() - 1]
}

/// Has the last recovery run.
fn run_recovery<O: Doer>(frames: &Frames, doer: &mut O) -> Result<Acted, RunStop<O::Stop>>
    requires asked { asked frames.now ≡ action.Undo }
    requires listed { 0 < length (listed_recoveries frames.now) }
    requires ready { O.ready doer.old }
    ensures ready { IfOk result (λ acted. O.ready doer.new) }
    ensures acts { IfOk result (λ acted. (rules : List Rule) (env : values.Env) → env.user ≡ (O.place doer.old).user →
        DoesAction rules env frames.now acted (O.place doer.old) (O.place doer.new)) }
    ensures makes { MakesCallsUntil O.went (IsCallAskedFor frames.now (O.place doer.old)) O.no_size (stop_of result) doer.old doer.new }
{
    let call = last_recovery(frames);
    let listed = frames.undo();
    match doer.undo(call, listed) {
        Err(stop) => Err(RunStop::Stopped(stop)),
        Ok(failure) => Ok(Acted::Came(Event::Undone(failure))),
    }
}

/// Does what the machine asks for.
pub(crate) fn act<O: Doer>(
    alloc: Global,
    frames: &Frames,
    rules: &RuleBase,
    env: &Env,
    action: &Action,
    doer: &mut O,
) -> Result<Acted, RunStop<O::Stop>>
    requires user { (O.place doer.old).user ≡ env.now.user }
    requires checked { first_fault (rules_faults (map rule_of rules.now.rules)) ≡ None }
    requires asked { action.now ≡ asked frames.now }
    requires tells { Tells (rules_of rules.now) frames.now action.now }
    requires ready { O.ready doer.old }
    ensures ready { IfOk result (λ acted. O.ready doer.new) }
    ensures acts { IfOk result (λ acted. DoesAction (rules_of rules.now) (env_of env.now) frames.now acted (O.place doer.old) (O.place doer.new)) }
    ensures makes { MakesCallsUntil O.went (IsCallAskedFor frames.now (O.place doer.old)) O.no_size (stop_of result) doer.old doer.new }
{
    match action {
        Action::End(outcome) => Ok(Acted::Ended(*outcome)),
        Action::Test { rule } => test_rule(alloc, frames, rules, env, *rule, doer),
        Action::Eval { rule, step } => compute_args(
            alloc,
            frames,
            rules,
            env,
            (*rule, *step),
            doer,
        ),
        Action::Run(call) => run_call(frames, call, doer),
        Action::Undo => run_recovery(frames, doer),
    }
}

//! A request that calls a rule or a micro-service, from its call to the end of its reply.
ghost use Rattle.std.specs.Prelude.{◌≡◌, ◌+◌, ◌^◌, ◌≤◌, [], None, IsErrOf, IsTrue, List, map, vec_len};
ghost use Rattle.grid_outside.specs.Source.{SourceState};
ghost use Rattle.grid_model.specs.Applying.{is_user};
ghost use Rattle.grid_model.specs.Checks.{first_fault, rules_faults};
ghost use Rattle.grid_model.specs.Deltas.{text as text_part, u32, u64};
ghost use Rattle.grid_model.specs.Parsed.{rule_of};
ghost use Rattle.grid_model.specs.RowGrids.{grid_of, user_name};
ghost use Rattle.grid_model.specs.Runs.{Request};
ghost use Rattle.grid_model.specs.Sessions.{State};
ghost use Rattle.grid_model.specs.Values.{Value};
ghost use Rattle.grid_model.specs.Writable.{is_writable_end};
ghost use Rattle.grid_deed.specs.Held.{IsHeld};
ghost use Rattle.chain_core.specs.Running.{HasValues};
ghost use Rattle.chain_core.specs.Seen.{rules_of};
ghost use Rattle.rule_cond.specs.Scopes.{env_of};
ghost use Rattle.size_laws.specs.Within.{IsWithin};
ghost use Rattle.run_laws.specs.Passes.{AreReady, CallsPass};
ghost use Rattle.run_laws.specs.Steps.{CallsNoRules};
ghost use Rattle.service_run.specs.declared.ending.Ending.{Ending};
ghost use Rattle.rule_run.specs.Asked.{IsAsked};
ghost use Rattle.rule_run.specs.Executing.{DoesCall, Executes, MakesNoFiles, end_by};

use crate::finishing::finish;
use crate::running::run_alone;
use chain_core::{Outcome, RuleBase};
use chain_laws::{calls_end_by_rows, stops_halt, takes_in_order};
use grid_journal::Store;
use grid_model::{Call, End, Failure, Rows, Texts};
use grid_outside::{Ambient, Disk, Outside, Plugin, Sink};
use rule_cond::Env;
use service_run::{Command, Ending};
use std::alloc::Global;

/// Runs a call of a rule or of a micro-service for a request, and tells its reply: one call of a micro-service after another, each noted on
/// main while its deed runs, then one last commit and the rest of the reply. The session variables are those of the user of the command,
/// with no path, and the rules are checked ones.
///
/// An error ends the command: `Memory` may come at any time, `Disk` and `Sink` where one of them failed, and `Worn` where the numbers of
/// vault files or the room behind the log have run out. Draws at most 2^78 + 2^10 moments, and at most 2^34 where the grid is within
/// its limits.
pub fn execute<D: Disk, K: Sink, A: Ambient, P: Plugin>(
    alloc: Global,
    store: &mut Store,
    outside: &mut Outside<D, A, P>,
    sink: &mut K,
    rules: &RuleBase,
    command: Command,
    call: Call,
    env: &Env,
) -> Result<(), Ending>
    requires held { IsHeld store.old.cat (D.disk outside.old.main) store.old }
    requires user { IsTrue (is_user store.old.cat command.user) }
    requires name { user_name store.old.cat command.user ≡ env.now.user }
    requires line { IsTrue (text_part command.line).fits }
    requires begun { (command.marks ≡ []) × (command.passed ≡ []) }
    requires slots { store.old.cat.stores ≡ vec_len outside.old.stores }
    requires values { (vs : List Value) × HasValues call vs }
    requires checked { first_fault (rules_faults (map rule_of rules.now.rules)) ≡ None }
    requires ready { AreReady D.disk P.plugin K.sink (2 ^ 78 + 2 ^ 10) (record { outside = outside.old; sink = sink.old }) }
    ensures executes { (source : SourceState) (at : State) (request : Request) (vs : List Value) → IsAsked at request store.old.cat command →
        HasValues call vs → (CallsNoRules at request → ⊥) → MakesNoFiles request → DoesCall at request (rules_of rules.now) (env_of env.now) call vs →
        Executes D.disk A.ambient P.plugin K.sink source at request store.old.cat command
        (record { outside = outside.old; sink = sink.old }) (record { outside = outside.new; sink = sink.new }) result store.new }
    ensures passes { CallsPass D.disk P.plugin K.sink (IsErrOf result Ending.Disk) (IsErrOf result Ending.Sink)
        (record { outside = outside.old; sink = sink.old }) (record { outside = outside.new; sink = sink.new }) }
    ensures drawn { outside.new.moments ≤ outside.old.moments + (2 ^ 78 + 2 ^ 10) }
    ensures few { IsWithin (grid_of store.old.cat) → outside.new.moments ≤ outside.old.moments + 2 ^ 34 }
{
    stops_halt();
    takes_in_order();
    calls_end_by_rows();
    are_kept(command.run, command.number, command.user);
    let mut command = command;
    let outcome = match run_alone(alloc, store, outside, sink, rules, env, &mut command, call) {
        Ok(outcome) => outcome,
        Err(ending) => return Err(ending),
    };
    finish(
        alloc,
        store,
        outside,
        sink,
        command,
        no_rows(alloc),
        end_of(alloc, outcome),
    )
}

// A call by itself shows no rows.
fn no_rows(alloc: Global) -> Rows
    ensures { result ≡ [] }
{
    Rows::from_vec(Vec::new(alloc))
}

// How a request ends whose rules came to that.
fn end_of(alloc: Global, outcome: Outcome) -> End
    ensures is { result ≡ end_by outcome }
    ensures writable { IsTrue (is_writable_end result) }
{
    match outcome {
        Outcome::EndedWell => End::Done(Texts::from_vec(Vec::new(alloc))),
        Outcome::NoneApplied => End::Done(Texts::from_vec(Vec::new(alloc))),
        Outcome::Failed(failure) => failed(failure),
        Outcome::Halted(failure) => failed(failure),
    }
}

// How a request ends that failed so.
fn failed(failure: Failure) -> End
    ensures is { result ≡ end_by (Outcome.Failed failure) }
    ensures writable { IsTrue (is_writable_end result) }
{
    match failure {
        Failure::Refused(refusal) => End::Refused(refusal),
        Failure::Stopped => End::Stopped,
        Failure::Code(number) => End::Failed(Failure::Code(number)),
        Failure::NoRule => End::Failed(Failure::NoRule),
        Failure::Depth => End::Failed(Failure::Depth),
        Failure::Spent => End::Failed(Failure::Spent),
        Failure::LongText => End::Failed(Failure::LongText),
    }
}

// These numbers may stand in the catalogue. It does nothing.
fn are_kept(run: u64, number: u64, user: u32)
    ensures { IsTrue (u64 run).fits × IsTrue (u64 number).fits × IsTrue (u32 user).fits }
{}

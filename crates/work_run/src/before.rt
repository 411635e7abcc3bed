//! The rules before an operation or a query.
ghost use Rattle.std.specs.Prelude.{◌≡◌, ◌+◌, ◌^◌, ◌≤◌, IsErrOf, IsTrue, None, Some, [], Err, false, map, vec_len, ℕ, ◌*◌};
ghost use Rattle.grid_outside.specs.Source.{SourceState};
ghost use Rattle.grid_model.specs.Applying.{is_user};
ghost use Rattle.grid_model.specs.Checks.{first_fault, rules_faults};
ghost use Rattle.grid_model.specs.Parsed.{rule_of};
ghost use Rattle.grid_model.specs.Points.{Point};
ghost use Rattle.grid_model.specs.RowGrids.{user_name, grid_of};
ghost use Rattle.grid_model.specs.Runs.{Request};
ghost use Rattle.grid_model.specs.Sessions.{State};
ghost use Rattle.grid_deed.specs.Held.{IsHeld};
ghost use Rattle.size_laws.specs.Within.{TakesAtMost};
ghost use Rattle.chain_core.specs.Rest.{steps_begun, took_stop};
ghost use Rattle.chain_core.specs.Seen.{rules_of};
ghost use Rattle.point_laws.specs.Works.{Work};
ghost use Rattle.row_run.specs.Verbs.{HasGoodWords};
ghost use Rattle.run_laws.specs.Passes.{AreReady, CallsPass};
ghost use Rattle.run_laws.specs.Steps.{CallsNoRules};
ghost use Rattle.service_run.specs.Commands.{place_by};
ghost use Rattle.service_run.specs.declared.command.Command.{Command};
ghost use Rattle.service_run.specs.declared.ending.Ending.{Ending};
ghost use Rattle.call_laws.specs.OneCall.{AreKeepable, IsKeepable};
ghost use Rattle.rule_run.specs.Asked.{IsAsked};
ghost use Rattle.rule_run.specs.Executing.{Executes};
ghost use Rattle.work_run.specs.Behind.{IsBehind, from_start};
ghost use Rattle.work_run.specs.Pointed.{IsPoint};
ghost use Rattle.work_run.specs.Verbs.{HasWork, WorksAs};
ghost use Rattle.work_run.specs.Works.{DoesSo, MakesFilesBy};

use crate::after::After;
use crate::between::do_work;
use crate::concluding::conclude;
use crate::ending::{failed_before, failure_of, no_rows};
use chain_core::{Frames, RuleBase};
use grid_journal::Store;
use grid_model::{Text, Verb};
use grid_outside::{Ambient, Disk, Outside, Plugin, Sink};
use point_laws::{
    names_are_stopped, names_halt, names_take_in_order, pre_ends, works_end_by_rows,
    works_send_behind, works_take_in_order,
};
use rule_cond::Env;
use rule_run::run_point;
use service_run::{Command, Ending};
use std::alloc::Global;

/// Runs the rules of a name before the operation or the query of a verb for a request, and what is behind them.
pub(crate) fn run_before<D: Disk, K: Sink, A: Ambient, P: Plugin>(
    alloc: Global,
    store: &mut Store,
    outside: &mut Outside<D, A, P>,
    sink: &mut K,
    frames: Frames,
    rules: &RuleBase,
    env: Env,
    command: Command,
    verb: &Verb,
    body: &[u8],
    pre: Text,
    post: Text,
) -> Result<(), Ending>
    requires held { IsHeld store.old.cat (D.disk outside.old.main) store.old }
    requires user { IsTrue (is_user store.old.cat command.user) }
    requires name { user_name store.old.cat command.user ≡ env.user }
    requires keepable { IsKeepable command × AreKeepable command [] }
    requires slots { store.old.cat.stores ≡ vec_len outside.old.stores }
    requires words { HasGoodWords verb.now }
    requires verb { HasWork verb.now body.now }
    requires frames { took_stop frames ≡ false }
    requires checked { first_fault (rules_faults (map rule_of rules.now.rules)) ≡ None }
    requires ready { AreReady D.disk P.plugin K.sink (2 ^ 79) (record { outside = outside.old; sink = sink.old }) }
    ensures executes { (source : SourceState) (at : State) (request : Request) (w : Work) (p : Point) → IsAsked at request store.old.cat command →
        WorksAs verb.now body.now w → DoesSo at request env.user w → at.rules ≡ rules_of rules.now → (CallsNoRules at request → ⊥) →
        IsPoint p env pre post →
        IsBehind at request [] (place_by store.old.cat command) (steps_begun frames) (from_start at (Some p) env.user w) → MakesFilesBy request w →
        Executes D.disk A.ambient P.plugin K.sink source at request store.old.cat command
        (record { outside = outside.old; sink = sink.old }) (record { outside = outside.new; sink = sink.new }) result store.new }
    ensures passes { CallsPass D.disk P.plugin K.sink (IsErrOf result Ending.Disk) (IsErrOf result Ending.Sink)
        (record { outside = outside.old; sink = sink.old }) (record { outside = outside.new; sink = sink.new }) }
    ensures drawn { (each : ℕ) → TakesAtMost (grid_of store.old.cat) each → outside.new.moments ≤ outside.old.moments + 2 ^ 14 * each }
{
    names_halt();
    names_are_stopped();
    names_take_in_order();
    pre_ends();
    works_end_by_rows();
    works_send_behind();
    works_take_in_order();
    let mut frames = frames;
    let mut command = command;
    let mut left = 8192;
    let outcome = match run_point(
        alloc,
        store,
        outside,
        sink,
        &mut frames,
        rules,
        &env,
        &mut command,
        pre,
        &mut left,
    ) {
        Ok(outcome) => outcome,
        Err(ending) => {
            drop(command);
            drop(frames);
            drop(env);
            drop(post);
            return Err(ending);
        }
    };
    match failure_of(outcome) {
        Some(failure) => {
            drop(frames);
            drop(env);
            drop(post);
            let end = failed_before(failure);
            conclude(alloc, store, outside, sink, command, no_rows(alloc), end)
        }
        None => {
            let after = After {
                frames,
                env,
                post,
                left,
            };
            do_work(
                alloc,
                store,
                outside,
                sink,
                rules,
                command,
                verb,
                body,
                Some(after),
            )
        }
    }
}

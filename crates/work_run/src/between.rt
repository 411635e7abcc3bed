//! The operation or the query between its rules.
ghost use Rattle.std.specs.Prelude.{◌≡◌, ℕ, ◌+◌, ◌^◌, ◌≤◌, IsErrOf, IsTrue, List, None, Option, [], Err, map, vec_len};
ghost use Rattle.grid_outside.specs.Source.{SourceState};
ghost use Rattle.grid_model.specs.Applying.{is_user};
ghost use Rattle.grid_model.specs.Checks.{first_fault, rules_faults};
ghost use Rattle.grid_model.specs.Names.{Text as TextOf};
ghost use Rattle.grid_model.specs.Parsed.{rule_of};
ghost use Rattle.grid_model.specs.Points.{Point};
ghost use Rattle.grid_model.specs.RowGrids.{grid_of, user_name};
ghost use Rattle.grid_model.specs.Rows.{Cat};
ghost use Rattle.grid_model.specs.Runs.{Request};
ghost use Rattle.grid_model.specs.Sessions.{State};
ghost use Rattle.grid_model.specs.declared.marks.Mark.{Mark};
ghost use Rattle.grid_deed.specs.Held.{IsHeld};
ghost use Rattle.size_laws.specs.Within.{TakesAtMost};
ghost use Rattle.chain_core.specs.Seen.{rules_of};
ghost use Rattle.point_laws.specs.Works.{Work};
ghost use Rattle.row_run.specs.Verbs.{HasGoodWords};
ghost use Rattle.run_laws.specs.Passes.{AreReady, CallsPass, Seen};
ghost use Rattle.service_run.specs.Commands.{place_by};
ghost use Rattle.service_run.specs.Steps.{lines_of};
ghost use Rattle.service_run.specs.declared.command.Command.{Command};
ghost use Rattle.service_run.specs.declared.ending.Ending.{Ending};
ghost use Rattle.call_laws.specs.Amid.{IsAmid};
ghost use Rattle.call_laws.specs.OneCall.{AreKeepable, IsKeepable};
ghost use Rattle.rule_run.specs.Asked.{IsAsked, asked_setting};
ghost use Rattle.rule_run.specs.Executing.{Executes};
ghost use Rattle.rule_run.specs.Finishing.{HasNothing};
ghost use Rattle.work_run.specs.Behind.{BeginsWithNothing, IsBehind, from_work};
ghost use Rattle.work_run.specs.Pointed.{AreFor, RunsAfter, begun_by, draws_by};
ghost use Rattle.work_run.specs.Verbs.{HasWork, IsIdle, MayMakeFile, WorksAs, is_call};
ghost use Rattle.work_run.specs.Works.{DoesSo, MakesFilesBy};

use crate::after::After;
use crate::calling::call_for;
use crate::getting::get_for;
use crate::showing::show_for;
use chain_core::RuleBase;
use grid_journal::Store;
use grid_model::Verb;
use grid_outside::{Ambient, Disk, Outside, Plugin, Sink, Wear};
use service_run::{Command, Ending};
use std::alloc::Global;

/// Does the operation of a verb, or shows the rows of its query, for a request whose rules before it held, and what is behind it. `body` is
/// what a put puts.
pub(crate) fn do_work<D: Disk, K: Sink, A: Ambient, P: Plugin>(
    alloc: Global,
    store: &mut Store,
    outside: &mut Outside<D, A, P>,
    sink: &mut K,
    rules: &RuleBase,
    command: Command,
    verb: &Verb,
    body: &[u8],
    after: Option<After>,
) -> Result<(), Ending>
    requires held { (kept : Cat) × IsHeld kept (D.disk outside.old.main) store.old }
    requires user { IsTrue (is_user store.old.cat command.user) }
    requires name { AreFor after (user_name store.old.cat command.user) }
    requires keepable { IsKeepable command × AreKeepable command [] }
    requires slots { store.old.cat.stores ≡ vec_len outside.old.stores }
    requires words { HasGoodWords verb.now }
    requires verb { HasWork verb.now body.now }
    requires checked { first_fault (rules_faults (map rule_of rules.now.rules)) ≡ None }
    requires ready { AreReady D.disk P.plugin K.sink (2 ^ 65 + draws_by (2 ^ 65) after) (record { outside = outside.old; sink = sink.old }) }
    ensures executes { (source : SourceState) (at : State) (request : Request) (before : Cat) (x : Command) (from : Seen D A P K) (taken : List Mark)
        (w : Work) (p : Option Point) → IsAsked at request before x → WorksAs verb.now body.now w → DoesSo at request (user_name store.old.cat command.user) w →
        RunsAfter at request (rules_of rules.now) after p →
        IsAmid D.disk A.ambient P.plugin K.sink source (asked_setting at request before x (lines_of x.number)) from
        (record { outside = outside.old; sink = sink.old }) command store.old taken →
        IsBehind at request taken (place_by store.old.cat command) (begun_by after) (from_work at p (user_name store.old.cat command.user) w) →
        BeginsWithNothing at request before store.old command (D.disk from.outside.main) (D.disk outside.old.main) →
        MakesFilesBy request w →
        Executes D.disk A.ambient P.plugin K.sink source at request before x from (record { outside = outside.new; sink = sink.new }) result store.new }
    ensures passes { CallsPass D.disk P.plugin K.sink (IsErrOf result Ending.Disk) (IsErrOf result Ending.Sink)
        (record { outside = outside.old; sink = sink.old }) (record { outside = outside.new; sink = sink.new }) }
    // Without rules behind it, what changes nothing whatever marks come calls the sink alone.
    ensures idle { after ≡ None → HasNothing store.old command →
        IsIdle (grid_of store.old.cat) (user_name store.old.cat command.user) verb.now body.now →
        (outside.new.main ≡ outside.old.main) × (outside.new.stores ≡ outside.old.stores) }
    // Without them the numbers of vault files run out only in an operation that makes files.
    ensures files { (count place : ℕ) → after ≡ None → result ≡ Err (Ending.Worn Wear.Vaults place) → MayMakeFile count verb.now body.now }
    ensures drawn { (each : ℕ) → TakesAtMost (grid_of store.old.cat) each → outside.new.moments ≤ outside.old.moments + (each + draws_by each after) }
{
    if is_call(verb) {
        return call_for(
            alloc, store, outside, sink, rules, command, verb, body, after,
        );
    }
    match verb {
        Verb::Get { path, resource } => get_for(
            alloc,
            store,
            outside,
            sink,
            rules,
            command,
            path,
            resource.as_ref(),
            after,
        ),
        Verb::Query { text } => show_for(alloc, store, outside, sink, rules, command, text, after),
        _ => unreachable!(),
    }
}

// Whether the verb is done as a call of the command, where it has an operation.
fn is_call(verb: &Verb) -> bool
    ensures { result ≡ is_call verb.now }
{
    match verb {
        Verb::Get {
            path: _,
            resource: _,
        } => false,
        Verb::Query { text: _ } => false,
        _ => true,
    }
}

//! An operation that is done as a call of the command.
ghost use Rattle.std.specs.Prelude.{◌≡◌, ℕ, ◌+◌, ◌^◌, ◌≤◌, IsErrOf, IsTrue, List, None, Option, [], Err, map, true, vec_len};
ghost use Rattle.grid_outside.specs.Source.{SourceState};
ghost use Rattle.grid_model.specs.Applying.{is_user};
ghost use Rattle.grid_model.specs.Checks.{first_fault, rules_faults};
ghost use Rattle.grid_model.specs.Names.{Text as TextOf};
ghost use Rattle.grid_model.specs.Operations.Table.{Operation, row};
ghost use Rattle.grid_model.specs.Orders.{works};
ghost use Rattle.grid_model.specs.Parsed.{rule_of};
ghost use Rattle.grid_model.specs.Points.{Point};
ghost use Rattle.grid_model.specs.RowGrids.{grid_of, user_name};
ghost use Rattle.grid_model.specs.Rows.{Cat};
ghost use Rattle.grid_model.specs.Runs.{Request};
ghost use Rattle.grid_model.specs.Sessions.{State};
ghost use Rattle.grid_model.specs.declared.marks.Mark.{Mark};
ghost use Rattle.grid_model.specs.declared.refusal.Refusal.{Refusal as RefusalOf};
ghost use Rattle.grid_deed.specs.Held.{IsHeld};
ghost use Rattle.size_laws.specs.Within.{TakesAtMost};
ghost use Rattle.chain_core.specs.Seen.{rules_of};
ghost use Rattle.point_laws.specs.Works.{operation};
ghost use Rattle.row_run.specs.Verbs.{HasGoodWords, WorksBy};
ghost use Rattle.run_laws.specs.Ends.{MakesFile};
ghost use Rattle.run_laws.specs.Passes.{AreReady, CallsPass, Seen};
ghost use Rattle.service_run.specs.Commands.{place_by};
ghost use Rattle.service_run.specs.Steps.{lines_of};
ghost use Rattle.service_run.specs.declared.command.Command.{Command};
ghost use Rattle.service_run.specs.declared.ending.Ending.{Ending};
ghost use Rattle.call_laws.specs.Amid.{IsAmid};
ghost use Rattle.call_laws.specs.OneCall.{AreKeepable, IsKeepable};
ghost use Rattle.rule_run.specs.Asked.{IsAsked, asked_setting};
ghost use Rattle.rule_run.specs.Executing.{Executes};
ghost use Rattle.rule_run.specs.Finishing.{HasNothing};
ghost use Rattle.work_run.specs.Behind.{BeginsWithNothing, IsBehind, from_work};
ghost use Rattle.work_run.specs.Pointed.{AreFor, RunsAfter, begun_by, draws_by};
ghost use Rattle.work_run.specs.Verbs.{is_call};
ghost use Rattle.work_run.specs.Works.{DoesSo, MakesFilesBy};

use crate::after::{After, finish_work};
use crate::concluding::conclude;
use crate::ending::{failed, no_rows};
use crate::working::{op_words, work};
use chain_core::RuleBase;
use grid_journal::Store;
use grid_model::Verb;
use grid_outside::{Ambient, Disk, Outside, Plugin, Sink, Wear};
use point_laws::{work_ends, works_end_by_rows, works_send_behind, works_take_in_order};
use service_run::{Command, Ending};
use std::alloc::{AllocError, Global};

/// Does the operation of a verb, which sends no bytes, for a request whose rules before it held, and what is behind it. `body` is what a put
/// puts.
pub(crate) fn call_for<D: Disk, K: Sink, A: Ambient, P: Plugin>(
    alloc: Global,
    store: &mut Store,
    outside: &mut Outside<D, A, P>,
    sink: &mut K,
    rules: &RuleBase,
    command: Command,
    verb: &Verb,
    body: &[u8],
    after: Option<After>,
) -> Result<(), Ending>
    requires held { (kept : Cat) × IsHeld kept (D.disk outside.old.main) store.old }
    requires user { IsTrue (is_user store.old.cat command.user) }
    requires name { AreFor after (user_name store.old.cat command.user) }
    requires keepable { IsKeepable command × AreKeepable command [] }
    requires slots { store.old.cat.stores ≡ vec_len outside.old.stores }
    requires words { HasGoodWords verb.now }
    requires verb { (op : Operation) × WorksBy verb.now body.now op }
    requires call { is_call verb.now ≡ true }
    requires checked { first_fault (rules_faults (map rule_of rules.now.rules)) ≡ None }
    requires ready { AreReady D.disk P.plugin K.sink (2 ^ 65 + draws_by (2 ^ 65) after) (record { outside = outside.old; sink = sink.old }) }
    ensures executes { (source : SourceState) (at : State) (request : Request) (before : Cat) (x : Command) (from : Seen D A P K) (taken : List Mark)
        (op : Operation) (p : Option Point) → IsAsked at request before x → WorksBy verb.now body.now op → DoesSo at request (user_name store.old.cat command.user) (operation op) →
        RunsAfter at request (rules_of rules.now) after p →
        IsAmid D.disk A.ambient P.plugin K.sink source (asked_setting at request before x (lines_of x.number)) from
        (record { outside = outside.old; sink = sink.old }) command store.old taken →
        IsBehind at request taken (place_by store.old.cat command) (begun_by after) (from_work at p (user_name store.old.cat command.user) (operation op)) →
        BeginsWithNothing at request before store.old command (D.disk from.outside.main) (D.disk outside.old.main) →
        MakesFilesBy request (operation op) →
        Executes D.disk A.ambient P.plugin K.sink source at request before x from (record { outside = outside.new; sink = sink.new }) result store.new }
    ensures passes { CallsPass D.disk P.plugin K.sink (IsErrOf result Ending.Disk) (IsErrOf result Ending.Sink)
        (record { outside = outside.old; sink = sink.old }) (record { outside = outside.new; sink = sink.new }) }
    // Without rules behind it, one that is refused whatever marks come calls the sink alone.
    ensures idle { (op : Operation) (r : RefusalOf) → WorksBy verb.now body.now op → after ≡ None → HasNothing store.old command →
        row (grid_of store.old.cat) (user_name store.old.cat command.user) op ≡ Err r →
        (outside.new.main ≡ outside.old.main) × (outside.new.stores ≡ outside.old.stores) }
    // Without them the numbers of vault files run out only in an operation that makes files.
    ensures files { (op : Operation) (count place : ℕ) → WorksBy verb.now body.now op → after ≡ None →
        IsErrOf result (Ending.Worn Wear.Vaults place) → MakesFile (works op count) }
    ensures drawn { (each : ℕ) → TakesAtMost (grid_of store.old.cat) each → outside.new.moments ≤ outside.old.moments + (each + draws_by each after) }
{
    work_ends();
    works_end_by_rows();
    works_send_behind();
    works_take_in_order();
    let words = match op_words(alloc, store.tables(), verb) {
        Ok(words) => words,
        Err(AllocError) => {
            drop(command);
            drop(after);
            return Err(Ending::Memory);
        }
    };
    let mut command = command;
    match work(alloc, store, outside, sink, &mut command, verb, body) {
        Ok(Ok(())) => {
            let rows = no_rows(alloc);
            finish_work(
                alloc, store, outside, sink, rules, command, after, words, rows,
            )
        }
        Ok(Err(failure)) => {
            drop(after);
            drop(words);
            let rows = no_rows(alloc);
            conclude(alloc, store, outside, sink, command, rows, failed(failure))
        }
        Err(ending) => {
            drop(command);
            drop(after);
            drop(words);
            Err(ending)
        }
    }
}

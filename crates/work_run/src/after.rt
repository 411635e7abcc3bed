//! The rules after an operation or a query that was done, and the end of its request.
ghost use Rattle.std.specs.Prelude.{◌≡◌, ℕ, ◌+◌, ◌*◌, ◌^◌, ◌≤◌, IsErrOf, IsTrue, List, None, Option, Some, [], Err, map, vec_len};
ghost use Rattle.std.specs.List.{list_all};
ghost use Rattle.grid_outside.specs.Source.{SourceState};
ghost use Rattle.grid_model.specs.Applying.{is_user};
ghost use Rattle.grid_model.specs.Checks.{first_fault, rules_faults};
ghost use Rattle.grid_model.specs.Names.{Text as TextOf};
ghost use Rattle.grid_model.specs.Parsed.{rule_of};
ghost use Rattle.grid_model.specs.Points.{Point};
ghost use Rattle.grid_model.specs.RowGrids.{user_name, grid_of};
ghost use Rattle.grid_model.specs.Rows.{Cat};
ghost use Rattle.grid_model.specs.Runs.{Request};
ghost use Rattle.grid_model.specs.Sessions.{State};
ghost use Rattle.grid_model.specs.Working.{Sent};
ghost use Rattle.grid_model.specs.Writable.{is_word};
ghost use Rattle.grid_model.specs.declared.marks.Mark.{Mark};
ghost use Rattle.grid_deed.specs.Held.{IsHeld};
ghost use Rattle.grid_headline.specs.Files.{IsKnown};
ghost use Rattle.size_laws.specs.Within.{TakesAtMost};
ghost use Rattle.chain_core.specs.Rest.{steps_begun};
ghost use Rattle.chain_core.specs.Seen.{rules_of};
ghost use Rattle.point_laws.specs.Works.{IsAskedSo, Work};
ghost use Rattle.run_laws.specs.Around.{around};
ghost use Rattle.run_laws.specs.Passes.{AreReady, CallsPass, Seen};
ghost use Rattle.service_run.specs.Commands.{place_by};
ghost use Rattle.service_run.specs.declared.command.Command.{Command};
ghost use Rattle.service_run.specs.declared.ending.Ending.{Ending};
ghost use Rattle.call_laws.specs.Amid.{IsAmid};
ghost use Rattle.call_laws.specs.OneCall.{AreKeepable, IsKeepable};
ghost use Rattle.rule_run.specs.Asked.{IsAsked, asked_setting};
ghost use Rattle.rule_run.specs.Executing.{Executes};
ghost use Rattle.rule_run.specs.Finishing.{HasNothing};
ghost use Rattle.work_run.specs.Behind.{HasNumber, IsBehind, LeavesNothing, from_worked};
ghost use Rattle.work_run.specs.Pointed.{AreFor, IsAfter, RunsAfter, begun_by, draws_by};
ghost use Rattle.work_run.specs.Telling.{TellsSo};
ghost use Rattle.work_run.specs.Works.{DoesSo};

use crate::concluding::conclude;
use crate::ending::{failed_after, failure_of, rows_told};
use chain_core::{Frames, RuleBase};
use grid_journal::Store;
use grid_model::{End, Rows, Text, Texts};
use grid_outside::{Ambient, Disk, Outside, Plugin, Sink, Wear};
use point_laws::{names_are_stopped, names_halt, works_end_by_rows, works_take_in_order};
use rule_cond::Env;
use rule_run::run_point;
use service_run::{Command, Ending};
use std::alloc::Global;

/// The rules after an operation or a query that are still to be run: how far the machine has come, their session variables and their name, and
/// how many calls are left.
#[derive(Drop)]
pub(crate) struct After {
    pub(crate) frames: Frames,
    pub(crate) env: Env,
    pub(crate) post: Text,
    pub(crate) left: u64,
}

/// Ends a request whose operation or query was done: the rules behind it are run, where there are any, and where they hold it ends with these
/// words and shows these rows.
pub(crate) fn finish_work<D: Disk, K: Sink, A: Ambient, P: Plugin>(
    alloc: Global,
    store: &mut Store,
    outside: &mut Outside<D, A, P>,
    sink: &mut K,
    rules: &RuleBase,
    command: Command,
    after: Option<After>,
    words: Texts,
    rows: Rows,
) -> Result<(), Ending>
    requires held { (kept : Cat) × IsHeld kept (D.disk outside.old.main) store.old }
    requires user { IsTrue (is_user store.old.cat command.user) }
    requires name { AreFor after (user_name store.old.cat command.user) }
    requires keepable { IsKeepable command × AreKeepable command [] }
    requires slots { store.old.cat.stores ≡ vec_len outside.old.stores }
    requires shown { IsTrue (list_all is_word words) }
    requires rows { IsTrue (list_all (list_all is_word) rows) }
    requires checked { first_fault (rules_faults (map rule_of rules.now.rules)) ≡ None }
    requires ready { AreReady D.disk P.plugin K.sink (draws_by (2 ^ 65) after) (record { outside = outside.old; sink = sink.old }) }
    ensures executes { (source : SourceState) (at : State) (request : Request) (before : Cat) (x : Command) (from : Seen D A P K) (taken : List Mark)
        (user : TextOf) (w : Work) (p : Option Point) (text_of : List Mark → TextOf) (sent : Option Sent) → IsAsked at request before x →
        DoesSo at request user w → IsAskedSo w → RunsAfter at request (rules_of rules.now) after p →
        IsAmid D.disk A.ambient P.plugin K.sink source (asked_setting at request before x text_of) from
        (record { outside = outside.old; sink = sink.old }) command store.old taken →
        TellsSo (IsKnown (around D.disk A.ambient P.plugin from.outside (K.sink from.sink) source) before) x.number text_of sent taken →
        IsBehind at request taken (place_by store.old.cat command) (begun_by after) (from_worked at p (record { words = words; rows = rows; sent = sent })) →
        LeavesNothing at request before store.old command (D.disk from.outside.main) (D.disk outside.old.main) → HasNumber request before →
        Executes D.disk A.ambient P.plugin K.sink source at request before x from (record { outside = outside.new; sink = sink.new }) result store.new }
    ensures vaults { (place : ℕ) → after ≡ None → IsErrOf result (Ending.Worn Wear.Vaults place) → ⊥ }
    ensures passes { CallsPass D.disk P.plugin K.sink (IsErrOf result Ending.Disk) (IsErrOf result Ending.Sink)
        (record { outside = outside.old; sink = sink.old }) (record { outside = outside.new; sink = sink.new }) }
    ensures idle { after ≡ None → HasNothing store.old command → (outside.new.main ≡ outside.old.main) × (outside.new.stores ≡ outside.old.stores) }
    ensures drawn { (each : ℕ) → TakesAtMost (grid_of store.old.cat) each → outside.new.moments ≤ outside.old.moments + draws_by each after }
{
    match after {
        Some(after) => end_work(
            alloc, store, outside, sink, rules, command, after, words, rows,
        ),
        None => conclude(alloc, store, outside, sink, command, rows, End::Done(words)),
    }
}

// Runs these rules after the operation or the query of a request, which was done, and ends it: where they hold with these words and rows.
fn end_work<D: Disk, K: Sink, A: Ambient, P: Plugin>(
    alloc: Global,
    store: &mut Store,
    outside: &mut Outside<D, A, P>,
    sink: &mut K,
    rules: &RuleBase,
    command: Command,
    after: After,
    words: Texts,
    rows: Rows,
) -> Result<(), Ending>
    requires held { (kept : Cat) × IsHeld kept (D.disk outside.old.main) store.old }
    requires user { IsTrue (is_user store.old.cat command.user) }
    requires name { user_name store.old.cat command.user ≡ after.env.user }
    requires keepable { IsKeepable command × AreKeepable command [] }
    requires slots { store.old.cat.stores ≡ vec_len outside.old.stores }
    requires shown { IsTrue (list_all is_word words) }
    requires rows { IsTrue (list_all (list_all is_word) rows) }
    requires checked { first_fault (rules_faults (map rule_of rules.now.rules)) ≡ None }
    requires ready { AreReady D.disk P.plugin K.sink (after.left * 2 ^ 65 + 5) (record { outside = outside.old; sink = sink.old }) }
    ensures executes { (source : SourceState) (at : State) (request : Request) (before : Cat) (x : Command) (from : Seen D A P K) (taken : List Mark)
        (user : TextOf) (w : Work) (p : Point) (text_of : List Mark → TextOf) (sent : Option Sent) → IsAsked at request before x →
        DoesSo at request user w → IsAskedSo w →
        IsAfter at request (rules_of rules.now) after p →
        IsAmid D.disk A.ambient P.plugin K.sink source (asked_setting at request before x text_of) from
        (record { outside = outside.old; sink = sink.old }) command store.old taken →
        TellsSo (IsKnown (around D.disk A.ambient P.plugin from.outside (K.sink from.sink) source) before) x.number text_of sent taken →
        IsBehind at request taken (place_by store.old.cat command) (steps_begun after.frames)
        (from_worked at (Some p) (record { words = words; rows = rows; sent = sent })) → HasNumber request before →
        Executes D.disk A.ambient P.plugin K.sink source at request before x from (record { outside = outside.new; sink = sink.new }) result store.new }
    ensures passes { CallsPass D.disk P.plugin K.sink (IsErrOf result Ending.Disk) (IsErrOf result Ending.Sink)
        (record { outside = outside.old; sink = sink.old }) (record { outside = outside.new; sink = sink.new }) }
    ensures drawn { (each : ℕ) → TakesAtMost (grid_of store.old.cat) each → outside.new.moments ≤ outside.old.moments + (after.left * each + 5) }
{
    names_halt();
    names_are_stopped();
    works_end_by_rows();
    works_take_in_order();
    let After {
        frames,
        env,
        post,
        left,
    } = after;
    let mut frames = frames;
    let mut command = command;
    let mut left = left;
    let outcome = match run_point(
        alloc,
        store,
        outside,
        sink,
        &mut frames,
        rules,
        &env,
        &mut command,
        post,
        &mut left,
    ) {
        Ok(outcome) => outcome,
        Err(ending) => {
            drop(command);
            drop(frames);
            drop(env);
            drop(words);
            drop(rows);
            return Err(ending);
        }
    };
    drop(frames);
    drop(env);
    match failure_of(outcome) {
        Some(failure) => {
            drop(words);
            let end = failed_after(failure);
            let rows = rows_told(alloc, &end, rows);
            conclude(alloc, store, outside, sink, command, rows, end)
        }
        None => conclude(alloc, store, outside, sink, command, rows, End::Done(words)),
    }
}

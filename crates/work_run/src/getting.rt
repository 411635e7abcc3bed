//! A get: its file is told as it is read.
ghost use Rattle.std.specs.Prelude.{◌≡◌, ℕ, ◌+◌, ◌^◌, ◌≤◌, ◌∷◌, IfOk, IsErrOf, IsTrue, List, None, Option, [], Err, decimal, map, vec_len};
ghost use Rattle.std.specs.List.{list_all};
ghost use Rattle.std.specs.Option.{option_copied};
ghost use Rattle.grid_outside.specs.Source.{SourceState};
ghost use Rattle.grid_model.specs.Applying.{is_user};
ghost use Rattle.grid_model.specs.Checks.{first_fault, rules_faults};
ghost use Rattle.grid_model.specs.Names.{Text as TextOf};
ghost use Rattle.grid_model.specs.Operations.Table.{get as get_of, row};
ghost use Rattle.grid_model.specs.Parsed.{rule_of};
ghost use Rattle.grid_model.specs.Points.{Point};
ghost use Rattle.grid_model.specs.RowGrids.{grid_of, user_name};
ghost use Rattle.grid_model.specs.Rows.{Cat};
ghost use Rattle.grid_model.specs.Runs.{Request};
ghost use Rattle.grid_model.specs.Sessions.{State};
ghost use Rattle.grid_model.specs.declared.marks.Mark.{Mark};
ghost use Rattle.grid_model.specs.declared.refusal.Refusal.{Refusal as RefusalOf};
ghost use Rattle.grid_model.specs.Writable.{is_word};
ghost use Rattle.grid_deed.specs.Held.{IsHeld};
ghost use Rattle.size_laws.specs.Within.{TakesAtMost, IsWithin};
ghost use Rattle.chain_core.specs.Seen.{rules_of};
ghost use Rattle.plan_object.specs.Sending.{Sends};
ghost use Rattle.point_laws.specs.Works.{operation};
ghost use Rattle.row_run.specs.Verbs.{IsWordIfAny};
ghost use Rattle.run_laws.specs.Passes.{AreReady, CallsPass, Seen};
ghost use Rattle.service_run.specs.Commands.{place_by};
ghost use Rattle.service_run.specs.Steps.{lines_of};
ghost use Rattle.service_run.specs.declared.command.Command.{Command};
ghost use Rattle.service_run.specs.declared.ending.Ending.{Ending};
ghost use Rattle.call_laws.specs.Amid.{IsAmid};
ghost use Rattle.call_laws.specs.OneCall.{AreKeepable, IsKeepable};
ghost use Rattle.rule_run.specs.Asked.{IsAsked, asked_setting};
ghost use Rattle.rule_run.specs.Executing.{Executes};
ghost use Rattle.rule_run.specs.Finishing.{HasNothing};
ghost use Rattle.work_run.specs.Behind.{BeginsWithNothing, IsBehind, from_work};
ghost use Rattle.work_run.specs.Fetched.{FetchEnds};
ghost use Rattle.work_run.specs.Next.{CanGoOn};
ghost use Rattle.work_run.specs.Pointed.{AreFor, RunsAfter, begun_by, draws_by};
ghost use Rattle.work_run.specs.Works.{DoesSo, MakesFilesBy};

use crate::after::{After, finish_work};
use crate::concluding::conclude;
use crate::ending::{failed, no_rows};
use crate::noting::note_get;
use chain_core::RuleBase;
use deed_run::send_file;
use grid_journal::Store;
use grid_model::{End, Failure, OldFile, Path, Text, Texts};
use grid_outside::{Ambient, Disk, Outside, Plugin, Sink, Wear};
use plan_list::number_text;
use plan_object::plan_get;
use point_laws::{
    after_work_ends, after_work_sends, work_ends, works_end_by_rows, works_send_behind,
    works_take_in_order,
};
use service_run::{Command, Ending};
use std::alloc::{AllocError, Global};

/// Gets the object at the path for a request whose rules before it held, from the asked resource where one is asked for, and what is behind
/// it.
pub(crate) fn get_for<D: Disk, K: Sink, A: Ambient, P: Plugin>(
    alloc: Global,
    store: &mut Store,
    outside: &mut Outside<D, A, P>,
    sink: &mut K,
    rules: &RuleBase,
    command: Command,
    path: &Path,
    asked: Option<&Text>,
    after: Option<After>,
) -> Result<(), Ending>
    requires held { (kept : Cat) × IsHeld kept (D.disk outside.old.main) store.old }
    requires user { IsTrue (is_user store.old.cat command.user) }
    requires name { AreFor after (user_name store.old.cat command.user) }
    requires keepable { IsKeepable command × AreKeepable command [] }
    requires slots { store.old.cat.stores ≡ vec_len outside.old.stores }
    requires asked { IsWordIfAny (option_copied asked) }
    requires checked { first_fault (rules_faults (map rule_of rules.now.rules)) ≡ None }
    requires ready { AreReady D.disk P.plugin K.sink (2 ^ 65 + draws_by (2 ^ 65) after) (record { outside = outside.old; sink = sink.old }) }
    ensures executes { (source : SourceState) (at : State) (request : Request) (before : Cat) (x : Command) (from : Seen D A P K) (taken : List Mark)
        (p : Option Point) → IsAsked at request before x →
        DoesSo at request (user_name store.old.cat command.user) (operation (get_of path.now (option_copied asked.entry))) →
        RunsAfter at request (rules_of rules.now) after p →
        IsAmid D.disk A.ambient P.plugin K.sink source (asked_setting at request before x (lines_of x.number)) from
        (record { outside = outside.old; sink = sink.old }) command store.old taken →
        IsBehind at request taken (place_by store.old.cat command) (begun_by after)
        (from_work at p (user_name store.old.cat command.user) (operation (get_of path.now (option_copied asked.entry)))) →
        BeginsWithNothing at request before store.old command (D.disk from.outside.main) (D.disk outside.old.main) →
        MakesFilesBy request (operation (get_of path.now (option_copied asked.entry))) →
        Executes D.disk A.ambient P.plugin K.sink source at request before x from (record { outside = outside.new; sink = sink.new }) result store.new }
    ensures passes { CallsPass D.disk P.plugin K.sink (IsErrOf result Ending.Disk) (IsErrOf result Ending.Sink)
        (record { outside = outside.old; sink = sink.old }) (record { outside = outside.new; sink = sink.new }) }
    // Without rules behind it, one that is refused calls the sink alone.
    ensures idle { (r : RefusalOf) → after ≡ None → HasNothing store.old command →
        row (grid_of store.old.cat) (user_name store.old.cat command.user) (get_of path.now (option_copied asked.entry)) ≡ Err r →
        (outside.new.main ≡ outside.old.main) × (outside.new.stores ≡ outside.old.stores) }
    // Without them what runs out is not the numbers of vault files.
    ensures vaults { (place : ℕ) → after ≡ None → IsErrOf result (Ending.Worn Wear.Vaults place) → ⊥ }
    ensures drawn { (each : ℕ) → TakesAtMost (grid_of store.old.cat) each → outside.new.moments ≤ outside.old.moments + (each + draws_by each after) }
{
    work_ends();
    works_end_by_rows();
    works_send_behind();
    works_take_in_order();
    let file = match plan_get(store.tables(), command.user, path, asked) {
        Ok(file) => file,
        Err(refusal) => {
            drop(after);
            let rows = no_rows(alloc);
            return conclude(
                alloc,
                store,
                outside,
                sink,
                command,
                rows,
                End::Refused(refusal),
            );
        }
    };
    let words = match one_number(alloc, file.number) {
        Ok(words) => words,
        Err(AllocError) => {
            drop(command);
            drop(after);
            return Err(Ending::Memory);
        }
    };
    let mut command = command;
    match fetch(
        alloc,
        store,
        outside,
        sink,
        &mut command,
        path,
        asked,
        &file,
    ) {
        Ok(Ok(())) => {
            let rows = no_rows(alloc);
            finish_work(
                alloc, store, outside, sink, rules, command, after, words, rows,
            )
        }
        Ok(Err(failure)) => {
            drop(after);
            drop(words);
            let rows = no_rows(alloc);
            conclude(alloc, store, outside, sink, command, rows, failed(failure))
        }
        Err(ending) => {
            drop(command);
            drop(after);
            drop(words);
            Err(ending)
        }
    }
}

// Notes a get, where lines are still to be told, and sends its file. The answer is how it came out, and an error ends the command.
fn fetch<D: Disk, K: Sink, A: Ambient, P: Plugin>(
    alloc: Global,
    store: &mut Store,
    outside: &mut Outside<D, A, P>,
    sink: &mut K,
    command: &mut Command,
    path: &Path,
    asked: Option<&Text>,
    file: &OldFile,
) -> Result<Result<(), Failure>, Ending>
    requires held { (kept : Cat) × IsHeld kept (D.disk outside.old.main) store.old }
    requires user { IsTrue (is_user store.old.cat command.old.user) }
    requires keepable { IsKeepable command.old × AreKeepable command.old [] }
    requires slots { store.old.cat.stores ≡ vec_len outside.old.stores }
    requires asked { IsWordIfAny (option_copied asked) }
    requires file { Sends store.old.cat (user_name store.old.cat command.old.user) path.now (option_copied asked) file.now }
    requires ready { AreReady D.disk P.plugin K.sink (2 ^ 65) (record { outside = outside.old; sink = sink.old }) }
    ensures fetches { (source : SourceState) (at : State) (request : Request) (before : Cat) (x : Command) (from : Seen D A P K) (taken : List Mark)
        (p : Option Point) (begun : ℕ) → IsAsked at request before x →
        DoesSo at request (user_name store.old.cat command.old.user) (operation (get_of path.now (option_copied asked.entry))) →
        IsAmid D.disk A.ambient P.plugin K.sink source (asked_setting at request before x (lines_of x.number)) from
        (record { outside = outside.old; sink = sink.old }) command.old store.old taken →
        IsBehind at request taken (place_by store.old.cat command.old) begun
        (from_work at p (user_name store.old.cat command.old.user) (operation (get_of path.now (option_copied asked.entry)))) →
        FetchEnds D.disk A.ambient P.plugin K.sink source at request before x from (record { outside = outside.new; sink = sink.new }) taken
        p begun file.now.number store.new command.new result }
    ensures next { IfOk result (λ ran. CanGoOn (D.disk outside.new.main) store.new command.new) }
    ensures name { IfOk result (λ ran. user_name store.new.cat command.new.user ≡ user_name store.old.cat command.old.user) }
    ensures stores { IfOk result (λ ran. store.new.cat.stores ≡ store.old.cat.stores) }
    ensures within { IfOk result (λ ran. IsWithin (grid_of store.old.cat) → IsWithin (grid_of store.new.cat)) }
    // It took a mark.
    ensures marks { IfOk result (λ ran. command.new.marks ≡ [] → ⊥) }
    ensures vaults { (place : ℕ) → IsErrOf result (Ending.Worn Wear.Vaults place) → ⊥ }
    ensures passes { CallsPass D.disk P.plugin K.sink (IsErrOf result Ending.Disk) (IsErrOf result Ending.Sink)
        (record { outside = outside.old; sink = sink.old }) (record { outside = outside.new; sink = sink.new }) }
    ensures drawn { (each : ℕ) → TakesAtMost (grid_of store.old.cat) each → outside.new.moments ≤ outside.old.moments + each }
{
    after_work_ends();
    after_work_sends();
    work_ends();
    works_end_by_rows();
    works_send_behind();
    works_take_in_order();
    match note_get(alloc, store, outside, sink, command, path, asked) {
        Ok(()) => send_file(alloc, outside, sink, command, file),
        Err(ending) => Err(ending),
    }
}

// The number as the only word.
fn one_number(alloc: Global, number: u32) -> Result<Texts, AllocError>
    ensures is { IfOk result (λ words. words ≡ decimal number ∷ []) }
    ensures words { IfOk result (λ words. IsTrue (list_all is_word words)) }
{
    let word = number_text(alloc, number as u64)?;
    let words = vec![in alloc; word]?;
    Ok(Texts::from_vec(words))
}

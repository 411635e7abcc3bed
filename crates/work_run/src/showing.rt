//! A query: the rows of the grid as it is between the rules of its point.
ghost use Rattle.std.specs.Prelude.{◌≡◌, ℕ, ◌+◌, ◌^◌, ◌≤◌, IfOk, IsErrOf, IsTrue, List, None, Option, [], Err, map, vec_len};
ghost use Rattle.std.specs.List.{list_all};
ghost use Rattle.grid_outside.specs.Source.{SourceState};
ghost use Rattle.grid_model.specs.Applying.{IsMade, is_user};
ghost use Rattle.grid_model.specs.Checks.{first_fault, rules_faults};
ghost use Rattle.grid_model.specs.Names.{Text as TextOf};
ghost use Rattle.grid_model.specs.Parsed.{rule_of};
ghost use Rattle.grid_model.specs.Points.{Point};
ghost use Rattle.grid_model.specs.QueryOrders.{ReadsQuery};
ghost use Rattle.grid_model.specs.Refusing.{Or};
ghost use Rattle.grid_model.specs.RowGrids.{grid_of, user_name};
ghost use Rattle.grid_model.specs.Rows.{Cat};
ghost use Rattle.grid_model.specs.Runs.{Request};
ghost use Rattle.grid_model.specs.Sessions.{State};
ghost use Rattle.grid_model.specs.declared.marks.Mark.{Mark};
ghost use Rattle.grid_model.specs.declared.queries.Query.{Query};
ghost use Rattle.grid_model.specs.Writable.{is_word};
ghost use Rattle.grid_deed.specs.Held.{IsHeld};
ghost use Rattle.size_laws.specs.Within.{TakesAtMost};
ghost use Rattle.chain_core.specs.Seen.{rules_of};
ghost use Rattle.point_laws.specs.Works.{query};
ghost use Rattle.run_laws.specs.Passes.{AreReady, CallsPass, Seen};
ghost use Rattle.service_run.specs.Commands.{place_by};
ghost use Rattle.service_run.specs.Steps.{lines_of};
ghost use Rattle.service_run.specs.declared.command.Command.{Command};
ghost use Rattle.service_run.specs.declared.ending.Ending.{Ending};
ghost use Rattle.call_laws.specs.Amid.{IsAmid};
ghost use Rattle.call_laws.specs.OneCall.{AreKeepable, IsKeepable};
ghost use Rattle.rule_run.specs.Asked.{IsAsked, asked_setting};
ghost use Rattle.rule_run.specs.Executing.{Executes};
ghost use Rattle.rule_run.specs.Finishing.{HasNothing};
ghost use Rattle.work_run.specs.Behind.{BeginsWithNothing, IsBehind, from_work};
ghost use Rattle.work_run.specs.Answers.{AreWords, IsAnswer};
ghost use Rattle.work_run.specs.Pointed.{AreFor, RunsAfter, begun_by, draws_by};
ghost use Rattle.work_run.specs.Works.{DoesSo, MakesFilesBy};

use crate::after::{After, finish_work};
use crate::concluding::conclude;
use crate::ending::no_rows;
use chain_core::RuleBase;
use grid_journal::Store;
use grid_model::{End, Refusal, Rows, Text, Texts};
use grid_outside::{Ambient, Disk, Outside, Plugin, Sink, Wear};
use point_laws::{work_ends, works_end_by_rows, works_send_behind, works_take_in_order};
use query_parse::{QueryError, read_query};
use query_run::query_rows;
use service_run::{Command, Ending};
use std::alloc::{AllocError, Global};

/// Shows the rows of what the text asks for as a query, or says why it asks for nothing, for a request whose rules before it held, and what is
/// behind it.
pub(crate) fn show_for<D: Disk, K: Sink, A: Ambient, P: Plugin>(
    alloc: Global,
    store: &mut Store,
    outside: &mut Outside<D, A, P>,
    sink: &mut K,
    rules: &RuleBase,
    command: Command,
    text: &Text,
    after: Option<After>,
) -> Result<(), Ending>
    requires held { (kept : Cat) × IsHeld kept (D.disk outside.old.main) store.old }
    requires user { IsTrue (is_user store.old.cat command.user) }
    requires name { AreFor after (user_name store.old.cat command.user) }
    requires keepable { IsKeepable command × AreKeepable command [] }
    requires slots { store.old.cat.stores ≡ vec_len outside.old.stores }
    requires checked { first_fault (rules_faults (map rule_of rules.now.rules)) ≡ None }
    requires ready { AreReady D.disk P.plugin K.sink (2 ^ 65 + draws_by (2 ^ 65) after) (record { outside = outside.old; sink = sink.old }) }
    ensures executes { (source : SourceState) (at : State) (request : Request) (before : Cat) (x : Command) (from : Seen D A P K) (taken : List Mark)
        (q : Or Query) (p : Option Point) → IsAsked at request before x → ReadsQuery text.now q → DoesSo at request (user_name store.old.cat command.user) (query q) →
        RunsAfter at request (rules_of rules.now) after p →
        IsAmid D.disk A.ambient P.plugin K.sink source (asked_setting at request before x (lines_of x.number)) from
        (record { outside = outside.old; sink = sink.old }) command store.old taken →
        IsBehind at request taken (place_by store.old.cat command) (begun_by after) (from_work at p (user_name store.old.cat command.user) (query q)) →
        BeginsWithNothing at request before store.old command (D.disk from.outside.main) (D.disk outside.old.main) →
        MakesFilesBy request (query q) →
        Executes D.disk A.ambient P.plugin K.sink source at request before x from (record { outside = outside.new; sink = sink.new }) result store.new }
    ensures passes { CallsPass D.disk P.plugin K.sink (IsErrOf result Ending.Disk) (IsErrOf result Ending.Sink)
        (record { outside = outside.old; sink = sink.old }) (record { outside = outside.new; sink = sink.new }) }
    // Without rules behind it, it calls the sink alone.
    ensures idle { after ≡ None → HasNothing store.old command → (outside.new.main ≡ outside.old.main) × (outside.new.stores ≡ outside.old.stores) }
    // Without them what runs out is not the numbers of vault files.
    ensures vaults { (place : ℕ) → after ≡ None → IsErrOf result (Ending.Worn Wear.Vaults place) → ⊥ }
    ensures drawn { (each : ℕ) → TakesAtMost (grid_of store.old.cat) each → outside.new.moments ≤ outside.old.moments + (each + draws_by each after) }
{
    work_ends();
    works_end_by_rows();
    works_send_behind();
    works_take_in_order();
    let answer = match asked_rows(alloc, store, command.user, text) {
        Ok(answer) => answer,
        Err(AllocError) => {
            drop(command);
            drop(after);
            return Err(Ending::Memory);
        }
    };
    match answer {
        Answer::Rows(rows) => {
            let words = no_words(alloc);
            finish_work(
                alloc, store, outside, sink, rules, command, after, words, rows,
            )
        }
        Answer::Refused { at } => {
            drop(after);
            let rows = no_rows(alloc);
            let end = End::Refused(Refusal::BadQuery { at });
            conclude(alloc, store, outside, sink, command, rows, end)
        }
    }
}

/// What the text of a query is answered with: rows, or the place from which on it is no query.
#[derive(Drop)]
pub(crate) enum Answer {
    Rows(Rows),
    Refused { at: u64 },
}

// The rows that the text asks for as a query, for this user. Fails for want of memory alone.
fn asked_rows(alloc: Global, store: &Store, user: u32, text: &Text) -> Result<Answer, AllocError>
    requires sound { IsTrue store.now.sound }
    requires made { IsMade store.now.cat }
    requires user { IsTrue (is_user store.now.cat user) }
    ensures is { (q : Or Query) → ReadsQuery text.now q →
        IfOk result (λ answer. IsAnswer (grid_of store.now.cat) (user_name store.now.cat user) q answer) }
    ensures words { IfOk result (λ answer. AreWords answer) }
{
    let query = match read_query(alloc, text.as_slice()) {
        Ok(query) => query,
        Err(QueryError::BadQuery { at }) => return Ok(Answer::Refused { at: at as u64 }),
        Err(QueryError::Memory) => return Err(AllocError),
    };
    store.is_spelled();
    match query_rows(alloc, store.tables(), user, &query) {
        Ok(rows) => Ok(Answer::Rows(rows)),
        Err(AllocError) => Err(AllocError),
    }
}

// It says nothing. It takes no memory.
fn no_words(alloc: Global) -> Texts
    ensures is { result ≡ [] }
    ensures words { IsTrue (list_all is_word result) }
{
    Texts::from_vec(Vec::new(alloc))
}

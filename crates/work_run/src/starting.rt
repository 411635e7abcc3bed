//! A request that is begun: with the rules of its point, or without.
ghost use Rattle.std.specs.Prelude.{◌≡◌, ℕ, ◌+◌, ◌^◌, ◌≤◌, [], Err, IsErrOf, IsTrue, None, false, map, vec_len, ◌*◌};
ghost use Rattle.grid_outside.specs.Source.{SourceState};
ghost use Rattle.grid_model.specs.Applying.{is_user};
ghost use Rattle.grid_model.specs.Checks.{first_fault, rules_faults};
ghost use Rattle.grid_model.specs.Deltas.{text as text_part, u32, u64};
ghost use Rattle.grid_model.specs.Parsed.{rule_of};
ghost use Rattle.grid_model.specs.RowGrids.{grid_of, user_name};
ghost use Rattle.grid_model.specs.Runs.{Request};
ghost use Rattle.grid_model.specs.Sessions.{State};
ghost use Rattle.grid_deed.specs.Held.{IsHeld};
ghost use Rattle.size_laws.specs.Within.{TakesAtMost};
ghost use Rattle.chain_core.specs.Rest.{steps_begun, took_stop};
ghost use Rattle.chain_core.specs.Seen.{rules_of};
ghost use Rattle.point_laws.specs.Works.{Work};
ghost use Rattle.row_run.specs.Verbs.{HasGoodWords};
ghost use Rattle.run_laws.specs.Passes.{AreReady, CallsPass};
ghost use Rattle.service_run.specs.declared.ending.Ending.{Ending};
ghost use Rattle.rule_run.specs.Asked.{IsAsked};
ghost use Rattle.rule_run.specs.Executing.{Executes};
ghost use Rattle.work_run.specs.Verbs.{HasWork, IsIdle, MayMakeFile, WorksAs};
ghost use Rattle.work_run.specs.Works.{DoesSo, MakesFilesBy};

use crate::between::do_work;
use crate::naming::names_of;
use crate::ruled::do_ruled;
use chain_core::{Frames, RuleBase};
use chain_laws::names_complete;
use grid_journal::Store;
use grid_model::Verb;
use grid_outside::{Ambient, Disk, Outside, Plugin, Sink, Wear};
use point_laws::{pre_ends, works_end_by_rows, works_send_behind, works_take_in_order};
use service_run::{Command, Ending};
use std::alloc::{AllocError, Global};

/// Does the work of a verb with its points for a request, and tells its reply. `body` is what a put puts. The command has no mark, and the
/// rules are checked ones.
pub(crate) fn begin<D: Disk, K: Sink, A: Ambient, P: Plugin>(
    alloc: Global,
    store: &mut Store,
    outside: &mut Outside<D, A, P>,
    sink: &mut K,
    frames: Frames,
    rules: &RuleBase,
    command: Command,
    verb: &Verb,
    body: &[u8],
) -> Result<(), Ending>
    requires held { IsHeld store.old.cat (D.disk outside.old.main) store.old }
    requires staged { store.old.staged ≡ [] }
    requires pending { store.old.cat.pending ≡ None }
    requires user { IsTrue (is_user store.old.cat command.user) }
    requires line { IsTrue (text_part command.line).fits }
    requires begun { (command.marks ≡ []) × (command.passed ≡ []) × (command.untold ≡ []) }
    requires slots { store.old.cat.stores ≡ vec_len outside.old.stores }
    requires words { HasGoodWords verb.now }
    requires verb { HasWork verb.now body.now }
    requires frames { (steps_begun frames ≡ 0) × (took_stop frames ≡ false) }
    requires checked { first_fault (rules_faults (map rule_of rules.now.rules)) ≡ None }
    requires ready { AreReady D.disk P.plugin K.sink (2 ^ 79) (record { outside = outside.old; sink = sink.old }) }
    ensures executes { (source : SourceState) (at : State) (request : Request) (w : Work) → IsAsked at request store.old.cat command →
        WorksAs verb.now body.now w → DoesSo at request (user_name store.old.cat command.user) w → at.rules ≡ rules_of rules.now →
        MakesFilesBy request w →
        Executes D.disk A.ambient P.plugin K.sink source at request store.old.cat command
        (record { outside = outside.old; sink = sink.old }) (record { outside = outside.new; sink = sink.new }) result store.new }
    ensures passes { CallsPass D.disk P.plugin K.sink (IsErrOf result Ending.Disk) (IsErrOf result Ending.Sink)
        (record { outside = outside.old; sink = sink.old }) (record { outside = outside.new; sink = sink.new }) }
    // Without rules, what leaves the grid as it is whatever marks come calls the sink alone.
    ensures idle { rules_of rules.now ≡ [] → IsIdle (grid_of store.old.cat) (user_name store.old.cat command.user) verb.now body.now →
        (outside.new.main ≡ outside.old.main) × (outside.new.stores ≡ outside.old.stores) }
    // Without rules the numbers of vault files run out only in an operation that makes files.
    ensures files { (count place : ℕ) → rules_of rules.now ≡ [] → result ≡ Err (Ending.Worn Wear.Vaults place) →
        MayMakeFile count verb.now body.now }
    ensures drawn { (each : ℕ) → TakesAtMost (grid_of store.old.cat) each → outside.new.moments ≤ outside.old.moments + 2 ^ 14 * each }
{
    names_complete();
    pre_ends();
    works_end_by_rows();
    works_send_behind();
    works_take_in_order();
    are_kept(command.run, command.number, command.user);
    let names = match names_of(alloc, rules, verb) {
        Ok(names) => names,
        Err(AllocError) => {
            drop(command);
            drop(frames);
            return Err(Ending::Memory);
        }
    };
    match names {
        Some(names) => do_ruled(
            alloc, store, outside, sink, frames, rules, command, verb, body, names,
        ),
        None => {
            drop(frames);
            do_work(
                alloc, store, outside, sink, rules, command, verb, body, None,
            )
        }
    }
}

// These numbers may stand in the catalogue. It does nothing.
fn are_kept(run: u64, number: u64, user: u32)
    ensures { IsTrue (u64 run).fits × IsTrue (u64 number).fits × IsTrue (u32 user).fits }
{}

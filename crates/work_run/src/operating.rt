ghost use Rattle.std.specs.Prelude.{◌≡◌, ℕ, ◌+◌, ◌^◌, ◌≤◌, [], Err, IsErrOf, IsTrue, None, map, vec_len, ◌*◌};
ghost use Rattle.grid_outside.specs.Source.{SourceState};
ghost use Rattle.grid_model.specs.Applying.{is_user};
ghost use Rattle.grid_model.specs.Checks.{first_fault, rules_faults};
ghost use Rattle.grid_model.specs.Deltas.{text as text_part};
ghost use Rattle.grid_model.specs.Operations.Table.{Operation, row};
ghost use Rattle.grid_model.specs.Orders.{works};
ghost use Rattle.grid_model.specs.Parsed.{rule_of};
ghost use Rattle.grid_model.specs.RowGrids.{grid_of, user_name};
ghost use Rattle.grid_model.specs.Runs.{Request};
ghost use Rattle.grid_model.specs.Sessions.{State};
ghost use Rattle.grid_model.specs.declared.refusal.Refusal.{Refusal as RefusalOf};
ghost use Rattle.grid_deed.specs.Held.{IsHeld};
ghost use Rattle.size_laws.specs.Within.{IsWithin};
ghost use Rattle.chain_core.specs.Seen.{rules_of};
ghost use Rattle.point_laws.specs.Works.{operation};
ghost use Rattle.row_run.specs.Verbs.{HasGoodWords, WorksBy};
ghost use Rattle.run_laws.specs.Ends.{MakesFile};
ghost use Rattle.run_laws.specs.Passes.{AreReady, CallsPass};
ghost use Rattle.service_run.specs.declared.ending.Ending.{Ending};
ghost use Rattle.rule_run.specs.Asked.{IsAsked};
ghost use Rattle.rule_run.specs.Executing.{Executes};
ghost use Rattle.work_run.specs.Works.{DoesWork, MakesFilesBy};

use crate::starting::begin;
use chain_core::{Frames, RuleBase};
use grid_journal::Store;
use grid_model::Verb;
use grid_outside::{Ambient, Disk, Outside, Plugin, Sink, Wear};
use service_run::{Command, Ending};
use std::alloc::Global;

/// Does the operation of a verb with its points for a request, and tells its reply: the rules before it, the operation, which is noted on
/// main while its deed changes files, the rules after it, then one last commit and the rest of the reply. The bytes of a get are told as they
/// are read. `body` is what a put puts. The command has no mark, and the rules are checked ones.
///
/// An error ends the command: `Memory` may come at any time, `Disk` and `Sink` where one of them failed, and `Worn` where the numbers of
/// vault files or the room behind the log have run out. Draws at most 2^79 moments, and at most 2^34 where the
/// grid is within its limits.
pub fn operate<D: Disk, K: Sink, A: Ambient, P: Plugin>(
    alloc: Global,
    store: &mut Store,
    outside: &mut Outside<D, A, P>,
    sink: &mut K,
    rules: &RuleBase,
    command: Command,
    verb: &Verb,
    body: &[u8],
) -> Result<(), Ending>
    requires held { IsHeld store.old.cat (D.disk outside.old.main) store.old }
    requires staged { store.old.staged ≡ [] }
    requires pending { store.old.cat.pending ≡ None }
    requires user { IsTrue (is_user store.old.cat command.user) }
    requires line { IsTrue (text_part command.line).fits }
    requires begun { (command.marks ≡ []) × (command.passed ≡ []) × (command.untold ≡ []) }
    requires slots { store.old.cat.stores ≡ vec_len outside.old.stores }
    requires words { HasGoodWords verb.now }
    requires verb { (op : Operation) × WorksBy verb.now body.now op }
    requires checked { first_fault (rules_faults (map rule_of rules.now.rules)) ≡ None }
    requires ready { AreReady D.disk P.plugin K.sink (2 ^ 79) (record { outside = outside.old; sink = sink.old }) }
    ensures executes { (source : SourceState) (at : State) (request : Request) (op : Operation) → IsAsked at request store.old.cat command →
        WorksBy verb.now body.now op → DoesWork at request (user_name store.old.cat command.user) op → at.rules ≡ rules_of rules.now →
        MakesFilesBy request (operation op) →
        Executes D.disk A.ambient P.plugin K.sink source at request store.old.cat command
        (record { outside = outside.old; sink = sink.old }) (record { outside = outside.new; sink = sink.new }) result store.new }
    ensures passes { CallsPass D.disk P.plugin K.sink (IsErrOf result Ending.Disk) (IsErrOf result Ending.Sink)
        (record { outside = outside.old; sink = sink.old }) (record { outside = outside.new; sink = sink.new }) }
    // Without rules, an operation that is refused whatever marks come calls the sink alone.
    ensures idle { (op : Operation) (r : RefusalOf) → WorksBy verb.now body.now op → rules_of rules.now ≡ [] →
        row (grid_of store.old.cat) (user_name store.old.cat command.user) op ≡ Err r →
        (outside.new.main ≡ outside.old.main) × (outside.new.stores ≡ outside.old.stores) }
    // Without rules the numbers of vault files run out only in an operation that makes files.
    ensures files { (op : Operation) (count place : ℕ) → WorksBy verb.now body.now op → rules_of rules.now ≡ [] →
        result ≡ Err (Ending.Worn Wear.Vaults place) → MakesFile (works op count) }
    ensures drawn { outside.new.moments ≤ outside.old.moments + 2 ^ 79 }
    ensures few { IsWithin (grid_of store.old.cat) → outside.new.moments ≤ outside.old.moments + 2 ^ 34 }
{
    let frames = Frames::new(alloc);
    begin(
        alloc, store, outside, sink, frames, rules, command, verb, body,
    )
}

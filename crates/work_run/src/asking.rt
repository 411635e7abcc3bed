ghost use Rattle.std.specs.Prelude.{◌≡◌, ℕ, ◌+◌, ◌^◌, ◌≤◌, [], Err, IsErrOf, IsTrue, None, map, vec_len, ◌*◌};
ghost use Rattle.grid_outside.specs.Source.{SourceState};
ghost use Rattle.grid_model.specs.Applying.{is_user};
ghost use Rattle.grid_model.specs.Checks.{first_fault, rules_faults};
ghost use Rattle.grid_model.specs.Deltas.{text as text_part};
ghost use Rattle.grid_model.specs.Parsed.{rule_of};
ghost use Rattle.grid_model.specs.QueryOrders.{ReadsQuery};
ghost use Rattle.grid_model.specs.Refusing.{Or};
ghost use Rattle.grid_model.specs.RowGrids.{user_name, grid_of};
ghost use Rattle.grid_model.specs.Runs.{Request};
ghost use Rattle.grid_model.specs.Sessions.{State};
ghost use Rattle.grid_model.specs.declared.queries.Query.{Query};
ghost use Rattle.grid_deed.specs.Held.{IsHeld};
ghost use Rattle.size_laws.specs.Within.{IsWithin};
ghost use Rattle.chain_core.specs.Seen.{rules_of};
ghost use Rattle.run_laws.specs.Passes.{AreReady, CallsPass};
ghost use Rattle.service_run.specs.declared.ending.Ending.{Ending};
ghost use Rattle.rule_run.specs.Asked.{IsAsked};
ghost use Rattle.rule_run.specs.Executing.{Executes, MakesNoFiles};
ghost use Rattle.work_run.specs.Works.{DoesQuery};

use crate::starting::begin;
use chain_core::{Frames, RuleBase};
use chain_laws::names_complete;
use grid_journal::Store;
use grid_model::{Text, Verb};
use grid_outside::{Ambient, Disk, Outside, Plugin, Sink, Wear};
use point_laws::{pre_ends, works_end_by_rows, works_send_behind, works_take_in_order};
use service_run::{Command, Ending};
use std::alloc::{AllocError, Global};

/// Shows what the text of a query asks for, or says why it asks for nothing, with the points of queries: the rules before it, the rows of the
/// grid as it is behind them, the rules after it, then one last commit and the rest of the reply. The command has no mark, and the rules are
/// checked ones.
///
/// An error ends the command: `Memory` may come at any time, `Disk` and `Sink` where one of them failed, and `Worn` where the numbers of
/// vault files or the room behind the log have run out. Draws at most 2^79 moments, and at most 2^34 where the
/// grid is within its limits.
pub fn ask<D: Disk, K: Sink, A: Ambient, P: Plugin>(
    alloc: Global,
    store: &mut Store,
    outside: &mut Outside<D, A, P>,
    sink: &mut K,
    rules: &RuleBase,
    command: Command,
    text: &Text,
) -> Result<(), Ending>
    requires held { IsHeld store.old.cat (D.disk outside.old.main) store.old }
    requires staged { store.old.staged ≡ [] }
    requires pending { store.old.cat.pending ≡ None }
    requires user { IsTrue (is_user store.old.cat command.user) }
    requires line { IsTrue (text_part command.line).fits }
    requires begun { (command.marks ≡ []) × (command.passed ≡ []) × (command.untold ≡ []) }
    requires slots { store.old.cat.stores ≡ vec_len outside.old.stores }
    requires checked { first_fault (rules_faults (map rule_of rules.now.rules)) ≡ None }
    requires ready { AreReady D.disk P.plugin K.sink (2 ^ 79) (record { outside = outside.old; sink = sink.old }) }
    ensures executes { (source : SourceState) (at : State) (request : Request) (query : Or Query) → IsAsked at request store.old.cat command →
        ReadsQuery text.now query → DoesQuery at request (user_name store.old.cat command.user) query → at.rules ≡ rules_of rules.now →
        MakesNoFiles request →
        Executes D.disk A.ambient P.plugin K.sink source at request store.old.cat command
        (record { outside = outside.old; sink = sink.old }) (record { outside = outside.new; sink = sink.new }) result store.new }
    ensures passes { CallsPass D.disk P.plugin K.sink (IsErrOf result Ending.Disk) (IsErrOf result Ending.Sink)
        (record { outside = outside.old; sink = sink.old }) (record { outside = outside.new; sink = sink.new }) }
    // Without rules it calls the sink alone.
    ensures idle { rules_of rules.now ≡ [] → (outside.new.main ≡ outside.old.main) × (outside.new.stores ≡ outside.old.stores) }
    // Without rules the numbers of vault files do not run out.
    ensures files { (place : ℕ) → rules_of rules.now ≡ [] → result ≡ Err (Ending.Worn Wear.Vaults place) → ⊥ }
    ensures drawn { outside.new.moments ≤ outside.old.moments + 2 ^ 79 }
    ensures few { IsWithin (grid_of store.old.cat) → outside.new.moments ≤ outside.old.moments + 2 ^ 34 }
{
    names_complete();
    pre_ends();
    works_end_by_rows();
    works_send_behind();
    works_take_in_order();
    let frames = Frames::new(alloc);
    let text = match Text::copy_of(alloc, text.as_slice()) {
        Ok(text) => text,
        Err(AllocError) => {
            drop(command);
            drop(frames);
            return Err(Ending::Memory);
        }
    };
    let verb = Verb::Query { text };
    let ended = begin(
        alloc, store, outside, sink, frames, rules, command, &verb, b"",
    );
    drop(verb);
    ended
}

ghost use Rattle.std.specs.Prelude.{◌≡◌, ℕ, ◌+◌, ◌*◌, ◌^◌, ◌≤◌, List, [], Ok, Some, IsErrOf, length, vec_len};
ghost use Rattle.grid_outside.specs.Source.{SourceState};
ghost use Rattle.grid_model.specs.RowGrids.{grid_of};
ghost use Rattle.grid_model.specs.RuleText.{Rule};
ghost use Rattle.grid_model.specs.declared.deltas.Pending.{Pending as PendingOf};
ghost use Rattle.grid_deed.specs.Held.{IsHeld};
ghost use Rattle.grid_headline.specs.Reads.{HasRules};
ghost use Rattle.run_laws.specs.Around.{around};
ghost use Rattle.run_laws.specs.Passes.{AreReady, CallsPass};
ghost use Rattle.size_laws.specs.Within.{TakesAtMost};
ghost use Rattle.service_run.specs.declared.ending.Ending.{Ending};
ghost use Rattle.undo_run.specs.Undoing.{Undoes, stopped_command};

use crate::lists::{are_short, drop_last};
use crate::passing::undo_one;
use grid_journal::Store;
use grid_model::Calls;
use grid_outside::{Ambient, Disk, Outside, Plugin, Sink};
use service_run::{Command, Ending};
use std::alloc::Global;

/// Runs the recoveries of a command that was stopped, from the last to the first. Each is a call of a micro-service for the user of the
/// command; a stop while it runs has it and those before it run again. One that is refused is passed over, and noted with its failure.
///
/// What they left is in memory, and the next commit keeps it; lines of marks that were not told yet are in the command. An error ends it:
/// `Memory` may come at any time, and comes where there are more than 2^48 recoveries; `Disk` and `Sink` come where one of them failed, and
/// `Worn` where the numbers of vault files or the room behind the log have run out. Draws at most 2^120 moments; where the grid
/// is within its limits, at most 2^20 for each recovery.
pub fn undo_all<D: Disk, K: Sink, A: Ambient, P: Plugin>(
    alloc: Global,
    store: &mut Store,
    outside: &mut Outside<D, A, P>,
    sink: &mut K,
    command: &mut Command,
    undo: Calls,
) -> Result<(), Ending>
    requires held { IsHeld store.old.cat (D.disk outside.old.main) store.old }
    requires stopped { (p : PendingOf) × (store.old.cat.pending ≡ Some p) × (command.old ≡ stopped_command p) × (undo ≡ p.undo) }
    requires slots { store.old.cat.stores ≡ vec_len outside.old.stores }
    requires ready { AreReady D.disk P.plugin K.sink (2 ^ 120) (record { outside = outside.old; sink = sink.old }) }
    ensures undoes { (source : SourceState) (p : PendingOf) (rules : List Rule) → store.old.cat.pending ≡ Some p → HasRules store.old.cat rules →
        Undoes (around D.disk A.ambient P.plugin outside.old (K.sink sink.old) source) (around D.disk A.ambient P.plugin outside.new (K.sink sink.new) source)
        store.old.cat p rules result command.new store.new }
    ensures none { undo ≡ [] → (result ≡ Ok tt) × (store.new ≡ store.old) × (outside.new ≡ outside.old) × (sink.new ≡ sink.old) × (command.new ≡ command.old) }
    ensures passes { CallsPass D.disk P.plugin K.sink (IsErrOf result Ending.Disk) (IsErrOf result Ending.Sink)
        (record { outside = outside.old; sink = sink.old }) (record { outside = outside.new; sink = sink.new }) }
    ensures drawn { (each : ℕ) → TakesAtMost (grid_of store.old.cat) each → outside.new.moments ≤ outside.old.moments + length undo * each }
    ensures bounded { outside.new.moments ≤ outside.old.moments + 2 ^ 120 }
{
    if undo.as_slice().len() > 1 << 48 {
        return Err(Ending::Memory);
    }
    store.pending_is_spelled();
    let mut left = undo;
    while let Some(call) = left.as_slice().last() {
        are_short(command, &left);
        match undo_one(alloc, store, outside, sink, command, call, &left) {
            Ok(_failure) => {}
            Err(error) => return Err(error),
        }
        drop_last(alloc, &mut left);
    }
    Ok(())
}

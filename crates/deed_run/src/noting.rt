ghost use Rattle.std.specs.Prelude.{◌≡◌, ℕ, ◌+◌, ◌≤◌, [], IsErrOf, IsTrue, OnOk};
ghost use Rattle.grid_outside.specs.Source.{SourceState};
ghost use Rattle.grid_model.specs.Applying.{is_user};
ghost use Rattle.grid_model.specs.Deltas.{all_fit, call as call_parts};
ghost use Rattle.grid_model.specs.Doing.{Course, Did};
ghost use Rattle.grid_model.specs.Meanings.{Meaning};
ghost use Rattle.grid_model.specs.Rows.{Cat};
ghost use Rattle.grid_deed.specs.Held.{IsHeld};
ghost use Rattle.run_laws.specs.Around.{around};
ghost use Rattle.run_laws.specs.Passes.{AreReady, CallsPass};
ghost use Rattle.service_run.specs.Commands.{WaitsAt, place_by};
ghost use Rattle.service_run.specs.NotedCalls.{NotesCall};
ghost use Rattle.deed_run.specs.Notes.{IsNextNoted};
ghost use Rattle.deed_run.specs.Puts.{MayBeNoted};

use grid_journal::Store;
use grid_model::{Call, Calls, Deltas};
use grid_outside::{Ambient, Disk, Outside, Plugin, Sink, Wear};
use service_run::{Command, Ending, announce, note};
use std::alloc::{AllocError, Global};

/// Notes a call of a command on main before its deed begins, with no recoveries, and tells what was still to be told. The rows are as before
/// but for the command, which is pending in the call. No store of files is called, and the ambient is not asked.
///
/// An error ends the command: `Memory` may come at any time, `Disk` and `Sink` where one of them failed, and `Worn` where the room behind the
/// log has run out. Draws at most 5 moments.
pub fn note_call<D: Disk, K: Sink, A: Ambient, P: Plugin>(
    alloc: Global,
    store: &mut Store,
    outside: &mut Outside<D, A, P>,
    sink: &mut K,
    command: &mut Command,
    call: &Call,
) -> Result<(), Ending>
    requires held { (kept : Cat) × IsHeld kept (D.disk outside.old.main) store.old }
    requires user { IsTrue (is_user store.old.cat command.old.user) }
    requires noted { MayBeNoted command.old [] }
    requires call { IsTrue (all_fit (call_parts call.now)) }
    requires ready { AreReady D.disk P.plugin K.sink 5 (record { outside = outside.old; sink = sink.old }) }
    ensures notes { (source : SourceState) (kept : Cat) (does : Course → Meaning Did) → IsHeld kept (D.disk outside.old.main) store.old →
        WaitsAt does (place_by store.old.cat command.old) call.now →
        NotesCall (around D.disk A.ambient P.plugin outside.old (K.sink sink.old) source) (around D.disk A.ambient P.plugin outside.new (K.sink sink.new) source)
        kept store.old command.old call.now [] command.new store.new does result }
    ensures next { OnOk result (IsNextNoted (D.disk outside.new.main) store.old command.old call.now command.new store.new) }
    ensures passes { CallsPass D.disk P.plugin K.sink (IsErrOf result Ending.Disk) (IsErrOf result Ending.Sink)
        (record { outside = outside.old; sink = sink.old }) (record { outside = outside.new; sink = sink.new }) }
    ensures stores { outside.new.stores ≡ outside.old.stores }
    ensures ambient { outside.new.ambient ≡ outside.old.ambient }
    // What has run out is not the numbers of vault files.
    ensures vaults { (place : ℕ) → IsErrOf result (Ending.Worn Wear.Vaults place) → ⊥ }
    ensures drawn { outside.new.moments ≤ outside.old.moments + 5 }
{
    let undo = Calls::from_vec(Vec::new(alloc));
    match announce(alloc, store, outside, command, call, &undo) {
        Ok(()) => {}
        Err(AllocError) => return Err(Ending::Memory),
    }
    let deltas = Deltas::from_vec(Vec::new(alloc));
    note(alloc, store, outside, sink, command, deltas)
}

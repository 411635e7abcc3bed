ghost use Rattle.std.specs.Prelude.{◌≡◌, ◌+◌, ◌∷◌, ◌++◌, ◌^◌, ◌<◌, ◌≤◌, [], IfOk, IsErrOf, IsTrue, OnErr, OnOk, Ok};
ghost use Rattle.std.specs.List.{list_all};
ghost use Rattle.grid_outside.specs.Device.{Between, IsSettled};
ghost use Rattle.grid_outside.specs.Fault.{Rose};
ghost use Rattle.grid_outside.specs.Sink.{AddsPart};
ghost use Rattle.grid_model.specs.Applying.{apply_all, is_user};
ghost use Rattle.grid_model.specs.Rows.{Cat};
ghost use Rattle.grid_journal.specs.Journal.{can_be_kept};
ghost use Rattle.file_laws.specs.Plans.{Turns};
ghost use Rattle.grid_deed.specs.Held.{IsHeld, IsStaged};
ghost use Rattle.grid_deed.specs.Safe.{KeepBothWhole};
ghost use Rattle.run_laws.specs.Passes.{AreReady, CallsPass};
ghost use Rattle.service_run.specs.Commands.{noted_in};
ghost use Rattle.service_run.specs.Noting.{IsNotedSo, with_pending};

use crate::copies::{copy_call, copy_calls, copy_marks, copy_passeds};
use crate::ending::ending_of;
use crate::{Command, Ending};
use grid_deed::{commit, stage};
use grid_journal::Store;
use grid_model::{Call, Calls, Delta, Deltas, Pending, Text};
use grid_outside::{Ambient, Disk, Moments, Outside, Plugin, Sink, SinkFault};
use std::alloc::{AllocError, Global};

/// Has the command pending in memory, in this call, where a stop would have these recoveries done. The next commit keeps that. Nothing
/// outside is called. Fails for want of memory alone.
pub fn announce<D: Disk, A: Ambient, P: Plugin>(
    alloc: Global,
    store: &mut Store,
    outside: &Outside<D, A, P>,
    command: &Command,
    call: &Call,
    undo: &Calls,
) -> Result<(), AllocError>
    requires held { (kept : Cat) × IsHeld kept (D.disk outside.now.main) store.old }
    requires user { IsTrue (is_user store.old.cat command.now.user) }
    requires spelled { IsTrue (can_be_kept (Delta.Pending (noted_in command.now call.now undo.now))) }
    ensures { (kept : Cat) → IsHeld kept (D.disk outside.now.main) store.old → OnOk result
        (IsStaged kept (with_pending store.old.cat (noted_in command.now call.now undo.now)) (D.disk outside.now.main) store.new) }
{
    let pending = noted_in(alloc, command, call, undo)?;
    let deltas = pending_deltas(alloc, pending)?;
    stage(alloc, store, outside, deltas)
}

// The change by which this command is pending. Fails for want of memory alone.
fn pending_deltas(alloc: Global, pending: Pending) -> Result<Deltas, AllocError>
    ensures is { IfOk result (λ list. list ≡ Delta.Pending pending ∷ []) }
    ensures spelled { IsTrue (can_be_kept (Delta.Pending pending)) → IfOk result (λ list. IsTrue (list_all can_be_kept list)) }
{
    Ok(Deltas::from_vec(vec![in alloc; Delta::Pending(pending)]?))
}

// What is noted of the command while the call runs. Fails for want of memory alone.
fn noted_in(
    alloc: Global,
    command: &Command,
    call: &Call,
    undo: &Calls,
) -> Result<Pending, AllocError>
    ensures { IfOk result (λ pending. pending ≡ noted_in command.now call.now undo.now) }
{
    let line = Text::copy_of(alloc, command.line.as_slice())?;
    let marks = copy_marks(alloc, &command.marks)?;
    let passed = copy_passeds(alloc, &command.passed)?;
    let running = copy_call(alloc, call)?;
    let undo = copy_calls(alloc, undo)?;
    Ok(Pending {
        run: command.run,
        number: command.number,
        user: command.user,
        line,
        marks,
        passed,
        running: Some(running),
        undo,
    })
}

/// Keeps what is staged and these changes, which name the same files, in one commit, and then puts what the command has still to tell on
/// the sink. No store of files is called. Draws at most 5 moments.
pub fn note<D: Disk, K: Sink, A: Ambient, P: Plugin>(
    alloc: Global,
    store: &mut Store,
    outside: &mut Outside<D, A, P>,
    sink: &mut K,
    command: &mut Command,
    deltas: Deltas,
) -> Result<(), Ending>
    requires held { (kept : Cat) × IsHeld kept (D.disk outside.old.main) store.old }
    requires change { (after : Cat) × (apply_all store.old.cat deltas ≡ Ok after) × Turns [] [] store.old.cat after }
    requires spelled { IsTrue (list_all can_be_kept deltas) }
    requires ready { AreReady D.disk P.plugin K.sink 5 (record { outside = outside.old; sink = sink.old }) }
    ensures noted { (kept after : Cat) → IsHeld kept (D.disk outside.old.main) store.old → apply_all store.old.cat deltas ≡ Ok after →
        IsNotedSo (D.disk outside.old.main) (D.disk outside.new.main) (K.sink sink.old) (K.sink sink.new)
        kept after outside.old.moments command.old.untold result store.new }
    ensures command { OnOk result (command.new ≡ record command.old { untold = [] }) }
    ensures whole { (kept : Cat) → IsHeld kept (D.disk outside.old.main) store.old →
        KeepBothWhole P.plugin outside.old.moments kept store.old.cat (D.disk outside.old.main) (D.disk outside.new.main)
        outside.old.stores.items outside.new.stores.items }
    ensures passes { CallsPass D.disk P.plugin K.sink (IsErrOf result Ending.Disk) (IsErrOf result Ending.Sink)
        (record { outside = outside.old; sink = sink.old }) (record { outside = outside.new; sink = sink.new }) }
    ensures stores { outside.new.stores ≡ outside.old.stores }
    ensures ambient { outside.new.ambient ≡ outside.old.ambient }
    ensures drawn { outside.new.moments ≤ outside.old.moments + 5 }
{
    match commit(alloc, store, outside, deltas) {
        Ok(()) => {}
        Err(error) => return Err(ending_of(error)),
    }
    match tell(&mut outside.moments, sink, command.untold.as_slice()) {
        Ok(()) => {}
        Err(SinkFault) => return Err(Ending::Sink),
    }
    command.untold = Text::from_vec(Vec::new(alloc));
    Ok(())
}

// Puts a text on the sink, if it has any bytes. Fails only where the sink failed.
fn tell<K: Sink>(moments: &mut Moments, sink: &mut K, text: &[u8]) -> Result<(), SinkFault>
    requires sink_last { (K.sink sink.old).last ≤ moments.old }
    requires room { moments.old + 1 < 2 ^ 128 }
    ensures told { Between moments.old moments.new (AddsPart text.now) (K.sink sink.old) (K.sink sink.new) }
    ensures all { OnOk result (IsTrue (K.sink sink.old).tells → (K.sink sink.new).holds ≡ (K.sink sink.old).holds ++ text.now) }
    ensures settled { IsTrue (K.sink sink.old).tells → IsSettled (K.sink sink.old) → IsSettled (K.sink sink.new) }
    ensures cause { OnErr result (Rose (K.sink sink.old).faults (K.sink sink.new).faults) }
    ensures drawn_from { moments.old ≤ moments.new }
    ensures drawn { moments.new ≤ moments.old + 1 }
{
    if text.is_empty() {
        return Ok(());
    }
    sink.put(moments.next(), text)
}

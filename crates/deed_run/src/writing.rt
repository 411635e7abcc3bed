ghost use Rattle.std.specs.Prelude.{◌≡◌, ◌≢◌, ℕ, ◌+◌, ◌*◌, ◌^◌, ◌<◌, ◌≤◌, [], All, None, IsErrOf, IsOk, IsTrue, Ok, OnOk, length, vec_len};
ghost use Rattle.std.specs.List.{list_all};
ghost use Rattle.grid_outside.specs.Device.{EachMember};
ghost use Rattle.grid_model.specs.Applying.{apply_all};
ghost use Rattle.grid_model.specs.DataLines.{parts};
ghost use Rattle.grid_model.specs.Rows.{Cat};
ghost use Rattle.grid_model.specs.Whole.{IsNamed};
ghost use Rattle.grid_journal.specs.Journal.{Journal, can_be_kept};
ghost use Rattle.grid_vault.specs.Vault.{IsAmong, IsStableAt, WritesOnly};
ghost use Rattle.file_laws.specs.Plans.{IsPlan, Turns};
ghost use Rattle.grid_deed.specs.Deeds.{moments_for};
ghost use Rattle.grid_deed.specs.Frame.{Frame, IsReady};
ghost use Rattle.grid_deed.specs.Held.{IsHeld, IsStaged};
ghost use Rattle.grid_deed.specs.Safe.{AreWhole, KeepBothWhole, KeepWhole};
ghost use Rattle.run_laws.specs.Passes.{AreReady, CallsPass};
ghost use Rattle.deed_run.specs.Written.{IsWrittenMarked, IsWrittenNoted, WriteSays};

use crate::marking::{take_written, written_is_kept, written_ran};
use grid_deed::stage;
use grid_journal::Store;
use grid_model::{Deltas, Failure, NewFiles, Plan};
use grid_outside::{Ambient, Disk, Moments, Outside, Plugin, Sink, Wear};
use grid_vault::{Fault, write_all};
use service_run::{Command, Ending, note};
use std::alloc::{AllocError, Global};

/// Carries out a plan that writes files with this body, for a command that is pending in memory, and takes the mark of it, which is of this
/// word and this time: `Ran` where all were written, and else that of the store's fault.
///
/// An error ends the command: `Memory` may come at any time, `Disk` and `Sink` where one of them failed, and `Worn` where the room behind
/// the log has run out. Draws at most 2^65 moments.
pub(crate) fn write_marked<D: Disk, K: Sink, A: Ambient, P: Plugin>(
    alloc: Global,
    store: &mut Store,
    outside: &mut Outside<D, A, P>,
    sink: &mut K,
    command: &mut Command,
    plan: Plan,
    body: &[u8],
    word: u64,
    now: u64,
) -> Result<Result<(), Failure>, Ending>
    requires held { (kept : Cat) × IsHeld kept (D.disk outside.old.main) store.old }
    requires plan { IsPlan store.old.cat store.old.cat (vec_len outside.old.stores) plan body.now }
    requires few { length plan.files ≤ 2 ^ 16 }
    requires ready { AreReady D.disk P.plugin K.sink (2 ^ 65) (record { outside = outside.old; sink = sink.old }) }
    ensures marked { (kept : Cat) → IsHeld kept (D.disk outside.old.main) store.old →
        (p : IsPlan store.old.cat store.old.cat (vec_len outside.old.stores) plan body.now) →
        IsWrittenMarked D.disk P.plugin K.sink p command.old.untold (record { outside = outside.old; sink = sink.old })
        (record { outside = outside.new; sink = sink.new }) kept command.old (record { word = word; now = now }) result command.new store.new }
    ensures whole { (kept : Cat) → IsHeld kept (D.disk outside.old.main) store.old →
        KeepBothWhole P.plugin outside.old.moments kept store.old.cat (D.disk outside.old.main) (D.disk outside.new.main)
        outside.old.stores.items outside.new.stores.items }
    ensures passes { CallsPass D.disk P.plugin K.sink (IsErrOf result Ending.Disk) (IsErrOf result Ending.Sink)
        (record { outside = outside.old; sink = sink.old }) (record { outside = outside.new; sink = sink.new }) }
    ensures ambient { outside.new.ambient ≡ outside.old.ambient }
    // What has run out is not the numbers of vault files.
    ensures left { (place : ℕ) → IsErrOf result (Ending.Worn Wear.Vaults place) → ⊥ }
    ensures drawn { outside.new.moments ≤ outside.old.moments + moments_for plan.files body.now }
    ensures few { moments_for plan.files body.now ≤ 2 ^ 65 }
{
    few_writes(&plan, body, body.len());
    let fault = match write_noted(alloc, store, outside, sink, command, plan, body) {
        Ok(fault) => fault,
        Err(ending) => return Err(ending),
    };
    written_is_kept(word, now, &fault);
    let Ok(()) = take_written(alloc, command, word, now, &fault) else {
        return Err(Ending::Memory);
    };
    Ok(written_ran(&fault))
}

// Keeps the first changes of the plan, tells what the command has still to tell, and writes the files. Where all were written the last
// changes are staged; where a call of a store fails, that is answered.
fn write_noted<D: Disk, K: Sink, A: Ambient, P: Plugin>(
    alloc: Global,
    store: &mut Store,
    outside: &mut Outside<D, A, P>,
    sink: &mut K,
    command: &mut Command,
    plan: Plan,
    body: &[u8],
) -> Result<Option<Fault>, Ending>
    requires held { (kept : Cat) × IsHeld kept (D.disk outside.old.main) store.old }
    requires plan { IsPlan store.old.cat store.old.cat (vec_len outside.old.stores) plan body.now }
    requires ready { AreReady D.disk P.plugin K.sink (moments_for plan.files body.now) (record { outside = outside.old; sink = sink.old }) }
    ensures written { (kept : Cat) → IsHeld kept (D.disk outside.old.main) store.old →
        (p : IsPlan store.old.cat store.old.cat (vec_len outside.old.stores) plan body.now) →
        IsWrittenNoted D.disk P.plugin K.sink p command.old.untold (record { outside = outside.old; sink = sink.old })
        (record { outside = outside.new; sink = sink.new }) kept result store.new }
    ensures command { OnOk result (command.new ≡ record command.old { untold = [] }) }
    ensures whole { (kept : Cat) → IsHeld kept (D.disk outside.old.main) store.old →
        KeepBothWhole P.plugin outside.old.moments kept store.old.cat (D.disk outside.old.main) (D.disk outside.new.main)
        outside.old.stores.items outside.new.stores.items }
    ensures passes { CallsPass D.disk P.plugin K.sink (IsErrOf result Ending.Disk) (IsErrOf result Ending.Sink)
        (record { outside = outside.old; sink = sink.old }) (record { outside = outside.new; sink = sink.new }) }
    ensures ambient { outside.new.ambient ≡ outside.old.ambient }
    ensures drawn { outside.new.moments ≤ outside.old.moments + moments_for plan.files body.now }
{
    match note(alloc, store, outside, sink, command, plan.before) {
        Ok(()) => {}
        Err(ending) => return Err(ending),
    }
    let fault = write_files(outside, &plan.files, body);
    match stage_written(alloc, store, outside, plan.after, &fault) {
        Ok(()) => Ok(fault),
        Err(AllocError) => Err(Ending::Memory),
    }
}

// Writes the files with this body, between two commits. Main is not called. Each of the files is to be named before: then all stays whole
// while they are made, and once they are made by the rows that take them too. It takes no memory.
fn write_files<D: Disk, A: Ambient, P: Plugin>(
    outside: &mut Outside<D, A, P>,
    files: &NewFiles,
    body: &[u8],
) -> Option<Fault>
    requires slots { All (λ file. file.slot < vec_len outside.old.stores) files.now }
    requires ready { IsReady D.disk P.plugin (length files.now * (2 + parts (length body.now))) outside.old }
    ensures says { WriteSays P.plugin files.now outside.old.stores.items outside.new.stores.items result }
    ensures main { outside.new.main ≡ outside.old.main }
    ensures frame { Frame D.disk P.plugin ⊥ outside.old outside.new }
    ensures whole { (kept : Cat) (store : Journal) → IsHeld kept (D.disk outside.old.main) store →
        ((slot name : ℕ) → IsAmong files.now slot name → IsNamed kept slot name) → KeepWhole P.plugin outside.old.moments kept
        (D.disk outside.old.main) (D.disk outside.new.main) outside.old.stores.items outside.new.stores.items }
    ensures made { result ≡ None → (before after : Cat) → Turns files.now body.now before after →
        (t : ℕ) → outside.new.moments < t → AreWhole P.plugin t before outside.new.stores.items → AreWhole P.plugin t after outside.new.stores.items }
    ensures drawn { outside.new.moments ≤ outside.old.moments + length files.now * (2 + parts (length body.now)) }
{
    write_each(&mut outside.stores, &mut outside.moments, files, body)
}

// Writes each of the files with this body. It takes no memory.
fn write_each<P: Plugin>(
    stores: &mut Vec<P>,
    moments: &mut Moments,
    files: &NewFiles,
    body: &[u8],
) -> Option<Fault>
    requires slots { All (λ file. file.slot < vec_len stores.old) files.now }
    requires last { EachMember (λ k store. (P.plugin store).last ≤ moments.old) stores.old.items }
    requires room { moments.old + length files.now * (2 + parts (length body.now)) < 2 ^ 128 }
    ensures says { WriteSays P.plugin files.now stores.old.items stores.new.items result }
    ensures stable { result ≡ None → All (IsStableAt P.plugin stores.new.items body.now) files.now }
    ensures any_moment { WritesOnly P.plugin moments.old moments.new files.now stores.old.items stores.new.items }
    ensures last { EachMember (λ k store. (P.plugin store).last ≤ moments.new) stores.new.items }
    ensures drawn_from { moments.old ≤ moments.new }
    ensures drawn { moments.new ≤ moments.old + length files.now * (2 + parts (length body.now)) }
{
    match write_all(stores, moments, files, body) {
        Ok(()) => None,
        Err(fault) => Some(fault),
    }
}

// Stages the last changes, where all was written. Fails for want of memory alone.
fn stage_written<D: Disk, A: Ambient, P: Plugin>(
    alloc: Global,
    store: &mut Store,
    outside: &Outside<D, A, P>,
    after: Deltas,
    fault: &Option<Fault>,
) -> Result<(), AllocError>
    requires held { (kept : Cat) × IsHeld kept (D.disk outside.now.main) store.old }
    requires apply { IsOk (apply_all store.old.cat after) }
    requires spelled { IsTrue (list_all can_be_kept after) }
    ensures done { fault.now ≡ None → (kept last : Cat) → IsHeld kept (D.disk outside.now.main) store.old →
        apply_all store.old.cat after ≡ Ok last → OnOk result (IsStaged kept last (D.disk outside.now.main) store.new) }
    ensures other { fault.now ≢ None → store.new ≡ store.old }
{
    match fault {
        None => stage(alloc, store, outside, after),
        Some(_) => Ok(()),
    }
}

// So many files have few parts. It does nothing.
fn few_writes(plan: &Plan, body: &[u8], len: usize)
    requires few { length plan.now.files ≤ 2 ^ 16 }
    requires len { len ≡ length body.now }
    ensures { moments_for plan.now.files body.now ≤ 2 ^ 65 }
{
    let _body = body;
    let _files = &plan.files;
    let _len = len;
}

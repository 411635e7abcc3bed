ghost use Rattle.std.specs.Prelude.{◌≡◌, ◌≢◌, ◌+◌, ◌<◌, ◌≤◌, [], IsErrOf, IsOk, IsTrue, Ok, OnOk, vec_len};
ghost use Rattle.std.specs.List.{list_all};
ghost use Rattle.grid_model.specs.Applying.{apply_all};
ghost use Rattle.grid_model.specs.Rows.{Cat};
ghost use Rattle.grid_journal.specs.Journal.{can_be_kept};
ghost use Rattle.file_laws.specs.Plans.{IsCopyPlan};
ghost use Rattle.grid_deed.specs.Deeds.{moments_of};
ghost use Rattle.grid_deed.specs.Held.{IsHeld, IsStaged};
ghost use Rattle.grid_deed.specs.Safe.{KeepBothWhole};
ghost use Rattle.run_laws.specs.Passes.{AreReady, CallsPass};
ghost use Rattle.service_run.specs.Copying.{IsCopiedNoted};

use crate::noting::note;
use crate::{Command, Ending};
use grid_deed::{Copied, copy_file, stage};
use grid_journal::Store;
use grid_model::{Deltas, OldFile, Plan};
use grid_outside::{Ambient, Disk, Outside, Plugin, Sink};
use std::alloc::{AllocError, Global};

/// Carries out a plan that copies a file, for a command that is pending in memory: keeps the first changes, tells what the command has
/// still to tell, and copies the file to each of the plan's files. Where all were made the last changes are staged; where a call of a
/// store fails, or other bytes than the recorded ones are found, that is answered.
pub(crate) fn copy_noted<D: Disk, K: Sink, A: Ambient, P: Plugin>(
    alloc: Global,
    store: &mut Store,
    outside: &mut Outside<D, A, P>,
    sink: &mut K,
    command: &mut Command,
    plan: Plan,
    from: &OldFile,
) -> Result<Copied, Ending>
    requires held { (kept : Cat) × IsHeld kept (D.disk outside.old.main) store.old }
    requires plan { IsCopyPlan store.old.cat store.old.cat (vec_len outside.old.stores) plan from.now }
    requires source { from.now.slot < vec_len outside.old.stores }
    requires ready { AreReady D.disk P.plugin K.sink (moments_of plan.files from.now.size) (record { outside = outside.old; sink = sink.old }) }
    ensures copied { (kept : Cat) → IsHeld kept (D.disk outside.old.main) store.old →
        (p : IsCopyPlan store.old.cat store.old.cat (vec_len outside.old.stores) plan from.now) →
        IsCopiedNoted D.disk P.plugin K.sink p command.old.untold (record { outside = outside.old; sink = sink.old })
        (record { outside = outside.new; sink = sink.new }) kept result store.new }
    ensures command { OnOk result (command.new ≡ record command.old { untold = [] }) }
    ensures whole { (kept : Cat) → IsHeld kept (D.disk outside.old.main) store.old →
        KeepBothWhole P.plugin outside.old.moments kept store.old.cat (D.disk outside.old.main) (D.disk outside.new.main)
        outside.old.stores.items outside.new.stores.items }
    ensures passes { CallsPass D.disk P.plugin K.sink (IsErrOf result Ending.Disk) (IsErrOf result Ending.Sink)
        (record { outside = outside.old; sink = sink.old }) (record { outside = outside.new; sink = sink.new }) }
    ensures ambient { outside.new.ambient ≡ outside.old.ambient }
    ensures drawn { outside.new.moments ≤ outside.old.moments + moments_of plan.files from.now.size }
{
    match note(alloc, store, outside, sink, command, plan.before) {
        Ok(()) => {}
        Err(ending) => return Err(ending),
    }
    let copied = match copy_file(alloc, outside, from, &plan.files) {
        Ok(copied) => copied,
        Err(AllocError) => return Err(Ending::Memory),
    };
    match stage_copied(alloc, store, outside, plan.after, &copied) {
        Ok(()) => Ok(copied),
        Err(AllocError) => Err(Ending::Memory),
    }
}

// Stages the last changes, where all was made. Fails for want of memory alone.
fn stage_copied<D: Disk, A: Ambient, P: Plugin>(
    alloc: Global,
    store: &mut Store,
    outside: &Outside<D, A, P>,
    after: Deltas,
    copied: &Copied,
) -> Result<(), AllocError>
    requires held { (kept : Cat) × IsHeld kept (D.disk outside.now.main) store.old }
    requires apply { IsOk (apply_all store.old.cat after) }
    requires spelled { IsTrue (list_all can_be_kept after) }
    ensures done { copied.now ≡ Copied.Done → (kept last : Cat) → IsHeld kept (D.disk outside.now.main) store.old →
        apply_all store.old.cat after ≡ Ok last → OnOk result (IsStaged kept last (D.disk outside.now.main) store.new) }
    ensures other { copied.now ≢ Copied.Done → store.new ≡ store.old }
{
    match copied {
        Copied::Done => stage(alloc, store, outside, after),
        Copied::Fault(_) => Ok(()),
        Copied::Bad(_) => Ok(()),
    }
}

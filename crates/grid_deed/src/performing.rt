ghost use Rattle.std.specs.Prelude.{◌≡◌, ◌+◌, ◌≤◌, [], IsTrue, IsErrOf, IsOk, Ok, vec_len};
ghost use Rattle.std.specs.List.{list_all};
ghost use Rattle.grid_model.specs.Rows.{Cat};
ghost use Rattle.grid_model.specs.Applying.{apply_all};
ghost use Rattle.grid_journal.specs.Journal.{can_be_kept};
ghost use Rattle.grid_deed.specs.Frame.{IsReady, Frame};
ghost use Rattle.grid_deed.specs.Held.{IsHeld, IsCommitted};
ghost use Rattle.grid_deed.specs.Safe.{KeepWhole, KeepBothWhole};
ghost use Rattle.file_laws.specs.Plans.{Turns, IsPlan};
ghost use Rattle.grid_deed.specs.Deeds.{moments_for, IsDone};

use grid_journal::{JournalError, Store};
use grid_model::{Deltas, NewFiles, Plan};
use grid_outside::{Ambient, Disk, Outside, Plugin};
use grid_vault::{Fault, write_all};
use std::alloc::Global;

/// Carries out a plan: keeps its first changes, makes its files with these bytes, and keeps its last ones. Where a call of a
/// store fails, the slot is answered, and the files stay as what the first changes made them.
pub fn perform<D: Disk, A: Ambient, P: Plugin>(
    alloc: Global,
    store: &mut Store,
    outside: &mut Outside<D, A, P>,
    plan: Plan,
    bytes: &[u8],
) -> Result<Option<Fault>, JournalError>
    requires plan { (kept : Cat) × IsHeld kept (D.disk outside.old.main) store.old × IsPlan kept store.old.cat (vec_len outside.old.stores) plan bytes.now }
    requires ready { IsReady D.disk P.plugin (moments_for plan.files bytes.now) outside.old }
    ensures done { (kept : Cat) → IsHeld kept (D.disk outside.old.main) store.old →
        (p : IsPlan kept store.old.cat (vec_len outside.old.stores) plan bytes.now) →
        IsDone P.plugin kept p.mid p.end plan.files outside.old.moments (D.disk outside.old.main)
        (D.disk outside.new.main) outside.old.stores.items outside.new.stores.items result store.new }
    ensures whole { (kept : Cat) → IsHeld kept (D.disk outside.old.main) store.old → IsPlan kept store.old.cat (vec_len outside.old.stores) plan bytes.now →
        KeepWhole P.plugin outside.old.moments kept (D.disk outside.old.main) (D.disk outside.new.main) outside.old.stores.items outside.new.stores.items }
    ensures frame { Frame D.disk P.plugin (IsErrOf result JournalError.DiskFault) outside.old outside.new }
    ensures drawn { outside.new.moments ≤ outside.old.moments + moments_for plan.files bytes.now }
{
    match commit(alloc, store, outside, plan.before) {
        Ok(()) => {}
        Err(error) => return Err(error),
    }
    match write_all(
        &mut outside.stores,
        &mut outside.moments,
        &plan.files,
        bytes,
    ) {
        Ok(()) => {}
        Err(fault) => return Ok(Some(fault)),
    }
    if plan.after.as_slice().is_empty() {
        return Ok(None);
    }
    match commit(alloc, store, outside, plan.after) {
        Ok(()) => Ok(None),
        Err(error) => Err(error),
    }
}

/// Applies changes to the rows and keeps them on main, behind the staged ones, in one commit. No store is called. All stays whole
/// where the changes lead on from what main has, and also where they lead on from the rows in memory, by which all was whole.
pub fn commit<D: Disk, A: Ambient, P: Plugin>(
    alloc: Global,
    store: &mut Store,
    outside: &mut Outside<D, A, P>,
    deltas: Deltas,
) -> Result<(), JournalError>
    requires held { (kept : Cat) × IsHeld kept (D.disk outside.old.main) store.old }
    requires apply { IsOk (apply_all store.old.cat deltas) }
    requires spelled { IsTrue (list_all can_be_kept deltas) }
    requires ready { IsReady D.disk P.plugin 4 outside.old }
    ensures committed { (kept after : Cat) → IsHeld kept (D.disk outside.old.main) store.old → apply_all store.old.cat deltas ≡ Ok after →
        IsCommitted kept after outside.old.moments store.old (D.disk outside.old.main) (D.disk outside.new.main) result store.new }
    ensures frame { Frame D.disk P.plugin (IsErrOf result JournalError.DiskFault) outside.old outside.new }
    ensures whole { (kept after : Cat) → IsHeld kept (D.disk outside.old.main) store.old → apply_all store.old.cat deltas ≡ Ok after → Turns [] [] kept after →
        KeepWhole P.plugin outside.old.moments kept (D.disk outside.old.main) (D.disk outside.new.main) outside.old.stores.items outside.new.stores.items }
    ensures whole_staged { (kept after : Cat) → IsHeld kept (D.disk outside.old.main) store.old → apply_all store.old.cat deltas ≡ Ok after →
        Turns [] [] store.old.cat after → KeepBothWhole P.plugin outside.old.moments kept store.old.cat (D.disk outside.old.main)
        (D.disk outside.new.main) outside.old.stores.items outside.new.stores.items }
    ensures stores { outside.new.stores ≡ outside.old.stores }
    ensures drawn { outside.new.moments ≤ outside.old.moments + 4 }
{
    store.commit(
        alloc,
        &mut outside.main,
        &mut outside.spare,
        &mut outside.moments,
        deltas,
    )
}

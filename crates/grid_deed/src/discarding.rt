ghost use Rattle.std.specs.Prelude.{◌≡◌, ◌+◌, ◌<◌, ◌≤◌, ◌∷◌, [], All, length, IsTrue, IsErrOf, IfOk, IsOk, Ok, vec_len};
ghost use Rattle.std.specs.List.{Contains, list_all};
ghost use Rattle.grid_model.specs.Rows.{Cat};
ghost use Rattle.grid_model.specs.Applying.{apply_all};
ghost use Rattle.grid_model.specs.declared.deltas.Delta.{Delta};
ghost use Rattle.grid_journal.specs.Journal.{can_be_kept};
ghost use Rattle.grid_deed.specs.Frame.{IsReady, Frame};
ghost use Rattle.grid_deed.specs.Held.{IsHeld};
ghost use Rattle.grid_deed.specs.Safe.{KeepWhole};
ghost use Rattle.file_laws.specs.Removals.{no_orphans, AreOrphans, HaveOwnNames};
ghost use Rattle.grid_deed.specs.Deeds.{IsDiscarded, AreDiscarded};

use crate::performing::commit;
use grid_journal::{JournalError, Store};
use grid_model::{Delta, Deltas, NewFile, NewFiles};
use grid_outside::{Ambient, Disk, Outside, Plugin};
use grid_vault::{Fault, Removed, remove, remove_all};
use std::alloc::{AllocError, Global};

/// Asks the removal of an orphan's file, and takes its row away once the file is gone. Where the store fails its slot is
/// answered, and the row stays.
pub fn discard<D: Disk, A: Ambient, P: Plugin>(
    alloc: Global,
    store: &mut Store,
    outside: &mut Outside<D, A, P>,
    file: NewFile,
) -> Result<Option<Fault>, JournalError>
    requires held { IsHeld store.old.cat (D.disk outside.old.main) store.old }
    requires orphan { Contains store.old.cat.orphans (record { vault = file.name; slot = file.slot }) }
    requires slot { file.slot < vec_len outside.old.stores }
    requires ready { IsReady D.disk P.plugin 5 outside.old }
    ensures done { (after : Cat) → apply_all store.old.cat (no_orphans (file ∷ [])) ≡ Ok after →
        IsDiscarded P.plugin store.old.cat after file.slot outside.old.moments (D.disk outside.old.main)
        (D.disk outside.new.main) outside.old.stores.items outside.new.stores.items store.old result store.new }
    ensures whole { KeepWhole P.plugin outside.old.moments store.old.cat (D.disk outside.old.main)
        (D.disk outside.new.main) outside.old.stores.items outside.new.stores.items }
    ensures frame { Frame D.disk P.plugin (IsErrOf result JournalError.DiskFault) outside.old outside.new }
    ensures drawn { outside.new.moments ≤ outside.old.moments + 5 }
{
    let Ok(deltas) = row_taken(alloc, file) else {
        return Err(JournalError::Memory);
    };
    match remove(&mut outside.stores, &mut outside.moments, &file) {
        Ok(()) => {}
        Err(fault) => return Ok(Some(fault)),
    }
    match commit(alloc, store, outside, deltas) {
        Ok(()) => Ok(None),
        Err(error) => Err(error),
    }
}

// The orphan's row is taken away. Fails for want of memory alone.
fn row_taken(alloc: Global, file: NewFile) -> Result<Deltas, AllocError>
    ensures changes { IfOk result (λ deltas. deltas ≡ no_orphans (file ∷ [])) }
    ensures kept { IfOk result (λ deltas. IsTrue (list_all can_be_kept deltas)) }
{
    let deltas = vec![in alloc; Delta::NoOrphan { vault: file.name }]?;
    Ok(Deltas::from_vec(deltas))
}

/// Asks the removal of each of these orphans' files, whichever stores fail, and then takes the rows of those that are gone
/// away, in one commit. The files that are left are answered, and their rows stay.
///
/// Where no file is gone nothing is committed. Draws one moment for each file and at most 4 more.
pub fn discard_all<D: Disk, A: Ambient, P: Plugin>(
    alloc: Global,
    store: &mut Store,
    outside: &mut Outside<D, A, P>,
    files: &NewFiles,
) -> Result<NewFiles, JournalError>
    requires held { IsHeld store.old.cat (D.disk outside.old.main) store.old }
    requires orphans { AreOrphans store.old.cat files.now }
    requires names { HaveOwnNames files.now }
    requires slots { All (λ file. file.slot < vec_len outside.old.stores) files.now }
    requires ready { IsReady D.disk P.plugin (length files.now + 4) outside.old }
    ensures done { AreDiscarded D.disk P.plugin store.old.cat files.now outside.old.moments outside.old.main outside.new.main
        outside.old.stores.items outside.new.stores.items store.old result store.new }
    ensures whole { KeepWhole P.plugin outside.old.moments store.old.cat (D.disk outside.old.main) (D.disk outside.new.main)
        outside.old.stores.items outside.new.stores.items }
    ensures frame { Frame D.disk P.plugin (IsErrOf result JournalError.DiskFault) outside.old outside.new }
    ensures drawn { outside.new.moments ≤ outside.old.moments + length files.now + 4 }
{
    let removed = match remove_all(alloc, &mut outside.stores, &mut outside.moments, files) {
        Ok(removed) => removed,
        Err(_) => return Err(JournalError::Memory),
    };
    let Removed { gone, left } = removed;
    if gone.as_slice().is_empty() {
        return Ok(left);
    }
    let Ok(deltas) = rows_taken(alloc, gone.as_slice()) else {
        return Err(JournalError::Memory);
    };
    match commit(alloc, store, outside, deltas) {
        Ok(()) => Ok(left),
        Err(error) => Err(error),
    }
}

// The orphans' rows are taken away. Fails for want of memory alone.
fn rows_taken(alloc: Global, files: &[NewFile]) -> Result<Deltas, AllocError>
    ensures changes { IfOk result (λ deltas. deltas ≡ no_orphans files.now) }
    ensures kept { IfOk result (λ deltas. IsTrue (list_all can_be_kept deltas)) }
{
    let mut deltas = Vec::new(alloc);
    for file in files {
        deltas.push(row_gone(file.name))?;
    }
    Ok(Deltas::from_vec(deltas))
}

// The orphan's row of this number is taken away.
fn row_gone(vault: u64) -> Delta
    ensures change { result ≡ Delta.NoOrphan vault }
    ensures kept { IsTrue (can_be_kept result) }
{
    Delta::NoOrphan { vault }
}

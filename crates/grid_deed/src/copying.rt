ghost use Rattle.std.specs.Prelude.{◌≡◌, ℕ, ◌+◌, ◌*◌, ◌^◌, ◌<◌, ◌≤◌, [], All, length, IfOk, IsErrOf, Ok, vec_len};
ghost use Rattle.grid_outside.specs.Device.{EachMember};
ghost use Rattle.grid_model.specs.DataLines.{parts};
ghost use Rattle.grid_model.specs.Rows.{Cat};
ghost use Rattle.grid_model.specs.Whole.{IsNamed};
ghost use Rattle.grid_journal.specs.Journal.{Journal};
ghost use Rattle.grid_vault.specs.Copying.{AreNamedApart, CopiesOnly};
ghost use Rattle.grid_vault.specs.Vault.{IsAmong};
ghost use Rattle.file_laws.specs.Plans.{IsCopyPlan};
ghost use Rattle.grid_deed.specs.Frame.{IsReady, Frame};
ghost use Rattle.grid_deed.specs.Held.{IsHeld};
ghost use Rattle.grid_deed.specs.Safe.{AreWhole, KeepWhole};
ghost use Rattle.grid_deed.specs.Deeds.{moments_of, CopySays, IsCopied, TakesAsCopied};

use crate::performing::commit;
use grid_journal::{JournalError, Store};
use grid_model::{NewFiles, OldFile, Plan};
use grid_outside::{Ambient, Disk, Moments, Outside, Plugin};
use grid_vault::{Fault, Found, ReadError, copy};
use std::alloc::{AllocError, Global};

/// How the copying of a file ended.
#[derive(Clone, Copy, Debug, PartialEq, Eq)]
pub enum Copied {
    /// Each of the files has the recorded bytes, or there was none to be made.
    Done,
    /// A call of a store failed, that of the file which was read or of one that was made.
    Fault(Fault),
    /// The file is not what is recorded, and this was found.
    Bad(Found),
}

/// Carries out a plan that copies a file: keeps its first changes, copies the file to each of the plan's files in one pass, and
/// keeps the last changes. Where a call of a store fails the slot is answered, and where what was read is not what is recorded
/// that is answered; the files stay as what the first changes made them then.
///
/// A plan without files reads nothing. Want of memory for the copy ends the deed after its first changes.
pub fn perform_copy<D: Disk, A: Ambient, P: Plugin>(
    alloc: Global,
    store: &mut Store,
    outside: &mut Outside<D, A, P>,
    plan: Plan,
    from: &OldFile,
) -> Result<Copied, JournalError>
    requires plan { (kept : Cat) × IsHeld kept (D.disk outside.old.main) store.old × IsCopyPlan kept store.old.cat (vec_len outside.old.stores) plan from.now }
    requires source { from.now.slot < vec_len outside.old.stores }
    requires ready { IsReady D.disk P.plugin (moments_of plan.files from.now.size) outside.old }
    ensures done { (kept : Cat) → IsHeld kept (D.disk outside.old.main) store.old →
        (p : IsCopyPlan kept store.old.cat (vec_len outside.old.stores) plan from.now) →
        IsCopied D.disk P.plugin p outside.old outside.new result store.new }
    ensures whole { (kept : Cat) → IsHeld kept (D.disk outside.old.main) store.old →
        IsCopyPlan kept store.old.cat (vec_len outside.old.stores) plan from.now →
        KeepWhole P.plugin outside.old.moments kept (D.disk outside.old.main) (D.disk outside.new.main) outside.old.stores.items outside.new.stores.items }
    ensures stores_still { plan.files ≡ [] → outside.new.stores ≡ outside.old.stores }
    ensures frame { Frame D.disk P.plugin (IsErrOf result JournalError.DiskFault) outside.old outside.new }
    ensures drawn { outside.new.moments ≤ outside.old.moments + moments_of plan.files from.now.size }
{
    match commit(alloc, store, outside, plan.before) {
        Ok(()) => {}
        Err(error) => return Err(error),
    }
    match copy_each(
        alloc,
        &mut outside.stores,
        &mut outside.moments,
        from,
        &plan.files,
    ) {
        Ok(Copied::Done) => {}
        Ok(Copied::Fault(fault)) => return Ok(Copied::Fault(fault)),
        Ok(Copied::Bad(found)) => return Ok(Copied::Bad(found)),
        Err(AllocError) => return Err(JournalError::Memory),
    }
    if plan.after.as_slice().is_empty() {
        return Ok(Copied::Done);
    }
    match commit(alloc, store, outside, plan.after) {
        Ok(()) => Ok(Copied::Done),
        Err(error) => Err(error),
    }
}

/// Copies the file to each of these, between two commits, and asks nothing of a store where there are none. Main is not called. Each
/// of the files is to be named before: then all stays whole while they are made, and once they are made by the rows that take them
/// for copies too. Fails for want of memory alone.
pub fn copy_file<D: Disk, A: Ambient, P: Plugin>(
    alloc: Global,
    outside: &mut Outside<D, A, P>,
    from: &OldFile,
    files: &NewFiles,
) -> Result<Copied, AllocError>
    requires source { from.now.slot < vec_len outside.old.stores }
    requires other { ¬ IsAmong files.now from.now.slot from.now.name }
    requires slots { All (λ file. file.slot < vec_len outside.old.stores) files.now }
    requires apart { AreNamedApart files.now }
    requires ready { IsReady D.disk P.plugin (length files.now * (2 + parts from.now.size)) outside.old }
    ensures says { IfOk result (CopySays P.plugin files.now from.now outside.old.stores.items outside.new.stores.items) }
    ensures stores_still { files.now ≡ [] → outside.new.stores ≡ outside.old.stores }
    ensures main { outside.new.main ≡ outside.old.main }
    ensures frame { Frame D.disk P.plugin ⊥ outside.old outside.new }
    ensures whole { (kept : Cat) (store : Journal) → IsHeld kept (D.disk outside.old.main) store →
        ((slot name : ℕ) → IsAmong files.now slot name → IsNamed kept slot name) → KeepWhole P.plugin outside.old.moments kept
        (D.disk outside.old.main) (D.disk outside.new.main) outside.old.stores.items outside.new.stores.items }
    ensures made { result ≡ Ok Copied.Done → (before after : Cat) → TakesAsCopied files.now from.now before after →
        (t : ℕ) → outside.new.moments < t → AreWhole P.plugin t before outside.new.stores.items → AreWhole P.plugin t after outside.new.stores.items }
    ensures drawn { outside.new.moments ≤ outside.old.moments + length files.now * (2 + parts from.now.size) }
{
    copy_each(
        alloc,
        &mut outside.stores,
        &mut outside.moments,
        from,
        files,
    )
}

// Copies the file to each of these, and asks nothing of a store where there are none. Fails for want of memory alone.
fn copy_each<P: Plugin>(
    alloc: Global,
    stores: &mut Vec<P>,
    moments: &mut Moments,
    from: &OldFile,
    files: &NewFiles,
) -> Result<Copied, AllocError>
    requires source { from.now.slot < vec_len stores.old }
    requires other { ¬ IsAmong files.now from.now.slot from.now.name }
    requires slots { All (λ file. file.slot < vec_len stores.old) files.now }
    requires apart { AreNamedApart files.now }
    requires last { EachMember (λ k store. (P.plugin store).last ≤ moments.old) stores.old.items }
    requires room { moments.old + length files.now * (2 + parts from.now.size) < 2 ^ 128 }
    ensures says { IfOk result (CopySays P.plugin files.now from.now stores.old.items stores.new.items) }
    ensures stores_still { files.now ≡ [] → stores.new ≡ stores.old }
    ensures any_moment { CopiesOnly P.plugin moments.old moments.new from.now.slot files.now stores.old.items stores.new.items }
    ensures last { EachMember (λ k store. (P.plugin store).last ≤ moments.new) stores.new.items }
    ensures drawn_from { moments.old ≤ moments.new }
    ensures drawn { moments.new ≤ moments.old + length files.now * (2 + parts from.now.size) }
{
    if files.as_slice().is_empty() {
        return Ok(Copied::Done);
    }
    match copy(alloc, stores, moments, from, files) {
        Ok(None) => Ok(Copied::Done),
        Ok(Some(found)) => Ok(Copied::Bad(found)),
        Err(ReadError::Memory) => Err(AllocError),
        Err(ReadError::Fault { slot }) => Ok(Copied::Fault(Fault { slot })),
    }
}

ghost use Rattle.std.specs.Prelude.{◌≡◌, ◌≢◌, ◌+◌, ◌-◌, ◌^◌, ◌<◌, ◌≤◌, IsTrue, IfOk, IsErrOf, OnOk, is_some};
ghost use Rattle.std.specs.List.{list_all};
ghost use Rattle.grid_outside.specs.Fault.{Rose};
ghost use Rattle.grid_model.specs.Rows.{Cat};
ghost use Rattle.grid_journal.specs.Journal.{can_be_kept};
ghost use Rattle.grid_journal.specs.declared.error.JournalError.{JournalError as Error};
ghost use Rattle.grid_deed.specs.Frame.{AddsInRoom, Goes};
ghost use Rattle.grid_deed.specs.Held.{IsHeld, IsCommitted};
ghost use Rattle.grid_headline.specs.Ends.{HasOneMore};
ghost use Rattle.run_open.specs.Beginning.{begin_deltas, run_begun};
ghost use Rattle.service_run.specs.Errors.{IsOfCommit};

use grid_journal::{JournalError, Store};
use grid_model::{Delta, Deltas, Numbers};
use grid_outside::{Disk, Moments};
use grid_tables::Tables;
use std::alloc::{AllocError, Global};

/// Begins a run, in one commit with what is staged: its number is one more than that of the last one, no command of it has changed
/// anything, and none is pending. Draws at most 4 moments.
pub(crate) fn begin<D: Disk>(
    alloc: Global,
    store: &mut Store,
    main: &mut D,
    spare: &mut D,
    moments: &mut Moments,
) -> Result<(), JournalError>
    requires held { (kept : Cat) × IsHeld kept (D.disk main.old) store.old }
    requires run { store.old.cat.numbers.run ≢ 2 ^ 64 - 1 }
    requires main_last { (D.disk main.old).last ≤ moments.old }
    requires room { moments.old + 4 < 2 ^ 128 }
    ensures committed { (kept : Cat) → IsHeld kept (D.disk main.old) store.old →
        IsCommitted kept (run_begun store.old.cat) moments.old store.old (D.disk main.old) (D.disk main.new) result store.new }
    ensures one { OnOk result (IsTrue (D.disk main.old).tells → HasOneMore (D.disk main.old).holds (D.disk main.new).holds) }
    ensures of_commit { (e : Error) → IsErrOf result e → IsOfCommit e }
    ensures goes { Goes moments.old (D.disk main.old) (D.disk main.new) }
    ensures main_last { (D.disk main.new).last ≤ moments.new }
    ensures in_room { ¬ IsErrOf result JournalError.DiskFault → AddsInRoom (D.disk main.old) (D.disk main.new) }
    ensures cause { IsErrOf result JournalError.DiskFault → Rose (D.disk main.old).faults (D.disk main.new).faults }
    ensures spare { spare.new ≡ spare.old }
    ensures drawn_from { moments.old ≤ moments.new }
    ensures drawn { moments.new ≤ moments.old + 4 }
{
    let tables = store.tables();
    let last = tables.numbers();
    let is_pending = has_pending(tables);
    let numbers = Numbers {
        next_vault: last.next_vault,
        run: last.run + 1,
        last: 0,
    };
    let Ok(deltas) = begin_deltas(alloc, is_pending, numbers) else {
        return Err(JournalError::Memory);
    };
    store.commit(alloc, main, spare, moments, deltas)
}

// Whether a command is pending.
fn has_pending(tables: &Tables) -> bool
    ensures { result ≡ is_some tables.now.pending }
{
    tables.pending().is_some()
}

// The changes with which a run is begun that has these numbers. Fails for want of memory alone.
fn begin_deltas(alloc: Global, is_pending: bool, numbers: Numbers) -> Result<Deltas, AllocError>
    ensures is { IfOk result (λ deltas. deltas ≡ begin_deltas is_pending numbers) }
    ensures spelled { IfOk result (λ deltas. IsTrue (list_all can_be_kept deltas)) }
{
    let mut deltas = Vec::new(alloc);
    if is_pending {
        deltas.push(Delta::NoPending)?;
    }
    deltas.push(Delta::Numbers(numbers))?;
    Ok(Deltas::from_vec(deltas))
}

ghost use Rattle.std.specs.Prelude.{◌≡◌, IsOk, OnOk, Ok};
ghost use Rattle.std.specs.List.{AllByRecursion};
ghost use Rattle.grid_model.specs.Rows.{Cat};
ghost use Rattle.grid_model.specs.Applying.{apply_all};
ghost use Rattle.grid_journal.specs.Journal.{MayBeKept};
ghost use Rattle.grid_deed.specs.Held.{IsHeld, IsStaged};

use grid_journal::Store;
use grid_model::Deltas;
use grid_outside::{Ambient, Disk, Outside, Plugin};
use std::alloc::{AllocError, Global};

/// Applies changes to the rows, and leaves them to the next commit. Nothing outside is called. Fails for want of memory alone, and then
/// the store is of no more use.
pub fn stage<D: Disk, A: Ambient, P: Plugin>(
    alloc: Global,
    store: &mut Store,
    outside: &Outside<D, A, P>,
    deltas: Deltas,
) -> Result<(), AllocError>
    requires held { (kept : Cat) × IsHeld kept (D.disk outside.now.main) store.old }
    requires apply { IsOk (apply_all store.old.cat deltas) }
    requires spelled { AllByRecursion MayBeKept deltas }
    ensures { (kept after : Cat) → IsHeld kept (D.disk outside.now.main) store.old → apply_all store.old.cat deltas ≡ Ok after →
        OnOk result (IsStaged kept after (D.disk outside.now.main) store.new) }
{
    let _main = &outside.main;
    store.stage(alloc, deltas)
}

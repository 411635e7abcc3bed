ghost use Rattle.std.specs.Prelude.{◌≡◌, ℕ, ◌<◌, ◌≤◌, IfOk, IsErrOf, vec_len};
ghost use Rattle.grid_outside.specs.Device.{EachPair, Looks};
ghost use Rattle.grid_model.specs.Rows.{Cat};
ghost use Rattle.grid_journal.specs.Journal.{Journal};
ghost use Rattle.grid_vault.specs.Sending.{AtSlot};
ghost use Rattle.grid_vault.specs.Vault.{RoseAt};
ghost use Rattle.grid_vault.specs.Verifying.{Verifies};
ghost use Rattle.grid_deed.specs.Frame.{IsReady, Frame};
ghost use Rattle.grid_deed.specs.Held.{IsHeld};
ghost use Rattle.grid_deed.specs.Safe.{KeepWhole};

use grid_model::OldFile;
use grid_outside::{Ambient, Disk, Outside, Plugin};
use grid_vault::{Found, ReadError, verify};
use std::alloc::Global;

/// Reads a file, between two commits, and answers whether it has the recorded size and digest, as the vault's `verify` does.
/// Nothing of main or of any store is changed.
pub fn check_file<D: Disk, A: Ambient, P: Plugin>(
    alloc: Global,
    outside: &mut Outside<D, A, P>,
    file: &OldFile,
) -> Result<Option<Found>, ReadError>
    requires slot { file.now.slot < vec_len outside.old.stores }
    requires ready { IsReady D.disk P.plugin 0 outside.old }
    ensures verified { IfOk result (λ found. AtSlot P.plugin file.now.slot outside.old.stores.items (λ store. Verifies store file.now found)) }
    ensures slot { (slot : ℕ) → IsErrOf result (ReadError.Fault slot) → slot ≡ file.now.slot }
    ensures cause { IsErrOf result (ReadError.Fault file.now.slot) → RoseAt P.plugin file.now.slot outside.old.stores.items outside.new.stores.items }
    ensures whole { (kept : Cat) (store : Journal) → IsHeld kept (D.disk outside.old.main) store →
        KeepWhole P.plugin outside.old.moments kept (D.disk outside.old.main) (D.disk outside.new.main) outside.old.stores.items outside.new.stores.items }
    ensures frame { Frame D.disk P.plugin ⊥ outside.old outside.new }
    ensures looks { EachPair (λ k before after. Looks (P.plugin before) (P.plugin after)) outside.old.stores.items outside.new.stores.items }
    ensures main { outside.new.main ≡ outside.old.main }
    ensures drawn { outside.new.moments ≡ outside.old.moments }
{
    verify(alloc, &mut outside.stores, file)
}

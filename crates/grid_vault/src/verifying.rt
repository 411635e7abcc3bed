ghost use Rattle.std.specs.Prelude.{◌≡◌, ℕ, ◌<◌, ◌≤◌, length, IfOk, IsErrOf, OnErr, vec_len};
ghost use Rattle.grid_outside.specs.Device.{Looks, EachMember};
ghost use Rattle.grid_outside.specs.Fault.{Rose};
ghost use Rattle.grid_vault.specs.Sending.{AtSlot, AllKeep};
ghost use Rattle.grid_vault.specs.Vault.{RoseAt};
ghost use Rattle.grid_vault.specs.Verifying.{Verifies};

use crate::reading::{FileReader, Found};
use crate::{OldFile, PART};
use grid_outside::{Plugin, StoreFault};
use std::alloc::{AllocError, Global};
use thiserror::Error;

// A part, and one byte behind it.
const ROOM: usize = PART + 1;

/// Why a file was not read to its end.
#[derive(Clone, Copy, Debug, PartialEq, Eq, Error)]
pub enum ReadError {
    /// There was no memory. Nothing was read.
    #[error("out of memory")]
    Memory,
    /// A call of the store in this slot failed, and its count of faults rose.
    #[error("the store in slot {slot} failed")]
    Fault { slot: u8 },
}

/// Reads a file in blocks of 65,536 bytes, and answers nothing where it has the recorded size and digest, and else what was
/// found: its size, or one byte more than the recorded one, and the digest of these bytes.
///
/// The slot is below the number of stores, and none of these was given a moment past so many. Draws no moment. Errors are
/// `Memory`, before anything is read, and `Fault`.
pub fn verify<P: Plugin>(
    alloc: Global,
    stores: &mut Vec<P>,
    file: &OldFile,
) -> Result<Option<Found>, ReadError>
    requires slot { file.now.slot < vec_len stores.old }
    ensures verified { IfOk result (λ found. AtSlot P.plugin file.now.slot stores.old.items (λ store. Verifies store file.now found)) }
    ensures unchanged { IsErrOf result ReadError.Memory → stores.new.items ≡ stores.old.items }

    // Nothing of any store is changed.
    ensures any_moment { (moments : ℕ) → EachMember (λ k store. (P.plugin store).last ≤ moments) stores.old.items →
        AllKeep P.plugin moments moments file.now.slot stores.old.items stores.new.items }

    ensures slot { (slot : ℕ) → IsErrOf result (ReadError.Fault slot) → slot ≡ file.now.slot }
    ensures cause { IsErrOf result (ReadError.Fault file.now.slot) → RoseAt P.plugin file.now.slot stores.old.items stores.new.items }
{
    let Ok(mut buf) = read_buffer(alloc) else {
        return Err(ReadError::Memory);
    };
    let slot = file.slot;
    match verify_from(&mut stores[slot as usize], file, &mut buf) {
        Ok(found) => Ok(found),
        Err(StoreFault) => Err(ReadError::Fault { slot }),
    }
}

// Reads a file of one store, with a buffer that is handed in.
fn verify_from<P: Plugin>(
    store: &mut P,
    file: &OldFile,
    buf: &mut [u8],
) -> Result<Option<Found>, StoreFault>
    requires room { length buf.old ≡ 65537 }
    ensures verified { IfOk result (Verifies (P.plugin store.old) file.now) }
    ensures looks { Looks (P.plugin store.old) (P.plugin store.new) }
    ensures later { (P.plugin store.old).faults ≤ (P.plugin store.new).faults }
    ensures cause { OnErr result (Rose (P.plugin store.old).faults (P.plugin store.new).faults) }
{
    let mut reader = FileReader::new();
    'parts: loop {
        let part = reader.next_part(store, file, buf)?;
        if part.is_last {
            return Ok(reader.compare(file));
        }
    }
}

pub(crate) fn read_buffer(alloc: Global) -> Result<Vec<u8>, AllocError>
    ensures { IfOk result (λ buf. vec_len buf ≡ 65537) }
{
    Ok(vec![in alloc; 0; ROOM]?)
}

ghost use Rattle.std.specs.Prelude.{◌≡◌, ℕ, ◌+◌, ◌*◌, ◌^◌, ◌<◌, ◌≤◌, All, length, IsTrue, OnOk, OnErr, IfErr, vec_len};
ghost use Rattle.grid_outside.specs.Device.{Between, EachMember};
ghost use Rattle.grid_outside.specs.Fault.{Rose};
ghost use Rattle.grid_outside.specs.Files.{Writes, IsStable};
ghost use Rattle.grid_model.specs.DataLines.{parts};
ghost use Rattle.grid_vault.specs.Vault.{WritesOnly, HasSlot, RoseAt, IsStableAt};
ghost use Rattle.grid_vault.specs.Write.{Extends};

use crate::{Fault, NewFile, PART};
use grid_model::NewFiles;
use grid_outside::{Moments, Plugin, StoreFault};

// Appends the bytes to a file that was begun, in parts.
pub(crate) fn append_all<P: Plugin>(
    store: &mut P,
    moments: &mut Moments,
    name: u64,
    bytes: &[u8],
) -> Result<(), StoreFault>
    requires last { (P.plugin store.old).last ≤ moments.old }
    requires room { moments.old + parts (length bytes.now) < 2 ^ 128 }
    ensures extends { OnOk result (IsTrue (P.plugin store.old).tells →
        Extends name bytes.now (P.plugin store.old).holds (P.plugin store.new).holds) }
    ensures span { Between moments.old moments.new (Writes name) (P.plugin store.old) (P.plugin store.new) }
    ensures cause { OnErr result (Rose (P.plugin store.old).faults (P.plugin store.new).faults) }
    ensures drawn_from { moments.old ≤ moments.new }
    ensures drawn { moments.new ≤ moments.old + parts (length bytes.now) }
{
    let mut rest = bytes;
    while !rest.is_empty() {
        let (part, after) = rest.split_at(rest.len().min(PART));
        store.append(moments.next(), name, part)?;
        rest = after;
    }
    Ok(())
}

// Writes one file. It draws at most two moments more than the appends.
fn write_file<P: Plugin>(
    store: &mut P,
    moments: &mut Moments,
    name: u64,
    bytes: &[u8],
) -> Result<(), StoreFault>
    requires last { (P.plugin store.old).last ≤ moments.old }
    requires room { moments.old + 2 + parts (length bytes.now) < 2 ^ 128 }
    ensures stable { OnOk result (IsTrue (P.plugin store.old).tells → IsStable name bytes.now (P.plugin store.new)) }
    ensures span { Between moments.old moments.new (Writes name) (P.plugin store.old) (P.plugin store.new) }
    ensures cause { OnErr result (Rose (P.plugin store.old).faults (P.plugin store.new).faults) }
    ensures drawn_from { moments.old ≤ moments.new }
    ensures drawn { moments.new ≤ moments.old + 2 + parts (length bytes.now) }
{
    store.create(moments.next(), name)?;
    append_all(store, moments, name, bytes)?;
    store.finish(moments.next(), name)?;
    Ok(())
}

// The same over a slice.
fn write_each<P: Plugin>(
    stores: &mut Vec<P>,
    moments: &mut Moments,
    files: &[NewFile],
    bytes: &[u8],
) -> Result<(), Fault>
    requires slots { All (λ file. file.slot < vec_len stores.old) files.now }
    requires last { EachMember (λ k store. (P.plugin store).last ≤ moments.old) stores.old.items }
    requires room { moments.old + length files.now * (2 + parts (length bytes.now)) < 2 ^ 128 }
    ensures stable { OnOk result (All (IsStableAt P.plugin stores.new.items bytes.now) files.now) }
    ensures any_moment { WritesOnly P.plugin moments.old moments.new files.now stores.old.items stores.new.items }
    ensures last { EachMember (λ k store. (P.plugin store).last ≤ moments.new) stores.new.items }
    ensures slot { IfErr result (λ fault. HasSlot files.now fault.slot) }
    ensures cause { IfErr result (λ fault. RoseAt P.plugin fault.slot stores.old.items stores.new.items) }
    ensures drawn_from { moments.old ≤ moments.new }
    ensures drawn { moments.new ≤ moments.old + length files.now * (2 + parts (length bytes.now)) }
{
    for file in files {
        let slot = file.slot;
        match write_file(&mut stores[slot as usize], moments, file.name, bytes) {
            Ok(()) => {}
            Err(StoreFault) => return Err(Fault { slot }),
        }
    }
    Ok(())
}

/// Makes each of these files with these bytes, one after another, until a call of a store fails.
///
/// The slots are below the number of stores, and none of these was given a moment past those drawn. There is no file
/// of these names before, or its `create` fails. Draws at most two moments for each file and one for each 65,536
/// bytes begun. Takes no memory.
pub fn write_all<P: Plugin>(
    stores: &mut Vec<P>,
    moments: &mut Moments,
    files: &NewFiles,
    bytes: &[u8],
) -> Result<(), Fault>
    requires slots { All (λ file. file.slot < vec_len stores.old) files.now }
    requires last { EachMember (λ k store. (P.plugin store).last ≤ moments.old) stores.old.items }
    requires room { moments.old + length files.now * (2 + parts (length bytes.now)) < 2 ^ 128 }

    // Each file is finished with these bytes, and no stop takes it away.
    ensures stable { OnOk result (All (IsStableAt P.plugin stores.new.items bytes.now) files.now) }

    // At each moment every other file of every slot is as it was.
    ensures any_moment { WritesOnly P.plugin moments.old moments.new files.now stores.old.items stores.new.items }
    ensures last { EachMember (λ k store. (P.plugin store).last ≤ moments.new) stores.new.items }

    ensures slot { IfErr result (λ fault. HasSlot files.now fault.slot) }
    ensures cause { IfErr result (λ fault. RoseAt P.plugin fault.slot stores.old.items stores.new.items) }
    ensures drawn_from { moments.old ≤ moments.new }
    ensures drawn { moments.new ≤ moments.old + length files.now * (2 + parts (length bytes.now)) }
{
    write_each(stores, moments, files.as_slice(), bytes)
}

ghost use Rattle.std.specs.Prelude.{◌≡◌, ◌⊎◌, ℕ, List, ◌+◌, ◌*◌, ◌^◌, ◌<◌, ◌≤◌, ◌++◌, [], None, All, length, OnOk, IfOk, IfErr, IsErrOf, MatchOption, vec_len};
ghost use Rattle.sha2.specs.Hashers.{Holds256};
ghost use Rattle.grid_outside.specs.Device.{EachMember};
ghost use Rattle.grid_model.specs.DataLines.{parts};
ghost use Rattle.grid_vault.specs.Vault.{WritesOnly, HasSlot, IsAmong, RoseAt, IsStableAt};
ghost use Rattle.grid_vault.specs.Reading.{IsAsRecorded, Differs};
ghost use Rattle.grid_vault.specs.Copying.{AreNamedApart, IsBegunAt, CopiesOnly, Copies};

use crate::reading::{FileReader, Found};
use crate::verifying::{ReadError, read_buffer};
use crate::write::append_all;
use crate::{Fault, NewFile, OldFile};
use grid_model::NewFiles;
use grid_outside::{Moments, Plugin, StoreFault};
use std::alloc::Global;

// Begins each of the files, which is empty then.
fn create_each<P: Plugin>(
    stores: &mut Vec<P>,
    moments: &mut Moments,
    files: &[NewFile],
) -> Result<(), Fault>
    requires slots { All (λ file. file.slot < vec_len stores.old) files.now }
    requires apart { AreNamedApart files.now }
    requires last { EachMember (λ k store. (P.plugin store).last ≤ moments.old) stores.old.items }
    requires room { moments.old + length files.now < 2 ^ 128 }
    ensures begun { OnOk result (All (IsBegunAt P.plugin stores.new.items []) files.now) }
    ensures any_moment { WritesOnly P.plugin moments.old moments.new files.now stores.old.items stores.new.items }
    ensures last { EachMember (λ k store. (P.plugin store).last ≤ moments.new) stores.new.items }
    ensures slot { IfErr result (λ fault. HasSlot files.now fault.slot) }
    ensures cause { IfErr result (λ fault. RoseAt P.plugin fault.slot stores.old.items stores.new.items) }
    ensures drawn_from { moments.old ≤ moments.new }
    ensures drawn { moments.new ≤ moments.old + length files.now }
{
    for file in files {
        let slot = file.slot;
        match stores[slot as usize].create(moments.next(), file.name) {
            Ok(()) => {}
            Err(StoreFault) => return Err(Fault { slot }),
        }
    }
    Ok(())
}

// Adds these bytes, at most 65,536, to each of the files.
fn append_each<P: Plugin>(
    stores: &mut Vec<P>,
    moments: &mut Moments,
    files: &[NewFile],
    bytes: &[u8],
) -> Result<(), Fault>
    requires slots { All (λ file. file.slot < vec_len stores.old) files.now }
    requires apart { AreNamedApart files.now }
    requires last { EachMember (λ k store. (P.plugin store).last ≤ moments.old) stores.old.items }
    requires room { moments.old + length files.now * parts (length bytes.now) < 2 ^ 128 }
    ensures extends { OnOk result ((front : List ℕ) → All (IsBegunAt P.plugin stores.old.items front) files.now →
        All (IsBegunAt P.plugin stores.new.items (front ++ bytes.now)) files.now) }
    ensures any_moment { WritesOnly P.plugin moments.old moments.new files.now stores.old.items stores.new.items }
    ensures last { EachMember (λ k store. (P.plugin store).last ≤ moments.new) stores.new.items }
    ensures slot { IfErr result (λ fault. HasSlot files.now fault.slot) }
    ensures cause { IfErr result (λ fault. RoseAt P.plugin fault.slot stores.old.items stores.new.items) }
    ensures drawn_from { moments.old ≤ moments.new }
    ensures drawn { moments.new ≤ moments.old + length files.now * parts (length bytes.now) }
{
    for file in files {
        let slot = file.slot;
        match append_all(&mut stores[slot as usize], moments, file.name, bytes) {
            Ok(()) => {}
            Err(StoreFault) => return Err(Fault { slot }),
        }
    }
    Ok(())
}

// Finishes each of the files.
fn finish_each<P: Plugin>(
    stores: &mut Vec<P>,
    moments: &mut Moments,
    files: &[NewFile],
) -> Result<(), Fault>
    requires slots { All (λ file. file.slot < vec_len stores.old) files.now }
    requires apart { AreNamedApart files.now }
    requires last { EachMember (λ k store. (P.plugin store).last ≤ moments.old) stores.old.items }
    requires room { moments.old + length files.now < 2 ^ 128 }
    ensures stable { OnOk result ((bytes : List ℕ) → All (IsBegunAt P.plugin stores.old.items bytes) files.now →
        All (IsStableAt P.plugin stores.new.items bytes) files.now) }
    ensures any_moment { WritesOnly P.plugin moments.old moments.new files.now stores.old.items stores.new.items }
    ensures last { EachMember (λ k store. (P.plugin store).last ≤ moments.new) stores.new.items }
    ensures slot { IfErr result (λ fault. HasSlot files.now fault.slot) }
    ensures cause { IfErr result (λ fault. RoseAt P.plugin fault.slot stores.old.items stores.new.items) }
    ensures drawn_from { moments.old ≤ moments.new }
    ensures drawn { moments.new ≤ moments.old + length files.now }
{
    for file in files {
        let slot = file.slot;
        match stores[slot as usize].finish(moments.next(), file.name) {
            Ok(()) => {}
            Err(StoreFault) => return Err(Fault { slot }),
        }
    }
    Ok(())
}

// Finishes each of the files where what was read is as recorded.
fn finish_copy<P: Plugin>(
    stores: &mut Vec<P>,
    moments: &mut Moments,
    from: &OldFile,
    files: &[NewFile],
    reader: FileReader,
) -> Result<Option<Found>, Fault>
    requires slots { All (λ file. file.slot < vec_len stores.old) files.now }
    requires apart { AreNamedApart files.now }
    requires last { EachMember (λ k store. (P.plugin store).last ≤ moments.old) stores.old.items }
    requires room { moments.old + length files.now < 2 ^ 128 }
    ensures says { IfOk result (λ found. (bytes : List ℕ) → reader.read ≡ length bytes → Holds256 reader.hasher bytes →
        MatchOption found (IsAsRecorded from.now bytes) (Differs from.now bytes)) }
    ensures stable { IfOk result (λ found. found ≡ None → (bytes : List ℕ) → All (IsBegunAt P.plugin stores.old.items bytes) files.now →
        All (IsStableAt P.plugin stores.new.items bytes) files.now) }
    ensures any_moment { WritesOnly P.plugin moments.old moments.new files.now stores.old.items stores.new.items }
    ensures last { EachMember (λ k store. (P.plugin store).last ≤ moments.new) stores.new.items }
    ensures slot { IfErr result (λ fault. HasSlot files.now fault.slot) }
    ensures cause { IfErr result (λ fault. RoseAt P.plugin fault.slot stores.old.items stores.new.items) }
    ensures drawn_from { moments.old ≤ moments.new }
    ensures drawn { moments.new ≤ moments.old + length files.now }
{
    match reader.compare(from) {
        Some(found) => Ok(Some(found)),
        None => match finish_each(stores, moments, files) {
            Ok(()) => Ok(None),
            Err(fault) => Err(fault),
        },
    }
}

// Copies a file, with a buffer that is handed in.
fn copy_from<P: Plugin>(
    stores: &mut Vec<P>,
    moments: &mut Moments,
    from: &OldFile,
    files: &[NewFile],
    buf: &mut [u8],
) -> Result<Option<Found>, Fault>
    requires buffer { length buf.old ≡ 65537 }
    requires source { from.now.slot < vec_len stores.old }
    requires other { ¬ IsAmong files.now from.now.slot from.now.name }
    requires slots { All (λ file. file.slot < vec_len stores.old) files.now }
    requires apart { AreNamedApart files.now }
    requires last { EachMember (λ k store. (P.plugin store).last ≤ moments.old) stores.old.items }
    requires room { moments.old + length files.now * (2 + parts from.now.size) < 2 ^ 128 }
    ensures copied { IfOk result (Copies P.plugin from.now files.now stores.old.items stores.new.items) }
    ensures any_moment { CopiesOnly P.plugin moments.old moments.new from.now.slot files.now stores.old.items stores.new.items }
    ensures last { EachMember (λ k store. (P.plugin store).last ≤ moments.new) stores.new.items }
    ensures slot { IfErr result (λ fault. HasSlot files.now fault.slot ⊎ (fault.slot ≡ from.now.slot)) }
    ensures cause { IfErr result (λ fault. RoseAt P.plugin fault.slot stores.old.items stores.new.items) }
    ensures drawn_from { moments.old ≤ moments.new }
    ensures drawn { moments.new ≤ moments.old + length files.now * (2 + parts from.now.size) }
{
    match create_each(stores, moments, files) {
        Ok(()) => {}
        Err(fault) => return Err(fault),
    }
    let slot = from.slot;
    let mut reader = FileReader::new();
    'parts: loop {
        let part = match reader.next_part(&mut stores[slot as usize], from, buf) {
            Ok(part) => part,
            Err(StoreFault) => return Err(Fault { slot }),
        };
        match append_each(stores, moments, files, &buf[..part.count]) {
            Ok(()) => {}
            Err(fault) => return Err(fault),
        }
        if part.is_last {
            return finish_copy(stores, moments, from, files, reader);
        }
    }
}

/// Reads a file once, in blocks of 65,536 bytes, and writes it to each of these files in the same pass. Answers nothing where
/// it has the recorded size and digest, and each of the files is finished then; and else what was found, as `verify` does.
///
/// The slots are below the number of stores, none of these was given a moment past those drawn, no two files have one name,
/// and the file that is read is none of them. There is no file of these names before, or its `create` fails. Draws at most
/// two moments for each file and one for each 65,536 recorded bytes begun. Errors are `Memory`, before anything is read, and
/// `Fault`, of the source or of a file.
pub fn copy<P: Plugin>(
    alloc: Global,
    stores: &mut Vec<P>,
    moments: &mut Moments,
    from: &OldFile,
    files: &NewFiles,
) -> Result<Option<Found>, ReadError>
    requires source { from.now.slot < vec_len stores.old }
    requires other { ¬ IsAmong files.now from.now.slot from.now.name }
    requires slots { All (λ file. file.slot < vec_len stores.old) files.now }
    requires apart { AreNamedApart files.now }
    requires last { EachMember (λ k store. (P.plugin store).last ≤ moments.old) stores.old.items }
    requires room { moments.old + length files.now * (2 + parts from.now.size) < 2 ^ 128 }

    // Each file has what was read, and no stop takes it away, where that is as recorded.
    ensures copied { IfOk result (Copies P.plugin from.now files.now stores.old.items stores.new.items) }
    ensures unchanged { IsErrOf result ReadError.Memory → (stores.new.items ≡ stores.old.items) × (moments.new ≡ moments.old) }

    // At each moment every other file of every slot is as it was.
    ensures any_moment { CopiesOnly P.plugin moments.old moments.new from.now.slot files.now stores.old.items stores.new.items }
    ensures last { EachMember (λ k store. (P.plugin store).last ≤ moments.new) stores.new.items }

    ensures slot { (slot : ℕ) → IsErrOf result (ReadError.Fault slot) → HasSlot files.now slot ⊎ (slot ≡ from.now.slot) }
    ensures cause { (slot : ℕ) → IsErrOf result (ReadError.Fault slot) → RoseAt P.plugin slot stores.old.items stores.new.items }
    ensures drawn_from { moments.old ≤ moments.new }
    ensures drawn { moments.new ≤ moments.old + length files.now * (2 + parts from.now.size) }
{
    let Ok(mut buf) = read_buffer(alloc) else {
        return Err(ReadError::Memory);
    };
    match copy_from(stores, moments, from, files.as_slice(), &mut buf) {
        Ok(found) => Ok(found),
        Err(fault) => Err(ReadError::Fault { slot: fault.slot }),
    }
}

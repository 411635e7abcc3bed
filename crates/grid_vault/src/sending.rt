ghost use Rattle.std.specs.Prelude.{◌≡◌, ℕ, List, ◌+◌, ◌^◌, ◌<◌, ◌≤◌, ◌++◌, length, take, drop, IsTrue, IfOk, OnOk, OnErr, IsErrOf, vec_len};
ghost use Rattle.sha2.specs.Hashers.{Holds256};
ghost use Rattle.grid_outside.specs.Device.{Looks, EachMember};
ghost use Rattle.grid_outside.specs.Fault.{Rose};
ghost use Rattle.grid_model.specs.DataLines.{data_lines, parts};
ghost use Rattle.grid_vault.specs.Vault.{RoseAt};
ghost use Rattle.grid_vault.specs.Reading.{IsAsRecorded};
ghost use Rattle.grid_vault.specs.Sending.{Puts, SendsLines, Breaks, OnFault, AtSlot, AllKeep, SaysOf};

use crate::line::{FRONT, frame_part};
use crate::reading::FileReader;
use crate::{OldFile, PART, SendError, Sent};
use grid_outside::{Moments, Plugin, Sink, SinkFault, StoreFault};
use std::alloc::{AllocError, Global};

// A part with room for the words in front of it, and for one byte behind it.
const ROOM: usize = FRONT + PART + 1;

// Puts a part that stands behind the room for its words as a data line, if it has a byte, and answers how many lines it put.
fn put_part<K: Sink>(
    sink: &mut K,
    moments: &mut Moments,
    number: u64,
    buf: &mut [u8],
    count: usize,
) -> Result<u64, SinkFault>
    requires room { length buf.old ≡ 65569 }
    requires count { count ≤ 65536 }
    requires last { (K.sink sink.old).last ≤ moments.old }
    requires moments { moments.old + parts count < 2 ^ 128 }
    ensures lines { Puts moments.old moments.new (data_lines number (take count (drop 32 buf.old))) (K.sink sink.old) (K.sink sink.new) }
    ensures all { OnOk result (IsTrue (K.sink sink.old).tells →
        (K.sink sink.new).holds ≡ (K.sink sink.old).holds ++ data_lines number (take count (drop 32 buf.old))) }
    ensures count { IfOk result (λ n. n ≡ parts count) }
    ensures cause { OnErr result (Rose (K.sink sink.old).faults (K.sink sink.new).faults) }
    ensures drawn { moments.new ≡ moments.old + parts count }
{
    if count == 0 {
        return Ok(0);
    }
    let start = frame_part(buf, number, count);
    sink.put(moments.next(), &buf[start..FRONT + count + 1])?;
    Ok(1)
}

// Says how the sending ended where no call failed.
fn answer_of(reader: FileReader, from: &OldFile, parts: u64) -> Sent
    ensures { (bytes : List ℕ) → reader.read ≡ length bytes → Holds256 reader.hasher bytes → SaysOf from.now bytes parts result }
{
    match reader.compare(from) {
        None => Sent::Whole,
        Some(found) => Sent::Bad {
            slot: from.slot,
            len: found.len,
            found: found.digest,
            parts,
        },
    }
}

// Sends a file of one store, with a buffer that is handed in.
fn send_from<P: Plugin, K: Sink>(
    store: &mut P,
    moments: &mut Moments,
    from: &OldFile,
    number: u64,
    sink: &mut K,
    buf: &mut [u8],
) -> Result<Sent, SinkFault>
    requires room { length buf.old ≡ 65569 }
    requires last { (K.sink sink.old).last ≤ moments.old }
    requires moments { moments.old + parts from.now.size < 2 ^ 128 }
    ensures sends { IfOk result (SendsLines (P.plugin store.old) moments.old moments.new from.now number (K.sink sink.old) (K.sink sink.new)) }
    ensures breaks { OnErr result (Breaks (P.plugin store.old) moments.old moments.new from.now number (K.sink sink.old) (K.sink sink.new)) }
    ensures looks { Looks (P.plugin store.old) (P.plugin store.new) }
    ensures later { (P.plugin store.old).faults ≤ (P.plugin store.new).faults }
    ensures fault { IfOk result (λ sent. OnFault sent (Rose (P.plugin store.old).faults (P.plugin store.new).faults)) }
    ensures cause { OnErr result (Rose (K.sink sink.old).faults (K.sink sink.new).faults) }
    ensures drawn_from { moments.old ≤ moments.new }
    ensures drawn { moments.new ≤ moments.old + parts from.now.size }
{
    let mut reader = FileReader::new();
    let mut parts = 0;
    'parts: loop {
        let part = match reader.next_part(store, from, &mut buf[FRONT..]) {
            Ok(part) => part,
            Err(StoreFault) => {
                return Ok(Sent::Fault {
                    slot: from.slot,
                    parts,
                });
            }
        };
        parts += put_part(sink, moments, number, buf, part.count)?;
        if part.is_last {
            return Ok(answer_of(reader, from, parts));
        }
    }
}

fn part_buffer(alloc: Global) -> Result<Vec<u8>, AllocError>
    ensures { IfOk result (λ buf. vec_len buf ≡ 65569) }
{
    Ok(vec![in alloc; 0; ROOM]?)
}

/// Reads a file part by part and puts each part of at most 65,536 bytes on the sink as a data line of the reply to
/// the request of this number. What was read is compared with the recorded size and digest.
///
/// A byte past the recorded size is read and not sent, and never more than 2^61 - 1 bytes are read. The slot is below
/// the number of stores, and no device was given a moment past those drawn. Draws at most one moment for each part of
/// the recorded size. Errors are `Memory`, which comes before any call of a device, and `Sink`, after which a first
/// part of the data lines stands.
pub fn send<P: Plugin, K: Sink>(
    alloc: Global,
    stores: &mut Vec<P>,
    moments: &mut Moments,
    from: &OldFile,
    number: u64,
    sink: &mut K,
) -> Result<Sent, SendError>
    requires slot { from.now.slot < vec_len stores.old }
    requires last { EachMember (λ k store. (P.plugin store).last ≤ moments.old) stores.old.items }
    requires sink_last { (K.sink sink.old).last ≤ moments.old }
    requires room { moments.old + parts from.now.size < 2 ^ 128 }

    // Which bytes were added to the sink, and what the answer says of them.
    ensures sent { IfOk result (λ sent. AtSlot P.plugin from.now.slot stores.old.items (λ store.
        SendsLines store moments.old moments.new from.now number (K.sink sink.old) (K.sink sink.new) sent)) }
    ensures broken { IsErrOf result SendError.Sink → AtSlot P.plugin from.now.slot stores.old.items (λ store.
        Breaks store moments.old moments.new from.now number (K.sink sink.old) (K.sink sink.new)) }
    ensures unchanged { IsErrOf result SendError.Memory →
        (sink.new ≡ sink.old) × (stores.new.items ≡ stores.old.items) × (moments.new ≡ moments.old) }

    // At each moment each store has what it had.
    ensures any_moment { AllKeep P.plugin moments.old moments.new from.now.slot stores.old.items stores.new.items }
    ensures last { EachMember (λ k store. (P.plugin store).last ≤ moments.new) stores.new.items }
    ensures sink_last { (K.sink sink.new).last ≤ moments.new }

    ensures fault { IfOk result (λ sent. OnFault sent (RoseAt P.plugin from.now.slot stores.old.items stores.new.items)) }
    ensures cause { IsErrOf result SendError.Sink → Rose (K.sink sink.old).faults (K.sink sink.new).faults }
    ensures drawn_from { moments.old ≤ moments.new }
    ensures drawn { moments.new ≤ moments.old + parts from.now.size }
{
    let Ok(mut buf) = part_buffer(alloc) else {
        return Err(SendError::Memory);
    };
    let slot = from.slot as usize;
    match send_from(&mut stores[slot], moments, from, number, sink, &mut buf) {
        Ok(sent) => Ok(sent),
        Err(SinkFault) => Err(SendError::Sink),
    }
}

ghost use Rattle.std.specs.Prelude.{◌≡◌, ◌↔◌, ℕ, ◌+◌, ◌-◌, ◌^◌, ◌<◌, ◌≤◌, List, [], ◌∷◌, ◌++◌, length, take, drop, map, IsTrue, IfOk};
ghost use Rattle.std.specs.Prelude.{IfErr, OnOk, OnErr, IfSome, IfNone, IsErrOf};
ghost use Rattle.grid_outside.specs.Device.{Looks};
ghost use Rattle.grid_outside.specs.Fault.{Rose};
ghost use Rattle.grid_outside.specs.declared.outside.Wear.{Wear};
ghost use Rattle.frame_log.specs.Blocks.{HasOf, IsSound};
ghost use Rattle.frame_log.specs.Extent.{placed, bodies};
ghost use Rattle.frame_log.specs.Log.{frames, IsBroken};
ghost use Rattle.frame_log.specs.Records.{placed_body};
ghost use Rattle.frame_log.specs.Steps.{IsShutAt, IsOpenAt, IsRecordAt, IsFront, BreaksAt};

use crate::LogError;
use crate::block::BlockReader;
use crate::framing::{HEADER, OPEN, SIZE};
use crate::records::Record;
use grid_outside::Disk;
use std::alloc::Global;

// The length of the record behind this gate, or none where the gate is closed.
fn read_header<D: Disk>(
    disk: &mut D,
    reader: &mut BlockReader,
    end: u64,
    gate: u64,
) -> Result<Option<u64>, LogError>
    requires sound { IsSound reader.old }
    requires has { IsTrue (D.disk disk.old).tells → HasOf (D.disk disk.old).holds reader.old }
    requires end { IsTrue (D.disk disk.old).tells → end ≡ length (D.disk disk.old).holds }
    ensures sound { IsSound reader.new }
    ensures has { IsTrue (D.disk disk.old).tells → HasOf (D.disk disk.old).holds reader.new }
    ensures fits { IfOk result (λ header. IfSome header (λ len. gate + 9 + len ≤ end)) }
    ensures opened { IfOk result (λ header. IfSome header (λ len. IsTrue (D.disk disk.old).tells → IsOpenAt gate len (D.disk disk.old).holds)) }
    ensures shut { IfOk result (λ header. IfNone header (IsTrue (D.disk disk.old).tells → IsShutAt gate (D.disk disk.old).holds)) }
    ensures broken { (at : ℕ) → IsErrOf result (LogError.NotALog at) → IsTrue (D.disk disk.old).tells →
        (before : List (List ℕ)) → BreaksAt before gate at (D.disk disk.old).holds }
    ensures looks { Looks (D.disk disk.old) (D.disk disk.new) }
    ensures later { (D.disk disk.old).faults ≤ (D.disk disk.new).faults }
    ensures not_worn { (what : Wear) (at : ℕ) → ¬ IsErrOf result (LogError.Worn what at) }
    ensures cause { IsErrOf result LogError.DiskFault → Rose (D.disk disk.old).faults (D.disk disk.new).faults }
{
    let mut state = [0];
    if reader.read(disk, gate, &mut state)? == 0 || gate >= end {
        return Err(LogError::NotALog { at: gate });
    }
    if state[0] != OPEN {
        return Ok(None);
    }
    let mut size = [0; SIZE];
    let count = reader.read(disk, gate + 1, &mut size)?;
    let len = u64::from_be_bytes(size);
    let rest = end - gate - 1;
    if count < SIZE || rest < SIZE as u64 || len > rest - SIZE as u64 {
        return Err(LogError::NotALog { at: gate + 1 });
    }
    Ok(Some(len))
}

// The body of this length at this place, which lies before the end.
fn read_body<D: Disk>(
    alloc: Global,
    disk: &mut D,
    reader: &mut BlockReader,
    place: u64,
    len: u64,
) -> Result<Vec<u8>, LogError>
    requires sound { IsSound reader.old }
    requires has { IsTrue (D.disk disk.old).tells → HasOf (D.disk disk.old).holds reader.old }
    requires place { 9 ≤ place }
    requires within { IsTrue (D.disk disk.old).tells → place + len ≤ length (D.disk disk.old).holds }
    ensures sound { IsSound reader.new }
    ensures has { IsTrue (D.disk disk.old).tells → HasOf (D.disk disk.old).holds reader.new }
    ensures length { IfOk result (λ body. length body.items ≡ len) }
    ensures bytes { IfOk result (λ body. IsTrue (D.disk disk.old).tells → body.items ≡ take len (drop place (D.disk disk.old).holds)) }
    ensures whole { (at : ℕ) → IsErrOf result (LogError.NotALog at) → ¬ IsTrue (D.disk disk.old).tells }
    ensures looks { Looks (D.disk disk.old) (D.disk disk.new) }
    ensures later { (D.disk disk.old).faults ≤ (D.disk disk.new).faults }
    ensures not_worn { (what : Wear) (at : ℕ) → ¬ IsErrOf result (LogError.Worn what at) }
    ensures cause { IsErrOf result LogError.DiskFault → Rose (D.disk disk.old).faults (D.disk disk.new).faults }
{
    let mut body = vec![in alloc; 0; len as usize]?;
    let count = reader.read(disk, place, &mut body)?;
    if count < body.len() {
        return Err(LogError::NotALog {
            at: place - SIZE as u64,
        });
    }
    Ok(body)
}

// The record behind this gate, or none where the gate is closed.
fn read_record<D: Disk>(
    alloc: Global,
    disk: &mut D,
    reader: &mut BlockReader,
    end: u64,
    gate: u64,
) -> Result<Option<Record>, LogError>
    requires sound { IsSound reader.old }
    requires has { IsTrue (D.disk disk.old).tells → HasOf (D.disk disk.old).holds reader.old }
    requires end { IsTrue (D.disk disk.old).tells → end ≡ length (D.disk disk.old).holds }
    ensures sound { IsSound reader.new }
    ensures has { IsTrue (D.disk disk.old).tells → HasOf (D.disk disk.old).holds reader.new }
    ensures place { IfOk result (λ found. IfSome found (λ r. r.place ≡ gate + 9)) }
    ensures fits { IfOk result (λ found. IfSome found (λ r. gate + 9 + length r.body.items ≤ end)) }
    ensures opened { IfOk result (λ found. IfSome found (λ r. IsTrue (D.disk disk.old).tells → IsRecordAt gate r.body.items (D.disk disk.old).holds)) }
    ensures shut { IfOk result (λ found. IfNone found (IsTrue (D.disk disk.old).tells → IsShutAt gate (D.disk disk.old).holds)) }
    ensures broken { (at : ℕ) → IsErrOf result (LogError.NotALog at) → IsTrue (D.disk disk.old).tells →
        (before : List (List ℕ)) → BreaksAt before gate at (D.disk disk.old).holds }
    ensures looks { Looks (D.disk disk.old) (D.disk disk.new) }
    ensures later { (D.disk disk.old).faults ≤ (D.disk disk.new).faults }
    ensures not_worn { (what : Wear) (at : ℕ) → ¬ IsErrOf result (LogError.Worn what at) }
    ensures cause { IsErrOf result LogError.DiskFault → Rose (D.disk disk.old).faults (D.disk disk.new).faults }
{
    match read_header(disk, reader, end, gate)? {
        Some(len) => {
            let place = gate + HEADER;
            let body = read_body(alloc, disk, reader, place, len)?;
            Ok(Some(Record { place, body }))
        }
        None => Ok(None),
    }
}

/// Reads the records from the base on, up to the gate that is closed, and answers the place of that gate.
pub fn read_records<D: Disk>(
    alloc: Global,
    disk: &mut D,
    base: u64,
) -> Result<(u64, Vec<Record>), LogError>
    ensures gate { IfOk result (λ found. found.0 ≡ base + length (frames (bodies (map placed_body found.1.items)))) }
    ensures places { IfOk result (λ found. map placed_body found.1.items ≡ placed base (bodies (map placed_body found.1.items))) }
    ensures front { IfOk result (λ found. IsTrue (D.disk disk.old).tells →
        IsFront base found.0 (bodies (map placed_body found.1.items)) (D.disk disk.old).holds) }
    ensures shut { IfOk result (λ found. IsTrue (D.disk disk.old).tells → IsShutAt found.0 (D.disk disk.old).holds) }
    ensures broken { (at : ℕ) → IsErrOf result (LogError.NotALog at) → IsTrue (D.disk disk.old).tells → IsBroken base at (D.disk disk.old).holds }
    ensures looks { Looks (D.disk disk.old) (D.disk disk.new) }
    ensures later { (D.disk disk.old).faults ≤ (D.disk disk.new).faults }
    ensures not_worn { (what : Wear) (at : ℕ) → ¬ IsErrOf result (LogError.Worn what at) }
    ensures cause { IsErrOf result LogError.DiskFault → Rose (D.disk disk.old).faults (D.disk disk.new).faults }
{
    let end = disk.len()?;
    let mut reader = BlockReader::new(alloc)?;
    let mut records = Vec::new(alloc);
    let mut gate = base;
    while let Some(found) = read_record(alloc, disk, &mut reader, end, gate)? {
        gate = found.place + found.body.len() as u64;
        records.push(found)?;
    }
    Ok((gate, records))
}

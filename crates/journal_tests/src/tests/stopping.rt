// What a stop within a commit may leave of main, made from the disk's own record of its calls.
ghost use Rattle.std.specs.Prelude.{◌≡◌, IsTrue};
ghost use Rattle.grid_mem.specs.MemDisk.{disk_of};

use super::changing::over_store;
use super::{begun, run_on};
use grid_mem::{Call, DiskDeed, MemDisk};
use std::alloc::{AllocError, Global};
use std::mem::forget;
use std::process::Abort;
use std::test::Fail;

// The runs that the images of a call may have: a record is written and synced, and then its gate.
const RUNS: [(u64, u64); 4] = [(0, 0), (0, 0), (0, 2), (2, 2)];

// The bytes with these ones from this place on, and zeros where there was nothing before it.
fn with_bytes(alloc: Global, held: &[u8], at: usize, bytes: &[u8]) -> Result<Vec<u8>, AllocError> {
    let mut image = held.to_vec(alloc)?;
    for _ in held.len()..at {
        image.push(0)?;
    }
    for (index, byte) in bytes.iter().enumerate() {
        match image.get_mut(at.saturating_add(index)) {
            Some(old) => *old = *byte,
            None => image.push(*byte)?,
        }
    }
    Ok(image)
}

// The image has one of two runs.
fn has_run(rt: &impl Abort, alloc: Global, image: &[u8], runs: (u64, u64)) -> Result<(), Fail> {
    let run = run_on(rt, alloc, image)?;
    assert!(rt; run == runs.0 || run == runs.1, "run {run}");
    Ok(())
}

// Bytes that were never written.
const OTHERS: [u8; 5] = [0x5A, 1, 0, 1, 0xFF];

// What a stop within a write may leave, where so many bytes were done: these alone, or with others in place of the next
// ones, or the last ones alone.
fn part_of_a_write(
    rt: &impl Abort,
    alloc: Global,
    held: &[u8],
    at: usize,
    bytes: &[u8],
    count: usize,
    runs: (u64, u64),
) -> Result<(), Fail> {
    let (first, rest) = bytes.split_at(count.min(bytes.len()));
    let behind = at.saturating_add(first.len());
    let image = with_bytes(alloc, held, at, first)?;
    has_run(rt, alloc, &image, runs)?;
    let others = &OTHERS[..rest.len().min(5)];
    let longer = with_bytes(alloc, &image, behind, others)?;
    has_run(rt, alloc, &longer, runs)?;
    let last = with_bytes(alloc, held, behind, rest)?;
    has_run(rt, alloc, &last, runs)?;
    Ok(())
}

// Opens what a stop within this call may leave, and answers what main holds after it.
fn images_of(
    rt: &impl Abort,
    alloc: Global,
    held: &[u8],
    deed: &DiskDeed,
    runs: (u64, u64),
) -> Result<Vec<u8>, Fail> {
    match deed {
        DiskDeed::Write { at, bytes } => {
            for count in 0..=bytes.len() {
                part_of_a_write(rt, alloc, held, *at as usize, bytes, count, runs)?;
            }
            Ok(with_bytes(alloc, held, *at as usize, bytes)?)
        }
        DiskDeed::Sync => {
            has_run(rt, alloc, held, runs)?;
            Ok(held.to_vec(alloc)?)
        }
        DiskDeed::Cut { len } => {
            assert!(rt; false, "cut to {len}");
            Ok(Vec::new(alloc))
        }
    }
}

// Opens what a stop within each of these calls may leave of main, which held these bytes at first, and these in the end.
fn images_of_all(
    rt: &impl Abort,
    alloc: Global,
    first: &[u8],
    calls: &[Call<DiskDeed>],
    last: &[u8],
) -> Result<(), Fail> {
    let mut held = first.to_vec(alloc)?;
    for (call, runs) in calls.iter().zip(RUNS) {
        held = images_of(rt, alloc, &held, &call.deed, runs)?;
    }
    assert_eq!(rt; (calls.len(), held.as_slice()), (RUNS.len(), last));
    Ok(())
}

// Commits over main, which holds these bytes, and opens what a stop may leave of it.
fn stops(rt: &impl Abort, alloc: Global, first: &[u8], main: &mut MemDisk) -> Result<(), Fail>
    requires tells { IsTrue (disk_of main.old).tells }
    requires last { (disk_of main.old).last ≡ 0 }
{
    over_store(rt, alloc, main, Some(0))??;
    images_of_all(rt, alloc, first, main.calls(), main.bytes())
}

#[test]
fn a_stop_leaves_the_one_catalogue_or_the_other(rt: HostRuntime) -> Result<(), Fail> {
    let alloc = rt.alloc();
    let first = begun(alloc)?;
    let mut main = MemDisk::new(alloc, first.as_slice().to_vec(alloc)?, Vec::new(alloc))?;
    let result = stops(&rt, alloc, &first, &mut main);
    forget(main);
    result
}

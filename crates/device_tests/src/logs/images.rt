//! What stops may leave of an append, made from the disk's own record of its calls by the rules of disks.

use super::{ONE, count_records};
use frame_log::FrameLog;
use grid_mem::{Call, DiskDeed, MemDisk};
use grid_outside::Moments;
use std::alloc::{AllocError, Global};
use std::test::Fail;

// What was done since the last sync: the bytes then, the bytes now, and which places were written.
#[derive(Drop)]
struct Unsynced {
    synced: Vec<u8>,
    held: Vec<u8>,
    written: Vec<(u64, u64)>,
}

impl Unsynced {
    fn new(alloc: Global, start: &[u8]) -> Result<Unsynced, AllocError> {
        Ok(Unsynced {
            synced: start.to_vec(alloc)?,
            held: start.to_vec(alloc)?,
            written: Vec::new(alloc),
        })
    }

    fn write(&mut self, at: u64, bytes: &[u8]) -> Result<(), AllocError> {
        let mut place = at;
        for byte in bytes {
            match self.held.get_mut(place as usize) {
                Some(held) => *held = *byte,
                None => self.held.push(*byte)?,
            }
            place = place.saturating_add(1);
        }
        self.written.push((at, place))?;
        Ok(())
    }

    fn sync(&mut self, alloc: Global) -> Result<(), AllocError> {
        self.synced = self.held.as_slice().to_vec(alloc)?;
        self.written.clear();
        Ok(())
    }

    // The image of this length whose loose bytes are all this one.
    fn image(&self, alloc: Global, len: u64, loose: u8) -> Result<Vec<u8>, AllocError> {
        let mut image = Vec::new(alloc);
        for place in 0..len {
            let byte = match self.synced.get(place as usize) {
                Some(byte) if !self.is_written(place) => *byte,
                _ => loose,
            };
            image.push(byte)?;
        }
        Ok(image)
    }

    fn is_written(&self, place: u64) -> bool {
        self.written
            .iter()
            .any(|(from, to)| *from <= place && place < *to)
    }
}

// What a stop in the call of this number, from 1, finds: the calls before it are done, and what it writes is loose.
fn until(alloc: Global, calls: &[Call<DiskDeed>], number: usize) -> Result<Unsynced, AllocError> {
    let mut since = Unsynced::new(alloc, &ONE)?;
    for (place, call) in calls.iter().enumerate() {
        if place >= number {
            break;
        }
        match &call.deed {
            DiskDeed::Write { at, bytes } => since.write(*at, bytes)?,
            DiskDeed::Sync if place + 1 < number => since.sync(alloc)?,
            DiskDeed::Sync | DiskDeed::Cut { len: _ } => {}
        }
    }
    Ok(since)
}

#[test]
fn each_image_of_one_append(rt: HostRuntime) -> Result<(), Fail> {
    let alloc = rt.alloc();
    let mut disk = MemDisk::new(alloc, ONE.to_vec(alloc)?, Vec::new(alloc))?;
    let mut moments = Moments::start();
    let (mut log, _) = FrameLog::open(alloc, &mut disk, 0)?;
    log.append(alloc, &mut disk, &mut moments, &[5])?;
    let calls = disk.calls();
    assert_eq!(rt; calls.len(), 4);
    // Before the append, in each of its calls, and behind them all.
    for number in 0..=5usize {
        let since = until(alloc, calls, number)?;
        let shortest = since.synced.len() as u64;
        for len in shortest..=since.held.len() as u64 {
            for loose in [0, 1, 2, 255] {
                let image = since.image(alloc, len, loose)?;
                let is_new = number > 4 || (number > 2 && loose == 1);
                let count = if is_new { 2 } else { 1 };
                assert_eq!(rt;
                    count_records(alloc, &image)?,
                    count,
                    "call {number}, {len} bytes, {loose}"
                );
            }
        }
    }
    Ok(())
}

ghost use Rattle.std.specs.Prelude.{◌≡◌, ℕ, ◌+◌, ◌-◌, ◌<◌, ◌≤◌, length, take, drop, slice_index, min, IsTrue, IfOk, OnOk, OnErr};
ghost use Rattle.grid_outside.specs.Device.{Looks};
ghost use Rattle.grid_outside.specs.Disk.{ReadsAt};
ghost use Rattle.grid_outside.specs.Fault.{HasCause};
ghost use Rattle.frame_log.specs.Blocks.{HasOf, IsSound};

use grid_outside::{Disk, DiskFault};
use std::alloc::{AllocError, Global};

// How many bytes are read at once.
const BLOCK: usize = 65_536;

/// Reads a disk in blocks, of which it keeps the last. The disk is not written meanwhile.
#[derive(Debug, Drop)]
pub struct BlockReader {
    pub block: Vec<u8>,
    // The place of the block's first byte, and how many of its bytes are the disk's.
    pub from: u64,
    pub count: usize,
}

impl BlockReader {
    /// Nothing is read yet.
    pub fn new(alloc: Global) -> Result<BlockReader, AllocError>
        ensures sound { IfOk result IsSound }
        ensures empty { IfOk result (λ reader. reader.count ≡ 0) }
    {
        Ok(BlockReader {
            block: vec![in alloc; 0; BLOCK]?,
            from: 0,
            count: 0,
        })
    }

    /// Fills `out` from this place up to the end of the bytes, and answers how many bytes it gave.
    pub fn read<D: Disk>(
        &mut self,
        disk: &mut D,
        at: u64,
        out: &mut [u8],
    ) -> Result<usize, DiskFault>
        requires sound { IsSound self.old }
        requires has { IsTrue (D.disk disk.old).tells → HasOf (D.disk disk.old).holds self.old }
        ensures sound { IsSound self.new }
        ensures has { IsTrue (D.disk disk.old).tells → HasOf (D.disk disk.old).holds self.new }
        ensures count { IfOk result (λ n. n ≤ length out.new) }
        ensures bytes { IfOk result (λ n. IsTrue (D.disk disk.old).tells → ReadsAt (D.disk disk.old).holds at n out.new) }
        ensures fit { (k : ℕ) → slice_index out.new k < 256 }
        ensures looks { Looks (D.disk disk.old) (D.disk disk.new) }
        ensures cause { HasCause (D.disk disk.old).faults (D.disk disk.new).faults result }
    {
        if out.len() > BLOCK {
            return disk.read(at, out);
        }
        if !self.covers(at, out.len()) {
            self.load(disk, at)?;
        }
        Ok(self.copy(at, out))
    }

    // Whether the block has so many bytes from this place on.
    fn covers(&self, at: u64, len: usize) -> bool
        ensures { IsTrue result → (self.now.from ≤ at) × (at - self.now.from + len ≤ self.now.count) }
    {
        match at.checked_sub(self.from) {
            Some(skip) => skip <= self.count as u64 && self.count - skip as usize >= len,
            None => false,
        }
    }

    // Makes the block begin at this place.
    fn load<D: Disk>(&mut self, disk: &mut D, at: u64) -> Result<(), DiskFault>
        requires sound { IsSound self.old }
        ensures sound { IsSound self.new }
        ensures from { OnOk result (self.new.from ≡ at) }
        ensures count { OnOk result (IsTrue (D.disk disk.old).tells → self.new.count ≡ min 65536 (length (D.disk disk.old).holds - at)) }
        ensures has { IsTrue (D.disk disk.old).tells → HasOf (D.disk disk.old).holds self.new }
        ensures looks { Looks (D.disk disk.old) (D.disk disk.new) }
        ensures cause { HasCause (D.disk disk.old).faults (D.disk disk.new).faults result }
    {
        self.count = 0;
        self.count = disk.read(at, &mut self.block)?;
        self.from = at;
        Ok(())
    }

    // Copies what the block has from this place on.
    fn copy(&self, at: u64, out: &mut [u8]) -> usize
        requires sound { IsSound self.now }
        requires from { self.now.from ≤ at }
        requires within { at - self.now.from ≤ self.now.count }
        ensures count { result ≡ min (self.now.count - (at - self.now.from)) (length out.old) }
        ensures same { take result out.new ≡ take result (drop (at - self.now.from) self.now.block.items) }
    {
        let skip = (at - self.from) as usize;
        let count = (self.count - skip).min(out.len());
        out[..count].copy_from_slice(&self.block[skip..skip + count]);
        count
    }
}

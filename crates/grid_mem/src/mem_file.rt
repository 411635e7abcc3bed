ghost use Rattle.std.specs.Prelude.{◌≡◌, ◌+◌, ◌^◌, ◌<◌, ◌&&◌, length, nat_lt, not};

use std::alloc::AllocError;

// A file has fewer bytes.
const LIMIT: usize = 1 << 61;

/// A file of a store in memory. It has fewer than 2^61 bytes.
#[derive(Debug, Drop)]
pub struct MemFile {
    pub name: u64,
    pub bytes: Vec<u8>,
    pub finished: bool,
    pub ghost short: { length bytes.items < 2 ^ 61 },
}

impl Clone for MemFile {
    ghost use Rattle.grid_mem.specs.MemFile.{IsCopy};

    ghost is_clone = { IsCopy };

    fn clone(&self) -> Result<MemFile, AllocError> {
        Ok(MemFile {
            name: self.name,
            bytes: self.bytes.clone()?,
            finished: self.finished,
        })
    }
}

impl MemFile {
    // Whether it is not finished and stays short with so many bytes more.
    pub(crate) fn takes(&self, more: usize) -> bool
        ensures { result ≡ (not self.now.finished && nat_lt (length self.now.bytes.items + more) (2 ^ 61)) }
    {
        !self.finished && more < LIMIT - self.bytes.len()
    }
}

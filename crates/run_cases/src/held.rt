// What disks and stores hold between runs.
use grid_mem::MemFiles;
use std::alloc::{AllocError, Global};

/// What the disks hold, and the files of each store.
#[derive(Drop)]
pub(crate) struct Held {
    pub(crate) main: Vec<u8>,
    pub(crate) spare: Vec<u8>,
    pub(crate) vaults: Vec<MemFiles>,
}

impl Held {
    /// Empty disks, and no store.
    pub(crate) fn nothing(alloc: Global) -> Held {
        Held {
            main: Vec::new(alloc),
            spare: Vec::new(alloc),
            vaults: Vec::new(alloc),
        }
    }

    pub(crate) fn copy(&self) -> Result<Held, AllocError> {
        Ok(Held {
            main: self.main.clone()?,
            spare: self.spare.clone()?,
            vaults: self.vaults.clone()?,
        })
    }
}

/// So many stores without files.
pub(crate) fn empty_vaults(alloc: Global, count: u64) -> Result<Vec<MemFiles>, AllocError> {
    let mut vaults = Vec::new(alloc);
    for _ in 0..count {
        vaults.push(MemFiles::new(Vec::new(alloc)))?;
    }
    Ok(vaults)
}

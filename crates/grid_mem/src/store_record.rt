ghost use Rattle.std.specs.Prelude.{◌≡◌, [], ◌∷◌, ◌++◌, IfOk, OnOk, OnErr};
ghost use Rattle.grid_mem.specs.Calls.{held, held_after};
ghost use Rattle.grid_mem.specs.MemFiles.{contents};
ghost use Rattle.grid_mem.specs.StoreCalls.{store_kind};

use crate::{Call, MemFiles, StoreDeed};
use std::alloc::{AllocError, Global};

/// What a store held at the start, and its calls with a moment since, in order.
#[derive(Debug, Drop)]
pub struct StoreRecord {
    pub start: MemFiles,
    pub calls: Vec<Call<StoreDeed>>,
}

impl StoreRecord {
    /// A store that held these files, and no call.
    pub fn new(alloc: Global, start: MemFiles) -> StoreRecord
        ensures start { result.start ≡ start }
        ensures calls { result.calls.items ≡ [] }
    {
        StoreRecord {
            start,
            calls: Vec::new(alloc),
        }
    }

    /// What a store with this record holds. The only error is want of memory.
    pub fn files(&self, alloc: Global) -> Result<MemFiles, AllocError>
        ensures { IfOk result (λ files. contents files ≡
            held store_kind (contents self.now.start) self.now.calls.items) }
    {
        let mut files = self.start.clone()?;
        for call in &self.calls {
            step(alloc, &mut files, call)?;
        }
        Ok(files)
    }
}

// Does the deed of a call that was done.
fn step(alloc: Global, files: &mut MemFiles, call: &Call<StoreDeed>) -> Result<(), AllocError>
    ensures { OnOk result (contents files.new ≡ held_after store_kind (contents files.old) call.now) }
{
    if call.done {
        files.apply(alloc, &call.deed)?;
    }
    Ok(())
}

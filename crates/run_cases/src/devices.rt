// Runs over devices in memory, which are made for each run of what was held before it.
ghost use Rattle.std.specs.Prelude.{◌≡◌, IfOk};
ghost use Rattle.grid_outside.specs.Device.{EachMember};
ghost use Rattle.grid_mem.specs.MemDisk.{disk_of};
ghost use Rattle.grid_mem.specs.MemStore.{store_of};
ghost use Rattle.grid_mem.specs.MemSink.{sink_of};

use crate::feed::Feed;
use crate::harm::Harm;
use crate::held::Held;
use grid_mem::{Call, DiskDeed, Lies, MemAmbient, MemDisk, MemFiles, MemSink, MemSource, MemStore};
use grid_model::Text;
use grid_outside::{Moments, Outside};
use grid_server::{Status, run};
use std::alloc::{AllocError, Global};

/// A write of main with its moment, or a sync, which has no bytes.
#[derive(Drop)]
pub(crate) struct Written {
    pub(crate) moment: u128,
    pub(crate) at: u64,
    pub(crate) bytes: Vec<u8>,
}

/// How a run ended, what it left, and which calls of main it made. There is none where there are no stores or too many.
#[derive(Drop)]
pub(crate) struct Left {
    pub(crate) status: Option<Status>,
    pub(crate) replies: Vec<u8>,
    pub(crate) held: Held,
    pub(crate) spare_calls: usize,
    pub(crate) written: Vec<Written>,
}

/// Runs these words with this input.
pub(crate) fn play(
    alloc: Global,
    held: &Held,
    harm: Harm,
    words: &[Text],
    input: &[u8],
) -> Result<Left, AllocError> {
    let mut outside = outside_of(alloc, held, harm)?;
    let mut sink = MemSink::new(alloc, Vec::new(alloc), vec![in alloc; harm.sink]?)?;
    let status = run_over(alloc, words, harm, input, &mut outside, &mut sink)?;
    left_by(alloc, status, &outside, &sink)
}

// Disks and stores that hold what was held.
fn outside_of(
    alloc: Global,
    held: &Held,
    harm: Harm,
) -> Result<Outside<MemDisk, MemAmbient, MemStore>, AllocError>
    ensures main { IfOk result (λ outside. (disk_of outside.main).last ≡ 0) }
    ensures spare { IfOk result (λ outside. (disk_of outside.spare).last ≡ 0) }
    ensures moments { IfOk result (λ outside. outside.moments ≡ 0) }
    ensures stores { IfOk result (λ outside. EachMember (λ k store. (store_of store).last ≡ 0) outside.stores.items) }
{
    let main = disk_with(alloc, &held.main, harm.main)?;
    let spare = disk_with(alloc, &held.spare, harm.spare)?;
    let stores = stores_with(alloc, &held.vaults, harm)?;
    Ok(Outside {
        main,
        spare,
        stores,
        ambient: MemAmbient::new(Vec::new(alloc), 1000, Vec::new(alloc), harm.word),
        moments: Moments::start(),
    })
}

// A disk with these bytes, whose call of this number fails.
fn disk_with(alloc: Global, bytes: &[u8], fails: u64) -> Result<MemDisk, AllocError>
    ensures { IfOk result (λ disk. (disk_of disk).last ≡ 0) }
{
    MemDisk::new(alloc, bytes.to_vec(alloc)?, vec![in alloc; fails]?)
}

// A store for each of these.
fn stores_with(alloc: Global, vaults: &[MemFiles], harm: Harm) -> Result<Vec<MemStore>, AllocError>
    ensures { IfOk result (λ stores. EachMember (λ k store. (store_of store).last ≡ 0) stores.items) }
{
    let mut stores = Vec::new(alloc);
    for files in vaults {
        let fails = harm.of_vault(stores.len());
        let store = store_with(alloc, files, fails, harm.lost)?;
        add_store(&mut stores, store)?;
    }
    Ok(stores)
}

// Adds a store to which no moment was given yet.
fn add_store(stores: &mut Vec<MemStore>, store: MemStore) -> Result<(), AllocError>
    requires fresh { (store_of store).last ≡ 0 }
    requires each { EachMember (λ k member. (store_of member).last ≡ 0) stores.old.items }
    ensures each { EachMember (λ k member. (store_of member).last ≡ 0) stores.new.items }
{
    stores.push(store)?;
    Ok(())
}

// A store with these files, whose call of this number fails, and which lies about this file from its call of this number on.
fn store_with(
    alloc: Global,
    files: &MemFiles,
    fails: u64,
    lost: (u64, u64),
) -> Result<MemStore, AllocError>
    ensures { IfOk result (λ store. (store_of store).last ≡ 0) }
{
    let store = MemStore::new(alloc, files.clone()?, vec![in alloc; fails]?)?;
    let (file, from) = lost;
    if file == 0 {
        return Ok(store);
    }
    let lies = Lies {
        names: vec![in alloc; file]?,
        from,
    };
    Ok(store.lying(lies))
}

// Runs these words over these devices, where there are as many stores as a grid may have.
fn run_over(
    alloc: Global,
    words: &[Text],
    harm: Harm,
    input: &[u8],
    outside: &mut Outside<MemDisk, MemAmbient, MemStore>,
    sink: &mut MemSink,
) -> Result<Option<Status>, AllocError>
    requires main { (disk_of outside.old.main).last ≡ 0 }
    requires spare { (disk_of outside.old.spare).last ≡ 0 }
    requires sink { (sink_of sink.old).last ≡ 0 }
    requires moments { outside.old.moments ≡ 0 }
    requires stores { EachMember (λ k store. (store_of store).last ≡ 0) outside.old.stores.items }
{
    let count = outside.stores.len();
    if count == 0 || count > 16 {
        return Ok(None);
    }
    let mut feed = Feed {
        source: MemSource::new(input.to_vec(alloc)?, vec![in alloc; harm.source]?),
        most: harm.most,
    };
    Ok(Some(run(alloc, words, outside, &mut feed, sink)))
}

// What a run left that ended so.
fn left_by(
    alloc: Global,
    status: Option<Status>,
    outside: &Outside<MemDisk, MemAmbient, MemStore>,
    sink: &MemSink,
) -> Result<Left, AllocError> {
    let mut vaults = Vec::new(alloc);
    for store in &outside.stores {
        vaults.push(store.files().clone()?)?;
    }
    let held = Held {
        main: outside.main.bytes().to_vec(alloc)?,
        spare: outside.spare.bytes().to_vec(alloc)?,
        vaults,
    };
    Ok(Left {
        status,
        replies: sink.bytes().to_vec(alloc)?,
        held,
        spare_calls: outside.spare.calls().len(),
        written: written_in(alloc, outside.main.calls())?,
    })
}

// The writes and the syncs among these calls.
fn written_in(alloc: Global, calls: &[Call<DiskDeed>]) -> Result<Vec<Written>, AllocError> {
    let mut written = Vec::new(alloc);
    for call in calls {
        let (at, bytes) = match &call.deed {
            DiskDeed::Write { at, bytes } => (*at, bytes.clone()?),
            DiskDeed::Sync => (0, Vec::new(alloc)),
            DiskDeed::Cut { .. } => continue,
        };
        written.push(Written {
            moment: call.moment,
            at,
            bytes,
        })?;
    }
    Ok(written)
}

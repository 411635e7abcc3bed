// What the files of three stores are to the rows of a catalogue.
use grid_mem::{MemFile, MemFiles};
use grid_model::{Digest, ReplicaRow};
use grid_tables::{Kind, Tables};
use std::alloc::Global;
use std::process::Abort;
use std::test::Fail;

// The slot of the store that a replica stands in.
fn slot_of(tables: &Tables, replica: &ReplicaRow) -> Option<u8> {
    let leaf = tables.resource(replica.leaf)?;
    Some(leaf.slot)
}

// The file has the size and the SHA-256 of this replica, and is finished.
fn is_as_recorded(rt: &impl Abort, file: &MemFile, replica: &ReplicaRow) {
    assert!(rt; file.finished, "{replica:?}");
    assert_eq!(rt; file.bytes.len() as u64, replica.size, "{replica:?}");
    let is_same = Digest::of(&file.bytes).to_bytes() == replica.digest.to_bytes();
    assert!(rt; is_same, "{replica:?}");
}

// A replica that is marked good has its file.
fn has_file(
    rt: &impl Abort,
    tables: &Tables,
    stores: &[MemFiles; 3],
    replica: &ReplicaRow,
) -> Result<(), Fail> {
    if !replica.good {
        return Ok(());
    }
    let slot = slot_of(tables, replica).ok_or("no leaf")?;
    let files = stores.get(slot as usize).ok_or("no store")?;
    let file = files.find(replica.vault).ok_or("no file")?;
    is_as_recorded(rt, file, replica);
    Ok(())
}

// How many rows name the file of this number in this store.
fn count_names(tables: &Tables, objects: &[u64], slot: usize, name: u64) -> usize {
    let mut count: usize = 0;
    for orphan in tables.orphans() {
        if orphan.vault == name && orphan.slot as usize == slot {
            count = count.saturating_add(1);
        }
    }
    for object in objects {
        for replica in tables.replicas_of(*object) {
            if replica.vault == name && slot_of(tables, replica).map(|s| s as usize) == Some(slot) {
                count = count.saturating_add(1);
            }
        }
    }
    count
}

// Each replica that is marked good has its file, and each file of the stores is named by one row.
pub(crate) fn are_whole(
    rt: &impl Abort,
    alloc: Global,
    tables: &Tables,
    stores: &[MemFiles; 3],
) -> Result<(), Fail> {
    let ids = tables.ids(alloc, Kind::Objects)?;
    for id in ids.as_slice() {
        for replica in tables.replicas_of(*id) {
            has_file(rt, tables, stores, replica)?;
        }
    }
    for (slot, files) in stores.iter().enumerate() {
        for file in files.clone()?.into_vec() {
            let count = count_names(tables, ids.as_slice(), slot, file.name);
            assert_eq!(rt; count, 1, "file {} in store {slot}", file.name);
        }
    }
    Ok(())
}

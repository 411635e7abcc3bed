// What the catalogue on main tells.
use crate::escapes::add_shown;
use crate::held::Held;
use grid_journal::Store;
use grid_mem::MemDisk;
use grid_model::Item;
use grid_tables::{Kind, Tables};
use std::alloc::{AllocError, Global};

/// What a catalogue tells: its run, its last command, whether one is pending, and the paths of its objects and of the
/// collections beyond the first four, in the order of their ids; and how many rows it has, with each file that no replica has.
#[derive(Drop)]
pub(crate) struct Kept {
    pub(crate) stand: String,
    pub(crate) rows: String,
}

/// What the catalogue tells that is held, if one is.
pub(crate) fn kept_on(alloc: Global, held: &Held) -> Result<Option<Kept>, AllocError> {
    let mut main = MemDisk::new(alloc, held.main.clone()?, Vec::new(alloc))?;
    let mut spare = MemDisk::new(alloc, held.spare.clone()?, Vec::new(alloc))?;
    match Store::open(alloc, &mut main, &mut spare) {
        Ok(store) => told_by(alloc, store.tables()),
        Err(_) => Ok(None),
    }
}

// The same of these rows. It stands apart since each way out of a function that owns a store is dear to prove.
fn told_by(alloc: Global, tables: &Tables) -> Result<Option<Kept>, AllocError> {
    let stand = stand_of(alloc, tables)?;
    let rows = rows_of(alloc, tables)?;
    Ok(Some(Kept { stand, rows }))
}

fn stand_of(alloc: Global, tables: &Tables) -> Result<String, AllocError> {
    let numbers = tables.numbers();
    let mut stand = format!(in alloc; "run {}, last {}", numbers.run, numbers.last)?;
    if tables.pending().is_some() {
        stand.push_str(", pending")?;
    }
    let ids = tables.ids(alloc, Kind::Objects)?;
    for id in ids.as_slice() {
        add_path(alloc, tables, Item::Object(*id), &mut stand)?;
    }
    let ids = tables.ids(alloc, Kind::Collections)?;
    for id in ids.as_slice().iter().skip(4) {
        add_path(alloc, tables, Item::Collection(*id), &mut stand)?;
    }
    Ok(stand)
}

// Adds the path of this item.
fn add_path(
    alloc: Global,
    tables: &Tables,
    item: Item,
    shown: &mut String,
) -> Result<(), AllocError> {
    let path = tables.path_of(alloc, item)?;
    shown.push_str(", ")?;
    add_shown(shown, path.print(alloc)?.as_slice())
}

// How many collections and objects there are, how many replicas are good and how many stale, and each file that no replica
// has, by its store and its number.
fn rows_of(alloc: Global, tables: &Tables) -> Result<String, AllocError> {
    let (good, stale) = count_replicas(alloc, tables)?;
    let collections = tables.count(Kind::Collections);
    let objects = tables.count(Kind::Objects);
    let mut rows = format!(in alloc;
        "collections {collections}, objects {objects}, replicas {good} good and {stale} stale\n"
    )?;
    for orphan in tables.orphans() {
        write!(rows, "orphan vault{}/{}\n", orphan.slot, orphan.vault)?;
    }
    Ok(rows)
}

// How many replicas are good, and how many are stale.
fn count_replicas(alloc: Global, tables: &Tables) -> Result<(u64, u64), AllocError> {
    let mut good: u64 = 0;
    let mut stale: u64 = 0;
    let ids = tables.ids(alloc, Kind::Objects)?;
    for id in ids.as_slice() {
        for replica in tables.replicas_of(*id) {
            if replica.good {
                good = good.saturating_add(1);
            } else {
                stale = stale.saturating_add(1);
            }
        }
    }
    Ok((good, stale))
}

// The catalogue that main has, and the files of the stores beside it.
use super::reports::{count_making, lines_of};
use super::rows::rows_of;
use super::serving::Left;
use super::whole::are_whole;
use grid_journal::Store;
use grid_mem::{MemDisk, MemFiles};
use grid_tables::Tables;
use std::alloc::Global;
use std::mem::forget;
use std::process::Abort;
use std::test::Fail;

// The number of the run, the number of the command that is pending, or 0, the lines of its marks, how many of its recoveries make a
// file, how many files are named that no replica has, and what the rows tell of the grid.
#[derive(Drop)]
pub(crate) struct Kept {
    pub(crate) run: u64,
    pub(crate) pending: u64,
    pub(crate) marks: Vec<u8>,
    pub(crate) making: usize,
    pub(crate) orphans: usize,
    pub(crate) rows: Vec<u8>,
}

fn kept_by(
    rt: &impl Abort,
    alloc: Global,
    tables: &Tables,
    stores: &[MemFiles; 3],
) -> Result<Kept, Fail> {
    are_whole(rt, alloc, tables, stores)?;
    let numbers = tables.numbers();
    let mut pending: u64 = 0;
    let mut marks = Vec::new(alloc);
    let mut making: usize = 0;
    if let Some(command) = tables.pending() {
        assert_eq!(rt; command.run, numbers.run);
        pending = command.number;
        marks = lines_of(alloc, pending, command.marks.as_slice())?;
        making = count_making(&command.undo);
    }
    Ok(Kept {
        run: numbers.run,
        pending,
        marks,
        making,
        orphans: tables.orphans().len(),
        rows: rows_of(alloc, tables)?,
    })
}

// What a stop left, with what the catalogue on main tells.
#[derive(Drop)]
pub(crate) struct Seen {
    pub(crate) left: Left,
    pub(crate) kept: Kept,
}

fn kept_over(
    rt: &impl Abort,
    alloc: Global,
    main: &mut MemDisk,
    spare: &mut MemDisk,
    left: &Left,
) -> Result<Kept, Fail> {
    let store = Store::open(alloc, main, spare)?;
    let kept = kept_by(rt, alloc, store.tables(), &left.stores);
    forget(store);
    kept
}

fn kept_on(rt: &impl Abort, alloc: Global, main: &mut MemDisk, left: &Left) -> Result<Kept, Fail> {
    let mut spare = MemDisk::new(alloc, Vec::new(alloc), Vec::new(alloc))?;
    let kept = kept_over(rt, alloc, main, &mut spare, left);
    forget(spare);
    kept
}

fn kept_in(rt: &impl Abort, alloc: Global, left: &Left) -> Result<Kept, Fail> {
    let mut main = MemDisk::new(alloc, left.main.clone()?, Vec::new(alloc))?;
    let kept = kept_on(rt, alloc, &mut main, left);
    forget(main);
    kept
}

// Reads the catalogue that a stop left, by which the files of the stores are whole.
pub(crate) fn see(rt: &impl Abort, alloc: Global, left: Left) -> Result<Seen, Fail> {
    match kept_in(rt, alloc, &left) {
        Ok(kept) => Ok(Seen { left, kept }),
        Err(error) => {
            forget(left);
            Err(error)
        }
    }
}

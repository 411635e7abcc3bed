mod changing;
mod reading;
mod records;
mod stopping;

ghost use Rattle.std.specs.Prelude.{◌≡◌};
ghost use Rattle.grid_mem.specs.MemDisk.{disk_of};

use changing::over_store;
use grid_journal::{JournalError, Store};
use grid_mem::MemDisk;
use grid_model::{Side, Text};
use grid_outside::Moments;
use std::alloc::{AllocError, Global};
use std::mem::forget;
use std::process::Abort;
use std::test::Fail;

// How a new grid is begun, and what main and spare hold then.
type Begun = (Result<(), JournalError>, Vec<u8>, Vec<u8>);

// It has the zone `z`, the administrator `rods` and two stores.
fn begin_on(alloc: Global, main: &mut MemDisk, spare: &mut MemDisk) -> Result<Begun, AllocError>
    requires { (disk_of main.old).last ≡ 0 }
{
    let zone = Text::copy_of(alloc, b"z")?;
    let admin = Text::copy_of(alloc, b"rods")?;
    let mut moments = Moments::start();
    let done = Store::init(alloc, main, spare, &mut moments, &zone, &admin, 2);
    Ok((
        done,
        main.bytes().to_vec(alloc)?,
        spare.bytes().to_vec(alloc)?,
    ))
}

// The same beside a spare disk of these bytes.
fn begin_beside(alloc: Global, main: &mut MemDisk, second: &[u8]) -> Result<Begun, AllocError>
    requires { (disk_of main.old).last ≡ 0 }
{
    let mut spare = MemDisk::new(alloc, second.to_vec(alloc)?, Vec::new(alloc))?;
    let result = begin_on(alloc, main, &mut spare);
    forget(spare);
    result
}

// The same over two disks of these bytes.
fn begin_over(alloc: Global, first: &[u8], second: &[u8]) -> Result<Begun, AllocError> {
    let mut main = MemDisk::new(alloc, first.to_vec(alloc)?, Vec::new(alloc))?;
    let result = begin_beside(alloc, &mut main, second);
    forget(main);
    result
}

// Main of a new grid.
fn begun(alloc: Global) -> Result<Vec<u8>, JournalError> {
    let (done, main, _) = begin_over(alloc, b"", b"")?;
    done?;
    Ok(main)
}

// The bytes with one more record behind their last gate.
fn with_record(alloc: Global, bytes: &[u8], body: &[u8]) -> Result<Vec<u8>, AllocError> {
    let mut longer = bytes.to_vec(alloc)?;
    longer.pop();
    longer.push(1)?;
    longer.extend_from_slice(&(body.len() as u64).to_be_bytes())?;
    longer.extend_from_slice(body)?;
    longer.push(0)?;
    Ok(longer)
}

// What a store over main tells: the number of the run, whether it is sound, how many changes are staged, how many stores there
// are, the user `rods` and the leaf `d0`; and how many calls it made of each disk.
#[derive(Clone, Copy)]
struct Told {
    run: u64,
    is_sound: bool,
    staged: usize,
    stores: u8,
    admin: Option<u32>,
    leaf: Option<u32>,
    main_calls: usize,
    spare_calls: usize,
}

fn told_by(
    alloc: Global,
    store: &Store,
    main_calls: usize,
    spare_calls: usize,
) -> Result<Told, AllocError> {
    let tables = store.tables();
    let admin = Text::copy_of(alloc, b"rods")?;
    let leaf = Text::copy_of(alloc, b"d0")?;
    Ok(Told {
        run: tables.numbers().run,
        is_sound: store.is_sound(),
        staged: store.staged().as_slice().len(),
        stores: tables.stores(),
        admin: tables.user_named(&admin),
        leaf: tables.resource_named(&leaf),
        main_calls,
        spare_calls,
    })
}

// Opens the catalogue on main.
fn opened(
    rt: &impl Abort,
    alloc: Global,
    bytes: &[u8],
) -> Result<Result<Told, JournalError>, Fail> {
    let mut main = MemDisk::new(alloc, bytes.to_vec(alloc)?, Vec::new(alloc))?;
    let result = over_store(rt, alloc, &mut main, None);
    forget(main);
    result
}

// Where main shows that it is no catalogue, if it does.
fn fault_of(rt: &impl Abort, alloc: Global, bytes: &[u8]) -> Result<Option<u64>, Fail> {
    match opened(rt, alloc, bytes)? {
        Ok(_) => Ok(None),
        Err(
            JournalError::NotACatalogue {
                side: Side::Main,
                at,
            },
        ) => Ok(Some(at)),
        Err(error) => Err(error.into()),
    }
}

// The number of the run in the catalogue that main stands for.
fn run_on(rt: &impl Abort, alloc: Global, bytes: &[u8]) -> Result<u64, Fail> {
    Ok(opened(rt, alloc, bytes)??.run)
}

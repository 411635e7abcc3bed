// Runs over devices in memory that hold what a stop left.
ghost use Rattle.std.specs.Prelude.{◌≡◌, ◌<◌, ◌≤◌, IfOk, vec_len};
ghost use Rattle.grid_outside.specs.Device.{EachMember};
ghost use Rattle.grid_mem.specs.MemDisk.{disk_of};
ghost use Rattle.grid_mem.specs.MemStore.{store_of};

use grid_mem::{MemAmbient, MemDisk, MemFiles, MemSink, MemSource, MemStore, StoreRecord};
use grid_model::Text;
use grid_outside::{Moments, Outside, Plugin, add_store};
use grid_server::{Status, run};
use std::alloc::{AllocError, Global};
use std::cell::RefCell;
use std::mem::forget;
use std::process::Abort;
use std::rc::Rc;
use std::test::Fail;

const SERVE: &[&[u8]] = &[b"serve"];

const INIT: &[&[u8]] = &[b"init", b"tempZone", b"rods"];

// What a stop leaves: the bytes of main, the files of the stores, and what was told.
#[derive(Drop)]
pub(crate) struct Left {
    pub(crate) main: Vec<u8>,
    pub(crate) stores: [MemFiles; 3],
    pub(crate) told: Vec<u8>,
}

// What a store held at first, and its calls since.
pub(crate) type Watch = Rc<RefCell<StoreRecord>>;

// How a run ended, what main held at first, and the devices with their calls.
#[derive(Drop)]
pub(crate) struct Served {
    pub(crate) status: Status,
    pub(crate) start: Vec<u8>,
    pub(crate) main: MemDisk,
    pub(crate) sink: MemSink,
    pub(crate) stores: [Watch; 3],
}

fn watch_on(alloc: Global, files: &MemFiles) -> Result<Watch, AllocError> {
    let record = StoreRecord::new(alloc, files.clone()?);
    Ok(Rc::new(alloc, RefCell::new(record))?)
}

// A store with these files, of which the calls of these numbers fail. Its calls are recorded there.
fn store_on(
    alloc: Global,
    files: &MemFiles,
    fails: &[u64],
    watch: &Watch,
) -> Result<MemStore, AllocError>
    ensures { IfOk result (λ store. (store_of store).last ≡ 0) }
{
    MemStore::watched(alloc, files.clone()?, fails.to_vec(alloc)?, watch.clone()?)
}

fn outside_on(
    alloc: Global,
    main: &[u8],
    stores: Vec<Box<dyn Plugin>>,
) -> Result<Outside<MemDisk, MemAmbient>, AllocError>
    requires last { EachMember (λ k store. (⟦<Box<dyn Plugin> as Plugin>⟧.plugin store).last ≡ 0) stores.items }
    ensures main { IfOk result (λ outside. (disk_of outside.main).last ≡ 0) }
    ensures spare { IfOk result (λ outside. (disk_of outside.spare).last ≡ 0) }
    ensures moments { IfOk result (λ outside. outside.moments ≡ 0) }
    ensures stores { IfOk result (λ outside. outside.stores ≡ stores) }
    ensures last { IfOk result (λ outside. EachMember (λ k store. (⟦<Box<dyn Plugin> as Plugin>⟧.plugin store).last ≡ 0) outside.stores.items) }
{
    Ok(Outside {
        main: MemDisk::new(alloc, main.to_vec(alloc)?, Vec::new(alloc))?,
        spare: MemDisk::new(alloc, Vec::new(alloc), Vec::new(alloc))?,
        stores,
        ambient: MemAmbient::new(Vec::new(alloc), 1000, Vec::new(alloc), 0),
        moments: Moments::start(),
    })
}

// Runs these words over these devices, and answers how that ended and what was told.
fn run_over(
    alloc: Global,
    words: &[&[u8]],
    outside: &mut Outside<MemDisk, MemAmbient>,
    input: &[u8],
) -> Result<(Status, MemSink), AllocError>
    requires main { (disk_of outside.old.main).last ≡ 0 }
    requires spare { (disk_of outside.old.spare).last ≡ 0 }
    requires last { EachMember (λ k store. (⟦<Box<dyn Plugin> as Plugin>⟧.plugin store).last ≡ 0) outside.old.stores.items }
    requires moments { outside.old.moments ≡ 0 }
    requires stores { (0 < vec_len outside.old.stores) × (vec_len outside.old.stores ≤ 16) }
{
    let mut texts = Vec::new(alloc);
    for word in words {
        texts.push(Text::copy_of(alloc, word)?)?;
    }
    let mut source = MemSource::new(input.to_vec(alloc)?, Vec::new(alloc));
    let mut sink = MemSink::new(alloc, Vec::new(alloc), Vec::new(alloc))?;
    let status = run(alloc, &texts, outside, &mut source, &mut sink);
    Ok((status, sink))
}

// How a run ended, and the devices that are looked at then.
type Played = (Status, MemDisk, MemSink);

// Runs these words over what was left, with an input of these bytes. The calls of the stores are recorded there, and those of these
// numbers of the second one fail.
fn play_watched(
    alloc: Global,
    words: &[&[u8]],
    left: &Left,
    input: &[u8],
    fails: &[u64],
    watches: &[Watch; 3],
) -> Result<Played, AllocError> {
    let [first, second, third] = &left.stores;
    let mut stores: Vec<Box<dyn Plugin>> = Vec::new(alloc);
    let store = store_on(alloc, first, &[], &watches[0])?;
    add_store(&mut stores, Box::new(alloc, store)?)?;
    let store = store_on(alloc, second, fails, &watches[1])?;
    add_store(&mut stores, Box::new(alloc, store)?)?;
    let store = store_on(alloc, third, &[], &watches[2])?;
    add_store(&mut stores, Box::new(alloc, store)?)?;
    let mut outside = outside_on(alloc, &left.main, stores)?;
    let played = run_over(alloc, words, &mut outside, input);
    let Outside {
        main,
        spare,
        stores,
        ambient,
        ..
    } = outside;
    forget((spare, stores, ambient));
    match played {
        Ok((status, sink)) => Ok((status, main, sink)),
        Err(error) => {
            forget(main);
            Err(error)
        }
    }
}

fn watches_on(alloc: Global, left: &Left) -> Result<[Watch; 3], AllocError> {
    let [first, second, third] = &left.stores;
    Ok([
        watch_on(alloc, first)?,
        watch_on(alloc, second)?,
        watch_on(alloc, third)?,
    ])
}

// The same, with what it leaves to be looked at. To drop devices and what holds them is dear to prove: each function has one such
// value at most, lends it, and hands it on or forgets it.
fn play(
    alloc: Global,
    words: &[&[u8]],
    left: &Left,
    input: &[u8],
    fails: &[u64],
) -> Result<Served, AllocError> {
    let start = left.main.clone()?;
    let watches = watches_on(alloc, left)?;
    match play_watched(alloc, words, left, input, fails, &watches) {
        Ok((status, main, sink)) => Ok(Served {
            status,
            start,
            main,
            sink,
            stores: watches,
        }),
        Err(error) => {
            forget(watches);
            Err(error)
        }
    }
}

// Serves these requests over what was left: all of them are read.
pub(crate) fn serve(
    rt: &impl Abort,
    alloc: Global,
    left: &Left,
    input: &[u8],
) -> Result<Served, Fail> {
    let served = play(alloc, SERVE, left, input, &[])?;
    assert_eq!(rt; served.status, Status::Done);
    Ok(served)
}

// More calls than any run makes of a store.
const MANY_CALLS: u64 = 64;

// The same where each call of the second store fails.
pub(crate) fn serve_failing(
    rt: &impl Abort,
    alloc: Global,
    left: &Left,
    input: &[u8],
) -> Result<Served, Fail> {
    let mut fails = Vec::new(alloc);
    for call in 1..=MANY_CALLS {
        fails.push(call)?;
    }
    let served = play(alloc, SERVE, left, input, &fails)?;
    assert_eq!(rt; served.status, Status::Done);
    Ok(served)
}

fn no_files(alloc: Global) -> MemFiles {
    MemFiles::new(Vec::new(alloc))
}

fn play_new(alloc: Global) -> Result<Served, AllocError> {
    let nothing = Left {
        main: Vec::new(alloc),
        stores: [no_files(alloc), no_files(alloc), no_files(alloc)],
        told: Vec::new(alloc),
    };
    let played = play(alloc, INIT, &nothing, b"", &[]);
    forget(nothing);
    played
}

fn left_new(rt: &impl Abort, alloc: Global, served: &Served) -> Result<Left, Fail> {
    assert_eq!(rt;
        (served.status, served.sink.bytes()),
        (Status::Done, b"ok\n".as_slice())
    );
    Ok(Left {
        main: served.main.bytes().to_vec(alloc)?,
        stores: [no_files(alloc), no_files(alloc), no_files(alloc)],
        told: Vec::new(alloc),
    })
}

// A new grid with three stores.
pub(crate) fn begun(rt: &impl Abort, alloc: Global) -> Result<Left, Fail> {
    let served = play_new(alloc)?;
    let left = left_new(rt, alloc, &served);
    forget(served);
    left
}

// What is told where these requests are served over what was left.
pub(crate) fn told_over(
    rt: &impl Abort,
    alloc: Global,
    left: &Left,
    input: &[u8],
) -> Result<Vec<u8>, Fail> {
    let served = serve(rt, alloc, left, input)?;
    let told = served.sink.bytes().to_vec(alloc);
    forget(served);
    Ok(told?)
}

// Commits, what they write, and disks that fail in them.
ghost use Rattle.std.specs.Prelude.{◌≡◌, ◌∷◌, [], IsTrue, IfOk};
ghost use Rattle.grid_mem.specs.MemDisk.{disk_of};
ghost use Rattle.grid_model.specs.declared.deltas.Delta.TheVariants as delta;
ghost use Rattle.grid_journal.specs.Journal.{Keeps};

use super::{Told, begun, run_on, told_by, with_record};
use grid_journal::{JournalError, Store};
use grid_mem::MemDisk;
use grid_model::{Delta, Deltas, Numbers};
use grid_outside::Moments;
use std::alloc::{AllocError, Global};
use std::mem::forget;
use std::process::Abort;
use std::test::Fail;

// The numbers of a run, as the one delta of a list.
fn numbers(alloc: Global, next_vault: u64, run: u64) -> Result<Deltas, AllocError>
    ensures { IfOk result (λ deltas. deltas ≡ delta.Numbers (record { next_vault = next_vault; run = run; last = 0 }) ∷ []) }
{
    let deltas = vec![in alloc;
        Delta::Numbers(Numbers {
            next_vault,
            run,
            last: 0
        }),
    ]?;
    Ok(Deltas::from_vec(deltas))
}

// Stages the numbers of the run after this one, which is that on main, and commits those of the one after it. The store stands on
// main.
fn stage_and_commit(
    rt: &impl Abort,
    alloc: Global,
    store: &mut Store,
    main: &mut MemDisk,
    spare: &mut MemDisk,
    run: u64,
) -> Result<Result<(), JournalError>, Fail>
    requires sound { IsTrue store.old.sound }
    requires keeps { Keeps store.old.cat store.old (disk_of main.old).holds }
    requires last { (disk_of main.old).last ≡ 0 }
{
    let mut moments = Moments::start();
    let first = store.tables().numbers();
    assert!(rt; first.next_vault > 0);
    let next = first.run.saturating_add(1);
    let after = first.run.saturating_add(2);
    store.stage(alloc, numbers(alloc, first.next_vault, next)?)?;
    let staged = store.tables().numbers();
    assert!(rt; staged.next_vault == first.next_vault);
    let count = store.staged().as_slice().len();
    assert_eq!(rt; (first.run, staged.run, count), (run, next, 1));
    let deltas = numbers(alloc, first.next_vault, after)?;
    let done = store.commit(alloc, main, spare, &mut moments, deltas);
    let is_made = store.staged().as_slice().is_empty() && store.tables().numbers().run == after;
    assert_eq!(rt; store.is_sound(), done == Ok(()));
    assert!(rt; is_made || !store.is_sound());
    Ok(done)
}

fn tell_or_commit(
    rt: &impl Abort,
    alloc: Global,
    store: &mut Store,
    main: &mut MemDisk,
    spare: &mut MemDisk,
    run: Option<u64>,
) -> Result<Result<Told, JournalError>, Fail>
    requires sound { IsTrue store.old.sound }
    requires keeps { Keeps store.old.cat store.old (disk_of main.old).holds }
    requires last { (disk_of main.old).last ≡ 0 }
{
    let told = told_by(alloc, store, main.calls().len(), spare.calls().len())?;
    let Some(run) = run else {
        return Ok(Ok(told));
    };
    match stage_and_commit(rt, alloc, store, main, spare, run)? {
        Ok(()) => Ok(Ok(told)),
        Err(error) => Ok(Err(error)),
    }
}

// Opens the catalogue on the disks. Where the number of its run is given, it stages the numbers of the next run then, and commits
// those of the one after it. To drop a store or a disk is dear to prove, so each function has one at most, and forgets it in the end.
fn open_over(
    rt: &impl Abort,
    alloc: Global,
    main: &mut MemDisk,
    spare: &mut MemDisk,
    run: Option<u64>,
) -> Result<Result<Told, JournalError>, Fail>
    requires tells { IsTrue (disk_of main.old).tells }
    requires last { (disk_of main.old).last ≡ 0 }
{
    match Store::open(alloc, main, spare) {
        Ok(mut store) => {
            let result = tell_or_commit(rt, alloc, &mut store, main, spare, run);
            forget(store);
            result
        }
        Err(error) => Ok(Err(error)),
    }
}

// The same beside a spare disk without bytes.
pub(crate) fn over_store(
    rt: &impl Abort,
    alloc: Global,
    main: &mut MemDisk,
    run: Option<u64>,
) -> Result<Result<Told, JournalError>, Fail>
    requires tells { IsTrue (disk_of main.old).tells }
    requires last { (disk_of main.old).last ≡ 0 }
{
    let mut spare = MemDisk::new(alloc, Vec::new(alloc), Vec::new(alloc))?;
    let result = open_over(rt, alloc, main, &mut spare, run);
    forget(spare);
    result
}

// Why a commit over main, whose catalogue has this run, failed, and what main holds then.
fn commit_on(
    rt: &impl Abort,
    alloc: Global,
    main: &mut MemDisk,
    run: u64,
) -> Result<(Option<JournalError>, Vec<u8>), Fail>
    requires tells { IsTrue (disk_of main.old).tells }
    requires last { (disk_of main.old).last ≡ 0 }
{
    let done = over_store(rt, alloc, main, Some(run))?;
    Ok((done.err(), main.bytes().to_vec(alloc)?))
}

// The same over a disk of these bytes, whose calls of these numbers fail.
fn commit_over(
    rt: &impl Abort,
    alloc: Global,
    bytes: &[u8],
    fails: &[u64],
    run: u64,
) -> Result<(Option<JournalError>, Vec<u8>), Fail> {
    let mut main = MemDisk::new(alloc, bytes.to_vec(alloc)?, fails.to_vec(alloc)?)?;
    let result = commit_on(rt, alloc, &mut main, run);
    forget(main);
    result
}

#[test]
fn a_commit_adds_one_record_of_the_staged_and_the_given(rt: HostRuntime) -> Result<(), Fail> {
    let alloc = rt.alloc();
    let bytes = begun(alloc)?;
    // The next vault number 1, the run, and no command; first those of the first run.
    let body = b"\x13\0\0\0\0\0\0\0\x01\0\0\0\0\0\0\0\x01\0\0\0\0\0\0\0\0\
\x13\0\0\0\0\0\0\0\x01\0\0\0\0\0\0\0\x02\0\0\0\0\0\0\0\0";
    let wanted = with_record(alloc, &bytes, body)?;
    let (error, main) = commit_over(&rt, alloc, &bytes, &[], 0)?;
    assert_eq!(rt; (error, main.as_slice()), (None, wanted.as_slice()));
    Ok(())
}

// Main whose call of this number fails has this run after the commit, and a next commit leads two on.
fn fails_at(rt: &impl Abort, alloc: Global, bytes: &[u8], call: u64, run: u64) -> Result<(), Fail> {
    let (error, main) = commit_over(rt, alloc, bytes, &[call], 0)?;
    let wanted = (call != 8).then_some(JournalError::DiskFault);
    let left = run_on(rt, alloc, &main)?;
    let (again, main) = commit_over(rt, alloc, &main, &[], run)?;
    let behind = run_on(rt, alloc, &main)?;
    assert_eq!(rt;
        (error, left, again, behind),
        (wanted, run, None, run.saturating_add(2)),
        "call {call}"
    );
    Ok(())
}

#[test]
fn a_fault_leaves_the_one_catalogue_or_the_other(rt: HostRuntime) -> Result<(), Fail> {
    let alloc = rt.alloc();
    let bytes = begun(alloc)?;
    // Opening asks the head, the length and the log. Then come two writes, each with its sync.
    for (call, run) in [
        (1u64, 0u64),
        (2, 0),
        (3, 0),
        (4, 0),
        (5, 0),
        (6, 0),
        (7, 2),
        (8, 2),
    ] {
        fails_at(&rt, alloc, &bytes, call, run)?;
    }
    Ok(())
}

// What the server makes of what a stop left.
use super::catalogues::{Kept, Seen, see};
use super::fronts::Front;
use super::images::{Stop, WAYS, count_calls, left_at, left_behind};
use super::reports::report_of;
use super::serving::{Left, Served, serve, told_over};
use super::session::LISTS;
use std::alloc::Global;
use std::mem::forget;
use std::process::Abort;
use std::test::Fail;

// Whether a run has the files removed that no replica has, right behind its opening.
const SWEEPS_AT_OPENING: bool = true;

// Serves these requests over what was left, which is the grid of this front: what was pending is reported first.
fn serve_again(
    rt: &impl Abort,
    alloc: Global,
    seen: &Seen,
    front: &Front,
    input: &[u8],
    replies: &[u8],
) -> Result<Served, Fail> {
    let mut told = report_of(alloc, &seen.kept, b"")?;
    told.extend_from_slice(replies)?;
    let served = serve(rt, alloc, &seen.left, input)?;
    assert_eq!(rt;
        (served.sink.bytes(), seen.kept.rows.as_slice()),
        (told.as_slice(), front.rows.as_slice())
    );
    Ok(served)
}

// What the run of this number leaves, which was served again: the grid is that of this front, nothing is pending, and there are
// no files that no replica has.
fn rests(
    rt: &impl Abort,
    alloc: Global,
    served: &Served,
    front: &Front,
    run: u64,
) -> Result<Seen, Fail> {
    let seen = see(rt, alloc, left_behind(alloc, served)?)?;
    let is_swept = seen.kept.orphans == 0 || !SWEEPS_AT_OPENING;
    assert_eq!(rt;
        (
            seen.kept.rows.as_slice(),
            seen.kept.run,
            seen.kept.pending,
            is_swept
        ),
        (front.rows.as_slice(), run, 0, true)
    );
    Ok(seen)
}

// Lists all that there is over what was left.
fn list(rt: &impl Abort, alloc: Global, seen: &Seen, front: &Front) -> Result<(), Fail> {
    let listed = serve_again(rt, alloc, seen, front, LISTS, &front.listed)?;
    let behind = rests(rt, alloc, &listed, front, seen.kept.run.saturating_add(1));
    forget(listed);
    forget(behind?);
    Ok(())
}

// Lists what is there behind the run of this number.
fn list_behind(
    rt: &impl Abort,
    alloc: Global,
    opened: &Served,
    front: &Front,
    run: u64,
) -> Result<(), Fail> {
    let behind = rests(rt, alloc, opened, front, run)?;
    let result = list(rt, alloc, &behind, front);
    forget(behind);
    result
}

// Opens what was left, lists what is there then, and answers the run that opened it.
pub(crate) fn open(
    rt: &impl Abort,
    alloc: Global,
    seen: &Seen,
    front: &Front,
) -> Result<Served, Fail> {
    let opened = serve_again(rt, alloc, seen, front, b"", b"")?;
    match list_behind(rt, alloc, &opened, front, seen.kept.run.saturating_add(1)) {
        Ok(()) => Ok(opened),
        Err(error) => {
            forget(opened);
            Err(error)
        }
    }
}

// Lists what a stop of the run that opened it leaves.
fn list_at(
    rt: &impl Abort,
    alloc: Global,
    opened: &Served,
    front: &Front,
    stop: Stop,
) -> Result<(), Fail> {
    let seen = see(rt, alloc, left_at(alloc, opened, stop)?)?;
    let result = list(rt, alloc, &seen, front);
    forget(seen);
    result
}

// Stops the run that opened it at each moment too, and lists what is there then.
pub(crate) fn stop_again(
    rt: &impl Abort,
    alloc: Global,
    opened: &Served,
    front: &Front,
) -> Result<(), Fail> {
    for moment in 0..count_calls(opened)? {
        for way in WAYS {
            let stop = Stop {
                moment: (moment as u128).saturating_add(1),
                way,
            };
            list_at(rt, alloc, opened, front, stop)?;
        }
    }
    Ok(())
}

// What is listed behind a run that opened a grid: this was told, the run has this number, nothing is pending, and there are no files
// that no replica has.
fn listed_behind(
    rt: &impl Abort,
    alloc: Global,
    behind: &Seen,
    run: u64,
    lists: &[u8],
) -> Result<Vec<u8>, Fail> {
    let Kept {
        run: now,
        pending,
        orphans,
        ..
    } = &behind.kept;
    assert_eq!(rt; (*now, *pending, *orphans), (run, 0, 0));
    told_over(rt, alloc, &behind.left, lists)
}

fn listed_by(
    rt: &impl Abort,
    alloc: Global,
    opened: &Served,
    run: u64,
    lists: &[u8],
) -> Result<Vec<u8>, Fail> {
    let behind = see(rt, alloc, left_behind(alloc, opened)?)?;
    let listed = listed_behind(rt, alloc, &behind, run, lists);
    forget(behind);
    listed
}

// Opens what was left, without requests: this is told, the run has this number, nothing is pending then, and there are no files that no
// replica has. It answers the run, and what is told of these lists behind it.
pub(crate) fn open_and_list(
    rt: &impl Abort,
    alloc: Global,
    left: &Left,
    report: &[u8],
    run: u64,
    lists: &[u8],
) -> Result<(Served, Vec<u8>), Fail> {
    let opened = serve(rt, alloc, left, b"")?;
    assert_eq!(rt; opened.sink.bytes(), report);
    match listed_by(rt, alloc, &opened, run, lists) {
        Ok(listed) => Ok((opened, listed)),
        Err(error) => {
            forget(opened);
            Err(error)
        }
    }
}

// A session that is stopped at each moment: the grid is as after its first requests, with all whose replies were told.
use super::catalogues::{Seen, see};
use super::fronts::{Front, count_answered, fronts_of};
use super::images::{Stop, left_at, stops_of};
use super::reopening::{open, stop_again};
use super::serving::{Left, Served, begun, serve};
use super::session::{WITH_FILES, count, requests};
use std::alloc::Global;
use std::mem::forget;
use std::process::Abort;
use std::test::Fail;

// The front of the session that was left: all requests that were answered whole, and at most one more. A command that is pending
// is the next one, one that makes files, and nothing of it is seen or was told.
fn front_left<'a>(
    rt: &impl Abort,
    fronts: &'a [Front],
    seen: &Seen,
    stop: Stop,
) -> Result<&'a Front, Fail> {
    let told = seen.left.told.len();
    let answered = count_answered(fronts, told);
    let front = fronts.get(answered).ok_or("no front")?;
    let number = (answered as u64).saturating_add(1);
    let pending = seen.kept.pending;
    if pending != 0 {
        let makes_files = WITH_FILES.contains(&number);
        assert_eq!(rt;
            (pending, told, makes_files),
            (number, front.told, true),
            "{stop:?}"
        );
    }
    if seen.kept.rows == front.rows {
        return Ok(front);
    }
    let next = fronts.get(answered.saturating_add(1)).ok_or("no front")?;
    let is_next = seen.kept.rows == next.rows;
    assert_eq!(rt; (pending, is_next), (0, true), "{stop:?}");
    Ok(next)
}

fn stop_seen(
    rt: &impl Abort,
    alloc: Global,
    fronts: &[Front],
    seen: &Seen,
    stop: Stop,
    again: bool,
) -> Result<u64, Fail> {
    let front = front_left(rt, fronts, seen, stop)?;
    let opened = open(rt, alloc, seen, front)?;
    let result = if again {
        stop_again(rt, alloc, &opened, front)
    } else {
        Ok(())
    };
    forget(opened);
    result?;
    Ok(seen.kept.pending)
}

// Opens what a stop leaves, and stops that too where it is asked. It answers the number of the command that was pending, or 0.
fn stop_at(
    rt: &impl Abort,
    alloc: Global,
    fronts: &[Front],
    served: &Served,
    stop: Stop,
    again: bool,
) -> Result<u64, Fail> {
    let seen = see(rt, alloc, left_at(alloc, served, stop)?)?;
    let pending = stop_seen(rt, alloc, fronts, &seen, stop, again);
    forget(seen);
    pending
}

// Stops the session in each way in each call, and behind the last one, and answers which commands were pending.
fn stop_in(
    rt: &impl Abort,
    alloc: Global,
    fronts: &[Front],
    served: &Served,
    again: bool,
) -> Result<Vec<u64>, Fail> {
    let mut pending = Vec::new(alloc);
    for stop in stops_of(alloc, served)? {
        let number = stop_at(rt, alloc, fronts, served, stop, again)?;
        if number != 0 && !pending.contains(&number) {
            pending.push(number)?;
        }
    }
    Ok(pending)
}

fn stop_over(rt: &impl Abort, alloc: Global, new: &Left, again: bool) -> Result<Vec<u64>, Fail> {
    let fronts = fronts_of(rt, alloc, new)?;
    let input = requests(alloc, count())?;
    let served = serve(rt, alloc, new, &input)?;
    let pending = stop_in(rt, alloc, &fronts, &served, again);
    forget(served);
    pending
}

// The same of a session over a new grid.
fn stop_at_each(rt: &impl Abort, alloc: Global, again: bool) -> Result<Vec<u64>, Fail> {
    let new = begun(rt, alloc)?;
    let pending = stop_over(rt, alloc, &new, again);
    forget(new);
    pending
}

#[test]
fn a_stop_at_any_moment_leaves_what_was_told(rt: HostRuntime) -> Result<(), Fail> {
    let alloc = rt.alloc();
    let pending = stop_at_each(&rt, alloc, false)?;
    assert_eq!(rt; pending.as_slice(), WITH_FILES.as_slice());
    Ok(())
}

// Behind each stop of the session the run that opens what it left is stopped at each of its moments.
#[test]
fn the_run_that_opens_it_may_be_stopped_at_any_moment(rt: HostRuntime) -> Result<(), Fail> {
    stop_at_each(&rt, rt.alloc(), true)?;
    Ok(())
}

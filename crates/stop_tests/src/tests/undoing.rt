// The run that opens a grid where a command with recoveries was stopped, stopped at each moment.
use super::catalogues::{Seen, see};
use super::images::{Stop, Way, count_same, left_at, stops_of};
use super::reports::report_of;
use super::serving::Served;
use super::undone::{IN_A_RECOVERY, IN_A_STEP, Undone, WITH_MORE, opens, stopped_grid};
use std::alloc::Global;
use std::mem::forget;
use std::process::Abort;
use std::test::Fail;

// A run that opens what a stop left; and how many recoveries that make a file were still to be run, where the command was pending.
#[derive(Drop)]
struct Again {
    opened: Served,
    making: Option<usize>,
}

// Opens what was left. What was told of a command that is still pending is told once more, and the grid is the one that all recoveries
// leave.
fn open_seen(
    rt: &impl Abort,
    alloc: Global,
    undone: &Undone,
    seen: &Seen,
    stop: Stop,
) -> Result<Again, Fail> {
    let report = report_of(alloc, &seen.kept, undone.passed)?;
    let is_pending = seen.kept.pending != 0;
    if is_pending {
        let told = seen.left.told.as_slice();
        let same = count_same(&report, told);
        assert_eq!(rt; (seen.kept.run, same), (2, told.len()), "{stop:?}");
    }
    let run = seen.kept.run.saturating_add(1);
    Ok(Again {
        opened: opens(rt, alloc, &seen.left, &report, run, undone.listed)?,
        making: is_pending.then_some(seen.kept.making),
    })
}

// Opens what a stop in this run leaves.
fn open_again(
    rt: &impl Abort,
    alloc: Global,
    undone: &Undone,
    served: &Served,
    stop: Stop,
) -> Result<Again, Fail> {
    let seen = see(rt, alloc, left_at(alloc, served, stop)?)?;
    let again = open_seen(rt, alloc, undone, &seen, stop);
    forget(seen);
    again
}

// Opens what each stop of a run leaves.
fn stop_once(rt: &impl Abort, alloc: Global, undone: &Undone, served: &Served) -> Result<(), Fail> {
    for stop in stops_of(alloc, served)? {
        let again = open_again(rt, alloc, undone, served, stop)?;
        forget(again);
    }
    Ok(())
}

// Opens what a stop leaves, and stops that run too where it is asked and goes on with recoveries behind a stop before a call. It answers
// how many of them that make a file were still to be run.
fn stop_at(
    rt: &impl Abort,
    alloc: Global,
    undone: &Undone,
    opened: &Served,
    stop: Stop,
    again: bool,
) -> Result<Option<usize>, Fail> {
    let next = open_again(rt, alloc, undone, opened, stop)?;
    let making = next.making;
    let result = if again && making.is_some() && stop.way == Way::Before {
        stop_once(rt, alloc, undone, &next.opened)
    } else {
        Ok(())
    };
    forget(next);
    result?;
    Ok(making)
}

fn stop_in(
    rt: &impl Abort,
    alloc: Global,
    undone: &Undone,
    opened: &Served,
    again: bool,
) -> Result<Vec<usize>, Fail> {
    let mut left = Vec::new(alloc);
    for stop in stops_of(alloc, opened)? {
        if let Some(making) = stop_at(rt, alloc, undone, opened, stop, again)? {
            if !left.contains(&making) {
                left.push(making)?;
            }
        }
    }
    Ok(left)
}

fn stop_over(
    rt: &impl Abort,
    alloc: Global,
    undone: &Undone,
    seen: &Seen,
    again: bool,
) -> Result<Vec<usize>, Fail> {
    let report = report_of(alloc, &seen.kept, undone.passed)?;
    let opened = opens(rt, alloc, &seen.left, &report, 3, undone.listed)?;
    let left = stop_in(rt, alloc, undone, &opened, again);
    forget(opened);
    left
}

// Opens a grid where a command was stopped, and then what each stop of that run leaves; where it is asked, what stops of these leave too.
fn stop_at_each(
    rt: &impl Abort,
    alloc: Global,
    undone: &Undone,
    again: bool,
) -> Result<Vec<usize>, Fail> {
    let seen = see(rt, alloc, stopped_grid(rt, alloc, undone)?)?;
    let left = stop_over(rt, alloc, undone, &seen, again);
    forget(seen);
    left
}

#[test]
fn recoveries_may_be_stopped_at_any_moment(rt: HostRuntime) -> Result<(), Fail> {
    let alloc = rt.alloc();
    for (undone, wanted) in [
        (&IN_A_STEP, [0].as_slice()),
        (&IN_A_RECOVERY, &[1]),
        (&WITH_MORE, &[2, 1]),
    ] {
        let left = stop_at_each(&rt, alloc, undone, false)?;
        assert_eq!(rt; left.as_slice(), wanted);
    }
    Ok(())
}

// Behind a stop before each call the run that goes on with the recoveries is stopped at each of its moments.
#[test]
fn recoveries_may_be_stopped_twice(rt: HostRuntime) -> Result<(), Fail> {
    let left = stop_at_each(&rt, rt.alloc(), &WITH_MORE, true)?;
    assert_eq!(rt; left.as_slice(), [2, 1].as_slice());
    Ok(())
}

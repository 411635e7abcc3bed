// A session whose puts have rules behind them, and whose get has one before it, stopped at each moment: a command that is pending is
// undone from what it told, and the others are done or not.
use super::catalogues::{Kept, Seen, see};
use super::fronts::{Front, count_answered};
use super::images::{Stop, count_same, left_at, serve_on, stops_of, with_leaves};
use super::reopening::open_and_list;
use super::reports::report_of;
use super::serving::{Left, Served, serve, told_over};
use std::alloc::{AllocError, Global};
use std::mem::forget;
use std::process::Abort;
use std::test::Fail;

// Its requests, each with its reply, over a replication of three leaves. The first put is copied in steps that each have a recovery. The
// rule behind the second one fails, and a recovery makes the replica again that a step let go.
const SESSION: [(&[u8], &[u8]); 7] = [
    (b"0 login rods\n", b"1 ok\n"),
    (
        b"0 rules 532\npep_api_data_obj_put_post() { on($objPath like \"*.two\") { \
msiCollCreate($collName ++ \"/x\") ::: msiRmColl($collName ++ \"/x\"); \
msiDataObjRepl($objPath, \"d1\") ::: msiDataObjTrim($objPath, \"d1\"); \
msiDataObjRepl($objPath, \"d2\") ::: msiDataObjTrim($objPath, \"d2\"); } } \
pep_api_data_obj_put_post() { on($objPath like \"*.back\") { \
msiCollCreate($collName ++ \"/y\") ::: msiRmColl($collName ++ \"/y\"); \
msiDataObjTrim($objPath, \"d1\") ::: msiDataObjRepl($objPath, \"d1\"); fail; } } \
pep_api_data_obj_get_pre() { msiDataObjChksum($objPath) ::: nop; }",
        b"2 ok\n",
    ),
    (
        b"0 put /tempZone/home/rods/a.two d0 new 3\nabc",
        b"3 mark ran 0 1000\n3 mark ran 0 1000\n3 mark ran 0 1000\n3 ok\n",
    ),
    (
        b"0 put /tempZone/home/rods/b.back r new 3\nabc",
        b"4 mark ran 0 1000\n4 mark ran 0 1000\n4 err PostFailed Code -1\n",
    ),
    (
        b"0 get /tempZone/home/rods/a.two -\n",
        b"5 mark ran 0 1000\n5 data 3\nabc\n5 mark ran 0 1000\n5 ok 0\n",
    ),
    (b"0 mkdir /tempZone/home/rods/z\n", b"6 ok\n"),
    (b"0 quit\n", b"7 ok\n"),
];

// The numbers of the requests that may be pending.
const COPIED: u64 = 3;

const TAKEN_BACK: u64 = 4;

const SENT: u64 = 5;

// What is told of a get before its own mark.
const DATA: &[u8] = b"5 data 3\nabc\n";

// The lines of the marks of the first put, before its first copy and before its second one. The recovery of a copy that is stopped finds
// no replica.
const PUT_ALONE: &[u8] = b"3 mark ran 0 1000\n";

const COPIED_ONCE: &[u8] = b"3 mark ran 0 1000\n3 mark ran 0 1000\n";

const NONE_ON_D1: &[u8] = b"3 passed msiDataObjTrim /tempZone/home/rods/a.two d1 NoReplica\n";

const NONE_ON_D2: &[u8] = b"3 passed msiDataObjTrim /tempZone/home/rods/a.two d2 NoReplica\n";

// Lists all that there may be: in the end, and where the first put alone was done.
const LISTS: &[u8] =
    b"0 login rods\n0 ls /tempZone/home/rods\n0 ls /tempZone/home/rods/x\n0 ls /tempZone/home/rods/y\n";

const IN_THE_END: &[u8] =
    b"1 ok\n2 row D /tempZone/home/rods/a.two 0 r;d0 3 & sha2:ungWv48Bz+pBQUDeXa4iI7ADYaOWF3qctBD/YfIAFa0=\n\
2 row D /tempZone/home/rods/a.two 1 r;d1 3 & sha2:ungWv48Bz+pBQUDeXa4iI7ADYaOWF3qctBD/YfIAFa0=\n\
2 row D /tempZone/home/rods/a.two 2 r;d2 3 & sha2:ungWv48Bz+pBQUDeXa4iI7ADYaOWF3qctBD/YfIAFa0=\n\
2 row D /tempZone/home/rods/b.back 0 r;d0 3 & sha2:ungWv48Bz+pBQUDeXa4iI7ADYaOWF3qctBD/YfIAFa0=\n\
2 row D /tempZone/home/rods/b.back 2 r;d2 3 & sha2:ungWv48Bz+pBQUDeXa4iI7ADYaOWF3qctBD/YfIAFa0=\n\
2 row D /tempZone/home/rods/b.back 3 r;d1 3 & sha2:ungWv48Bz+pBQUDeXa4iI7ADYaOWF3qctBD/YfIAFa0=\n\
2 row C /tempZone/home/rods/x\n2 row C /tempZone/home/rods/z\n2 ok\n3 ok\n4 err NoObject\n";

const WITH_ONE: &[u8] =
    b"1 ok\n2 row D /tempZone/home/rods/a.two 0 r;d0 3 & sha2:ungWv48Bz+pBQUDeXa4iI7ADYaOWF3qctBD/YfIAFa0=\n2 ok\n\
3 err NoObject\n4 err NoObject\n";

// The first so many requests.
fn first_requests(alloc: Global, count: usize) -> Result<Vec<u8>, AllocError> {
    let mut input = Vec::new(alloc);
    for (request, _) in SESSION.iter().take(count) {
        input.extend_from_slice(request)?;
    }
    Ok(input)
}

// The replies to them.
fn first_replies(alloc: Global, count: usize) -> Result<Vec<u8>, AllocError> {
    let mut told = Vec::new(alloc);
    for (_, reply) in SESSION.iter().take(count) {
        told.extend_from_slice(reply)?;
    }
    Ok(told)
}

// The front of the session behind so many requests, over a grid that was made. The rows are not looked at.
fn front_of(rt: &impl Abort, alloc: Global, made: &Left, count: usize) -> Result<Front, Fail> {
    let input = first_requests(alloc, count)?;
    let told = first_replies(alloc, count)?;
    let left = serve_on(rt, alloc, made, &input, &told)?;
    let listed = told_over(rt, alloc, &left, LISTS);
    forget(left);
    Ok(Front {
        told: told.len(),
        rows: Vec::new(alloc),
        listed: listed?,
    })
}

// All fronts, that of no request first.
fn fronts_of(rt: &impl Abort, alloc: Global, made: &Left) -> Result<Vec<Front>, Fail> {
    let mut fronts = Vec::new(alloc);
    for count in 0..=SESSION.len() {
        fronts.push(front_of(rt, alloc, made, count)?)?;
    }
    Ok(fronts)
}

// The lines of the recoveries that are refused where this is pending.
fn passed_by(kept: &Kept) -> &'static [u8] {
    if kept.pending == COPIED && kept.marks.as_slice() == PUT_ALONE {
        return NONE_ON_D1;
    }
    if kept.pending == COPIED && kept.marks.as_slice() == COPIED_ONCE {
        return NONE_ON_D2;
    }
    b""
}

// What a pending command told is a front of the lines of its kept marks, and for a get of its data behind them.
fn told_is_kept(rt: &impl Abort, alloc: Global, seen: &Seen, from: usize) -> Result<(), Fail> {
    let mut lines = seen.kept.marks.clone()?;
    if seen.kept.pending == SENT {
        lines.extend_from_slice(DATA)?;
    }
    let (_, told) = seen.left.told.split_at(from.min(seen.left.told.len()));
    assert_eq!(rt;
        count_same(&lines, told),
        told.len(),
        "{}",
        seen.kept.pending
    );
    Ok(())
}

// What is listed once the command is undone that is pending there, behind so many requests that were answered. Where none is, that is
// one of two.
fn listed_behind<'a>(
    rt: &impl Abort,
    alloc: Global,
    fronts: &'a [Front],
    seen: &Seen,
) -> Result<(&'a [u8], &'a [u8]), Fail> {
    let answered = count_answered(fronts, seen.left.told.len());
    let front = fronts.get(answered).ok_or("no front")?;
    let number = (answered as u64).saturating_add(1);
    let pending = seen.kept.pending;
    if pending == 0 {
        let next = fronts.get(answered.saturating_add(1)).unwrap_or(front);
        return Ok((front.listed.as_slice(), next.listed.as_slice()));
    }
    assert_eq!(rt; pending, number);
    told_is_kept(rt, alloc, seen, front.told)?;
    if pending == COPIED && !seen.kept.marks.is_empty() {
        return Ok((WITH_ONE, WITH_ONE));
    }
    if pending == TAKEN_BACK && !seen.kept.marks.is_empty() {
        let next = fronts.get(answered.saturating_add(1)).ok_or("no front")?;
        return Ok((next.listed.as_slice(), next.listed.as_slice()));
    }
    Ok((front.listed.as_slice(), front.listed.as_slice()))
}

fn open(
    rt: &impl Abort,
    alloc: Global,
    seen: &Seen,
    passed: &[u8],
) -> Result<(Served, Vec<u8>), Fail> {
    let report = report_of(alloc, &seen.kept, passed)?;
    let run = seen.kept.run.saturating_add(1);
    open_and_list(rt, alloc, &seen.left, &report, run, LISTS)
}

// Opens what a stop of the run that opened a grid leaves: what is pending then is reported once more, and the grid is the same.
fn open_again(
    rt: &impl Abort,
    alloc: Global,
    opened: &Served,
    stop: Stop,
    passed: &[u8],
) -> Result<Vec<u8>, Fail> {
    let seen = see(rt, alloc, left_at(alloc, opened, stop)?)?;
    let again = open(rt, alloc, &seen, passed);
    forget(seen);
    let (served, listed) = again?;
    forget(served);
    Ok(listed)
}

fn stop_again(
    rt: &impl Abort,
    alloc: Global,
    opened: &Served,
    passed: &[u8],
    listed: &[u8],
) -> Result<(), Fail> {
    for stop in stops_of(alloc, opened)? {
        let again = open_again(rt, alloc, opened, stop, passed)?;
        assert_eq!(rt; again.as_slice(), listed, "{stop:?}");
    }
    Ok(())
}

fn stop_seen(
    rt: &impl Abort,
    alloc: Global,
    fronts: &[Front],
    seen: &Seen,
    stop: Stop,
    again: bool,
) -> Result<(), Fail> {
    let (one, other) = listed_behind(rt, alloc, fronts, seen)?;
    let passed = passed_by(&seen.kept);
    let (opened, listed) = open(rt, alloc, seen, passed)?;
    let is_one = listed.as_slice() == one || listed.as_slice() == other;
    assert!(rt; is_one, "{stop:?}");
    let result = if again {
        stop_again(rt, alloc, &opened, passed, &listed)
    } else {
        Ok(())
    };
    forget(opened);
    result
}

// Opens what a stop leaves, and stops that too where it is asked. It answers the number of the command that was pending, or 0.
fn stop_at(
    rt: &impl Abort,
    alloc: Global,
    fronts: &[Front],
    served: &Served,
    stop: Stop,
    again: bool,
) -> Result<u64, Fail> {
    let seen = see(rt, alloc, left_at(alloc, served, stop)?)?;
    let result = stop_seen(rt, alloc, fronts, &seen, stop, again);
    let pending = seen.kept.pending;
    forget(seen);
    result?;
    Ok(pending)
}

// Stops the session in each way in each call, and behind the last one, and answers which commands were pending.
fn stop_in(
    rt: &impl Abort,
    alloc: Global,
    fronts: &[Front],
    served: &Served,
    again: bool,
) -> Result<Vec<u64>, Fail> {
    let mut pending = Vec::new(alloc);
    for stop in stops_of(alloc, served)? {
        let number = stop_at(rt, alloc, fronts, served, stop, again)?;
        if number != 0 && !pending.contains(&number) {
            pending.push(number)?;
        }
    }
    Ok(pending)
}

fn stop_over(rt: &impl Abort, alloc: Global, made: &Left, again: bool) -> Result<Vec<u64>, Fail> {
    let fronts = fronts_of(rt, alloc, made)?;
    let last = fronts.last().ok_or("no front")?;
    assert_eq!(rt; last.listed.as_slice(), IN_THE_END);
    let input = first_requests(alloc, SESSION.len())?;
    let served = serve(rt, alloc, made, &input)?;
    let pending = stop_in(rt, alloc, &fronts, &served, again);
    forget(served);
    pending
}

// The same of a session over a new grid with leaves.
fn stop_at_each(rt: &impl Abort, alloc: Global, again: bool) -> Result<Vec<u64>, Fail> {
    let made = with_leaves(rt, alloc)?;
    let pending = stop_over(rt, alloc, &made, again);
    forget(made);
    pending
}

#[test]
fn a_command_with_rules_may_be_stopped_at_any_moment(rt: HostRuntime) -> Result<(), Fail> {
    let pending = stop_at_each(&rt, rt.alloc(), false)?;
    assert_eq!(rt; pending.as_slice(), [COPIED, TAKEN_BACK, SENT].as_slice());
    Ok(())
}

// Behind each stop of the session the run that opens what it left is stopped at each of its moments.
#[test]
fn what_undoes_it_may_be_stopped_at_any_moment(rt: HostRuntime) -> Result<(), Fail> {
    stop_at_each(&rt, rt.alloc(), true)?;
    Ok(())
}

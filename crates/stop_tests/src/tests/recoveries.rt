// Puts whose rules were stopped, in a step and in a recovery, and what the run tells and leaves that opens them.
use super::catalogues::{Kept, Seen, see};
use super::images::{Stop, WAYS, Way, left_at, left_behind, with_leaves};
use super::serving::{Left, Served, Watch, serve, serve_failing};
use super::undone::{IN_A_RECOVERY, IN_A_STEP, opens};
use grid_mem::{DiskDeed, StoreDeed};
use std::alloc::Global;
use std::mem::forget;
use std::process::Abort;
use std::test::Fail;

// The moment of the first write of a run to main.
fn first_write(served: &Served) -> Result<u128, Fail> {
    for call in served.main.calls() {
        if let DiskDeed::Write { .. } = &call.deed {
            return Ok(call.moment);
        }
    }
    Err("no write".into())
}

// The moment in which a store creates a file, behind so many that it created before.
fn create_behind(store: &Watch, before: usize) -> Result<u128, Fail> {
    let record = store.try_borrow()?;
    let mut left = before;
    for call in &record.calls {
        if let StoreDeed::Create { .. } = &call.deed {
            if left == 0 {
                return Ok(call.moment);
            }
            left = left.saturating_sub(1);
        }
    }
    Err("no create".into())
}

// What is left of a run where nothing is sure but what was synced and finished when a store creates a file, behind so many of its own;
// this was told.
fn stopped_by(
    rt: &impl Abort,
    alloc: Global,
    served: &Served,
    (slot, before): (usize, usize),
    told: &[u8],
) -> Result<Left, Fail> {
    let store = served.stores.get(slot).ok_or("no store")?;
    let moment = create_behind(store, before)?;
    let way = Way::Lost;
    let left = left_at(alloc, served, Stop { moment, way })?;
    assert_eq!(rt; left.told.as_slice(), told);
    Ok(left)
}

// The same of a run over three leaves and the replication over them.
fn stopped_in(
    rt: &impl Abort,
    alloc: Global,
    input: &[u8],
    place: (usize, usize),
    told: &[u8],
) -> Result<Left, Fail> {
    let made = with_leaves(rt, alloc)?;
    let served = serve(rt, alloc, &made, input);
    forget(made);
    let served = served?;
    let left = stopped_by(rt, alloc, &served, place, told);
    forget(served);
    left
}

// Opens what a stop at a moment of a run leaves in each way: this is told then, and this is listed.
fn open_at(
    rt: &impl Abort,
    alloc: Global,
    opened: &Served,
    moment: u128,
    report: &[u8],
    listed: &[u8],
) -> Result<(), Fail> {
    for way in WAYS {
        let left = left_at(alloc, opened, Stop { moment, way })?;
        let again = opens(rt, alloc, &left, report, 3, listed);
        forget(left);
        forget(again?);
    }
    Ok(())
}

// In each way this was told.
fn tell_at(
    rt: &impl Abort,
    alloc: Global,
    opened: &Served,
    moment: u128,
    told: &[u8],
) -> Result<(), Fail> {
    for way in WAYS {
        let left = left_at(alloc, opened, Stop { moment, way })?;
        assert_eq!(rt; left.told.as_slice(), told);
        forget(left);
    }
    Ok(())
}

// What is put is copied to d1 and then to d2; the second copy is stopped. The next rule of the name is never run.
const COPIED_TWICE: &[u8] = b"0 login rods\n0 rules 244\npep_api_data_obj_put_post() {\n\
msiDataObjRepl($objPath, \"d1\") ::: msiDataObjTrim($objPath, \"d1\");\n\
msiDataObjRepl($objPath, \"d2\") ::: msiDataObjTrim($objPath, \"d2\"); }\n\
pep_api_data_obj_put_post() { msiAddAVU(\"-d\", $objPath, \"late\", \"yes\", \"\"); }\n\
0 put /tempZone/home/rods/o d0 new 3\nabc";

const TOLD_TWICE: &[u8] = b"1 ok\n2 ok\n3 mark ran 0 1000\n3 mark ran 0 1000\n";

// A replica of what is put is let go, and copied again when the rule fails; that copy is stopped.
const TAKEN_BACK: &[u8] = b"0 login rods\n0 rules 172\npep_api_data_obj_put_post() { \
msiCollCreate($collName ++ \"/x\") ::: msiRmColl($collName ++ \"/x\"); \
msiDataObjTrim($objPath, \"d1\") ::: msiDataObjRepl($objPath, \"d1\"); fail; }\n\
0 put /tempZone/home/rods/o r new 3\nabc";

const TOLD_ONCE: &[u8] = b"1 ok\n2 ok\n3 mark ran 0 1000\n";

const AFTER_A_STEP: &[u8] = b"stopped 2 3\n3 mark ran 0 1000\n3 mark ran 0 1000\n3 mark stop\n\
3 passed msiDataObjTrim /tempZone/home/rods/o d2 NoReplica\n3 err Stopped\n";

#[test]
fn the_steps_before_one_that_is_stopped_are_undone(rt: HostRuntime) -> Result<(), Fail> {
    let alloc = rt.alloc();
    let left = stopped_in(&rt, alloc, COPIED_TWICE, (2, 0), TOLD_TWICE)?;
    let opened = opens(&rt, alloc, &left, AFTER_A_STEP, 3, IN_A_STEP.listed);
    forget(left);
    let opened = opened?;
    // A second stop, where the run is begun.
    let result = stopped_where_begun(&rt, alloc, &opened);
    forget(opened);
    result
}

fn stopped_where_begun(rt: &impl Abort, alloc: Global, opened: &Served) -> Result<(), Fail> {
    let moment = first_write(opened)?;
    open_at(rt, alloc, opened, moment, AFTER_A_STEP, IN_A_STEP.listed)
}

const AFTER_A_RECOVERY: &[u8] =
    b"stopped 2 3\n3 mark ran 0 1000\n3 mark stop\n3 mark ran 0 1000\n3 err Stopped\n";

const AFTER_TWO: &[u8] =
    b"stopped 2 3\n3 mark ran 0 1000\n3 mark stop\n3 mark stop\n3 mark ran 0 1000\n3 err Stopped\n";

const TOLD_AGAIN: &[u8] = b"stopped 2 3\n3 mark ran 0 1000\n3 mark stop\n";

fn stopped_there_again(rt: &impl Abort, alloc: Global, opened: &Served) -> Result<(), Fail> {
    let moment = create_behind(&opened.stores[1], 0)?;
    tell_at(rt, alloc, opened, moment, TOLD_AGAIN)?;
    open_at(rt, alloc, opened, moment, AFTER_TWO, IN_A_RECOVERY.listed)
}

#[test]
fn a_recovery_that_is_stopped_is_run_again(rt: HostRuntime) -> Result<(), Fail> {
    let alloc = rt.alloc();
    let left = stopped_in(&rt, alloc, TAKEN_BACK, (1, 1), TOLD_ONCE)?;
    let opened = opens(&rt, alloc, &left, AFTER_A_RECOVERY, 3, IN_A_RECOVERY.listed);
    forget(left);
    let opened = opened?;
    // A second stop in the same place.
    let result = stopped_there_again(&rt, alloc, &opened);
    forget(opened);
    result
}

const REFUSED: &[u8] = b"stopped 2 3\n3 mark ran 0 1000\n3 mark stop\n3 mark fault 1 0\n\
3 passed msiDataObjRepl /tempZone/home/rods/o d1 \"Fault 1\"\n3 err Stopped\n";

const WITHOUT_ONE: &[u8] = b"1 ok\n\
2 row D /tempZone/home/rods/o 0 r;d0 3 & sha2:ungWv48Bz+pBQUDeXa4iI7ADYaOWF3qctBD/YfIAFa0=\n\
2 row D /tempZone/home/rods/o 2 r;d2 3 & sha2:ungWv48Bz+pBQUDeXa4iI7ADYaOWF3qctBD/YfIAFa0=\n2 ok\n3 ok\n";

// The recovery is passed over, and there are the file that was trimmed and those of two tries.
fn is_passed_over(rt: &impl Abort, alloc: Global, seen: &Seen) -> Result<(), Fail> {
    let Kept {
        run,
        pending,
        orphans,
        ..
    } = &seen.kept;
    assert_eq!(rt; (*run, *pending, *orphans), (3, 0, 3));
    let opened = opens(rt, alloc, &seen.left, b"", 4, WITHOUT_ONE)?;
    forget(opened);
    Ok(())
}

fn refused_over(rt: &impl Abort, alloc: Global, left: &Left) -> Result<Left, Fail> {
    let opened = serve_failing(rt, alloc, left, b"")?;
    assert_eq!(rt; opened.sink.bytes(), REFUSED);
    let behind = left_behind(alloc, &opened);
    forget(opened);
    behind
}

#[test]
fn a_recovery_that_a_store_refuses_is_passed_over(rt: HostRuntime) -> Result<(), Fail> {
    let alloc = rt.alloc();
    let left = stopped_in(&rt, alloc, TAKEN_BACK, (1, 1), TOLD_ONCE)?;
    let behind = refused_over(&rt, alloc, &left);
    forget(left);
    let seen = see(&rt, alloc, behind?)?;
    let result = is_passed_over(&rt, alloc, &seen);
    forget(seen);
    result
}

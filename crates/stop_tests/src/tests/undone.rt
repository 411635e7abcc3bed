// Grids where a command with recoveries was stopped, and what a run leaves that opens them.
use super::images::{serve_on, with_leaves};
use super::pendings::{Service, Stopped, with_stopped};
use super::reopening::open_and_list;
use super::serving::{Left, Served};
use std::alloc::Global;
use std::mem::forget;
use std::process::Abort;
use std::test::Fail;

// A grid where a command was stopped: the requests of its second run with their replies, what is pending, the lines of the recoveries
// that are refused, and what is listed once all of them were run.
#[derive(Clone, Copy)]
pub(crate) struct Undone {
    pub(crate) requests: &'static [u8],
    pub(crate) replies: &'static [u8],
    pub(crate) stopped: Stopped,
    pub(crate) passed: &'static [u8],
    pub(crate) listed: &'static [u8],
}

// The step that copies to d2 is stopped, and it and the one that copied to d1 are undone.
pub(crate) const IN_A_STEP: Undone = Undone {
    requests: b"0 login rods\n0 put /tempZone/home/rods/o d0 new 3\nabc0 repl /tempZone/home/rods/o d1\n",
    replies: b"1 ok\n2 mark ran 0 1000\n2 ok\n3 mark ran 0 1000\n3 ok\n",
    stopped: Stopped {
        line: b"0 put /tempZone/home/rods/o d0 new 3",
        marks: 2,
        running: (b"msiDataObjRepl", &[b"/tempZone/home/rods/o", b"d2"]),
        vault: 3,
        slot: 2,
        undo: &[
            (b"msiDataObjTrim", &[b"/tempZone/home/rods/o", b"d1"]),
            (b"msiDataObjTrim", &[b"/tempZone/home/rods/o", b"d2"]),
        ],
    },
    passed: b"3 passed msiDataObjTrim /tempZone/home/rods/o d2 NoReplica\n",
    listed: b"1 ok\n\
2 row D /tempZone/home/rods/o 0 r;d0 3 & sha2:ungWv48Bz+pBQUDeXa4iI7ADYaOWF3qctBD/YfIAFa0=\n2 ok\n3 ok\n",
};

const COPIES_BACK: Service = (b"msiDataObjRepl", &[b"/tempZone/home/rods/o", b"d1"]);

const DROPS_X: Service = (b"msiRmColl", &[b"/tempZone/home/rods/x"]);

const STOPPED_IN_A_RECOVERY: Stopped = Stopped {
    line: b"0 put /tempZone/home/rods/o r new 3",
    marks: 1,
    running: COPIES_BACK,
    vault: 4,
    slot: 1,
    undo: &[DROPS_X, COPIES_BACK],
};

// The recovery that copies to d1 is stopped, behind a trim there, and a collection is still to go.
pub(crate) const IN_A_RECOVERY: Undone = Undone {
    requests: b"0 login rods\n0 put /tempZone/home/rods/o r new 3\nabc0 trim /tempZone/home/rods/o d1\n\
0 mkdir /tempZone/home/rods/x\n",
    replies: b"1 ok\n2 mark ran 0 1000\n2 ok\n3 ok\n4 ok\n",
    stopped: STOPPED_IN_A_RECOVERY,
    passed: b"",
    listed: b"1 ok\n\
2 row D /tempZone/home/rods/o 0 r;d0 3 & sha2:ungWv48Bz+pBQUDeXa4iI7ADYaOWF3qctBD/YfIAFa0=\n\
2 row D /tempZone/home/rods/o 2 r;d2 3 & sha2:ungWv48Bz+pBQUDeXa4iI7ADYaOWF3qctBD/YfIAFa0=\n\
2 row D /tempZone/home/rods/o 3 r;d1 3 & sha2:ungWv48Bz+pBQUDeXa4iI7ADYaOWF3qctBD/YfIAFa0=\n2 ok\n3 ok\n",
};

// The same with more recoveries, of which another one makes a file, and one is refused.
pub(crate) const WITH_MORE: Undone = Undone {
    stopped: Stopped {
        undo: &[
            DROPS_X,
            (
                b"msiDataObjCopy",
                &[b"/tempZone/home/rods/o", b"/tempZone/home/rods/p", b"d0"],
            ),
            (
                b"msiAddAVU",
                &[b"-d", b"/tempZone/home/rods/o", b"k", b"v", b""],
            ),
            (b"msiDataObjTrim", &[b"/tempZone/home/rods/o", b"d9"]),
            COPIES_BACK,
        ],
        ..STOPPED_IN_A_RECOVERY
    },
    passed: b"3 passed msiDataObjTrim /tempZone/home/rods/o d9 NoResource\n",
    listed: b"1 ok\n\
2 row D /tempZone/home/rods/o 0 r;d0 3 & sha2:ungWv48Bz+pBQUDeXa4iI7ADYaOWF3qctBD/YfIAFa0=\n\
2 row D /tempZone/home/rods/o 2 r;d2 3 & sha2:ungWv48Bz+pBQUDeXa4iI7ADYaOWF3qctBD/YfIAFa0=\n\
2 row D /tempZone/home/rods/o 3 r;d1 3 & sha2:ungWv48Bz+pBQUDeXa4iI7ADYaOWF3qctBD/YfIAFa0=\n\
2 row D /tempZone/home/rods/p 0 r;d0 3 & sha2:ungWv48Bz+pBQUDeXa4iI7ADYaOWF3qctBD/YfIAFa0=\n2 ok\n\
3 row k v \"\"\n3 ok\n",
    ..IN_A_RECOVERY
};

// Lists the objects and collections that there may be, and what is said of the first object.
const LIST: &[u8] = b"0 login rods\n0 ls /tempZone/home/rods\n0 lsmeta -d /tempZone/home/rods/o\n";

// The grid as the stop leaves it, after two runs: the first one makes the leaves and the replication over them.
pub(crate) fn stopped_grid(rt: &impl Abort, alloc: Global, undone: &Undone) -> Result<Left, Fail> {
    let made = with_leaves(rt, alloc)?;
    let left = serve_on(rt, alloc, &made, undone.requests, undone.replies);
    forget(made);
    let mut left = left?;
    match with_stopped(alloc, &left.main, undone.stopped) {
        Ok(main) => {
            left.main = main;
            Ok(left)
        }
        Err(error) => {
            forget(left);
            Err(error.into())
        }
    }
}

// Opens what was left, by which this is told, the run has this number, and this is listed. It answers the run that opened it.
pub(crate) fn opens(
    rt: &impl Abort,
    alloc: Global,
    left: &Left,
    report: &[u8],
    run: u64,
    listed: &[u8],
) -> Result<Served, Fail> {
    let (opened, came) = open_and_list(rt, alloc, left, report, run, LIST)?;
    assert_eq!(rt; came.as_slice(), listed);
    Ok(opened)
}

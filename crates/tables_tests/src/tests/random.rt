//! Random changes, done by the tables and by the plain rows.

use super::changes::{Change, Collection};
use super::draws::{Draws, IDS, VAULTS};
use super::owning::{KINDS, Part, are_done, count, try_part};
use super::plain::Plain;
use super::seen::show_the_same;
use grid_tables::{TableError, Tables};
use std::alloc::{AllocError, Global};
use std::mem::forget;
use std::process::Abort;
use std::test::Fail;

// done by both, or refused by both with the number of its kind
fn change_both(
    rt: &impl Abort,
    alloc: Global,
    tables: &mut Tables,
    plain: &mut Plain,
    change: Change,
) -> Result<bool, AllocError> {
    let cause = change.number();
    let is_done = plain.apply(change)?;
    let delta = change.delta(alloc)?;
    let refused = tables.apply(delta).err();
    let wanted = TableError::BadDelta { cause };
    assert_eq!(rt; refused, (!is_done).then_some(wanted), "{cause}");
    show_the_same(rt, alloc, tables, plain, (IDS, VAULTS), u32::from(cause))?;
    Ok(is_done)
}

// a random change; it is counted among those of its kind that were done
fn step(
    rt: &impl Abort,
    alloc: Global,
    tables: &mut Tables,
    plain: &mut Plain,
    draws: &mut Draws,
    done: &mut [u32; KINDS],
) -> Result<(), AllocError> {
    let change = draws.change();
    if change_both(rt, alloc, tables, plain, change)? {
        count(done, change);
    }
    Ok(())
}

// a zone, vault numbers and `/`
fn start(
    rt: &impl Abort,
    alloc: Global,
    tables: &mut Tables,
    plain: &mut Plain,
) -> Result<(), AllocError> {
    let root = Collection {
        id: 0,
        parent: 0,
        name: 0,
    };
    change_both(
        rt,
        alloc,
        tables,
        plain,
        Change::Zone { name: 1, stores: 2 },
    )?;
    change_both(rt, alloc, tables, plain, Change::Numbers(7))?;
    change_both(rt, alloc, tables, plain, Change::Collection(root))?;
    Ok(())
}

// makes random changes where there are no rows, and counts those that are done by their kinds
fn follow_both(
    rt: &impl Abort,
    alloc: Global,
    tables: &mut Tables,
    plain: &mut Plain,
    draws: &mut Draws,
    done: &mut [u32; KINDS],
) -> Result<(), AllocError> {
    start(rt, alloc, tables, plain)?;
    for _step in 0..600 {
        step(rt, alloc, tables, plain, draws, done)?;
    }
    Ok(())
}

/// The same, beside plain rows.
pub(crate) fn follow(
    rt: &impl Abort,
    alloc: Global,
    tables: &mut Tables,
    seed: u64,
    done: &mut [u32; KINDS],
) -> Result<(), AllocError> {
    let mut draws = Draws::new(seed);
    let mut plain = Plain::empty(alloc);
    let result = follow_both(rt, alloc, tables, &mut plain, &mut draws, done);
    forget(plain);
    result
}

#[test]
fn random_changes(rt: HostRuntime) -> Result<(), Fail> {
    let mut done = [0; KINDS];
    for seed in 0..60 {
        try_part(&rt, rt.alloc(), Part::RandomChanges { seed }, &mut done)?;
    }
    are_done(&rt, &done);
    Ok(())
}

//! Changes for which there is no memory leave all as it was, and are done once there is. It shows something where an
//! allocation is refused (`rt try --test --fail-alloc N`); else all changes are done at once. No memory is taken but by
//! the changes until one is refused, so that few numbers refuse each allocation of each change.
ghost use Rattle.std.specs.Prelude.{◌<◌};

use super::changes::{Change, Collection};
use super::owning::{KINDS, Part, are_done, count, try_part};
use super::plain::Plain;
use super::seen::show_the_same;
use super::steps::{ROUNDS, TURNS, new_row, no_row, other_row};
use grid_tables::{TableError, Tables};
use std::alloc::{AllocError, Global};
use std::mem::forget;
use std::process::Abort;
use std::test::Fail;

/// How many changes there are.
const STEPS: u32 = 3 + 3 * ROUNDS * TURNS;

/// Ids and numbers of replicas are below this.
const IDS: u32 = ROUNDS + 3;

/// Vault numbers of orphans are below this.
const VAULTS: u32 = 80;

fn later_change(step: u32) -> Change {
    let round = step / TURNS;
    let turn = step % TURNS;
    if round < ROUNDS {
        return new_row(round, turn);
    }
    let round = round - ROUNDS;
    if round < ROUNDS {
        return other_row(round, turn);
    }
    no_row(round % ROUNDS, turn)
}

fn change(step: u32) -> Change {
    match step {
        0 => Change::Zone { name: 1, stores: 2 },
        1 => Change::Numbers(100),
        2 => Change::Collection(Collection {
            id: 0,
            parent: 0,
            name: 0,
        }),
        _ => later_change(step.saturating_sub(3)),
    }
}

// The tables show what the first so many changes lead to. Plain rows to which so many were made follow.
fn are_as_after(
    rt: &impl Abort,
    alloc: Global,
    tables: &Tables,
    plain: &mut Plain,
    made: &mut u32,
    steps: u32,
) -> Result<(), AllocError> {
    for step in *made..steps {
        plain.apply(change(step))?;
    }
    *made = steps;
    show_the_same(rt, alloc, tables, plain, (IDS, VAULTS), steps)
}

// Does a change. What is not done for want of memory leaves all as it was, and is then done.
fn step_on(
    rt: &impl Abort,
    alloc: Global,
    tables: &mut Tables,
    plain: &mut Plain,
    made: &mut u32,
    step: u32,
) -> Result<bool, AllocError>
    requires { step < STEPS }
{
    let delta = change(step).delta(alloc)?;
    match tables.apply(delta) {
        Ok(()) => Ok(true),
        Err(TableError::BadDelta { .. }) => Ok(false),
        Err(TableError::Memory) => {
            are_as_after(rt, alloc, tables, plain, made, step)?;
            let again = change(step).delta(alloc)?;
            let is_done = tables.apply(again).is_ok();
            are_as_after(rt, alloc, tables, plain, made, step + 1)?;
            Ok(is_done)
        }
    }
}

// Makes all changes where there are no rows, and counts those that are done by their kinds.
fn walk_both(
    rt: &impl Abort,
    alloc: Global,
    tables: &mut Tables,
    plain: &mut Plain,
    done: &mut [u32; KINDS],
) -> Result<(), AllocError> {
    let mut made: u32 = 0;
    for step in 0..STEPS {
        if step_on(rt, alloc, tables, plain, &mut made, step)? {
            count(done, change(step));
        }
    }
    Ok(())
}

/// The same, beside plain rows.
pub(crate) fn walk(
    rt: &impl Abort,
    alloc: Global,
    tables: &mut Tables,
    done: &mut [u32; KINDS],
) -> Result<(), AllocError> {
    let mut plain = Plain::empty(alloc);
    let result = walk_both(rt, alloc, tables, &mut plain, done);
    forget(plain);
    result
}

#[test]
fn changes_without_memory(rt: HostRuntime) -> Result<(), Fail> {
    let mut done = [0; KINDS];
    try_part(&rt, rt.alloc(), Part::ChangesWithoutMemory, &mut done)?;
    are_done(&rt, &done);
    Ok(())
}

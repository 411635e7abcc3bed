//! The owner of tables. To drop some is dear to prove, so there is one, which forgets them in the end.

use super::changes::Change;
use super::random::follow;
use super::script::play;
use super::without_memory::walk;
use grid_tables::Tables;
use std::alloc::Global;
use std::mem::forget;
use std::process::Abort;
use std::test::Fail;

/// More than the greatest number of a kind of changes.
pub(crate) const KINDS: usize = 22;

/// What is tried where there are no rows.
#[derive(Clone, Copy)]
pub(crate) enum Part {
    SmallGrid,
    RandomChanges { seed: u64 },
    ChangesWithoutMemory,
}

/// Counts a change that was done among those of its kind.
pub(crate) fn count(done: &mut [u32; KINDS], change: Change) {
    if let Some(count) = done.get_mut(usize::from(change.number())) {
        *count = count.saturating_add(1);
    }
}

/// Changes of each kind but the first, of which there is one, were done more than once.
pub(crate) fn are_done(rt: &impl Abort, done: &[u32; KINDS]) {
    for (kind, count) in done.iter().enumerate().skip(2) {
        assert!(rt; 2 <= *count, "{kind}");
    }
}

/// Tries a part, and counts the changes of the two last ones that are done by their kinds.
pub(crate) fn try_part(
    rt: &impl Abort,
    alloc: Global,
    part: Part,
    done: &mut [u32; KINDS],
) -> Result<(), Fail> {
    let mut tables = Tables::empty(alloc);
    let result = try_over(rt, alloc, part, &mut tables, done);
    forget(tables);
    result
}

fn try_over(
    rt: &impl Abort,
    alloc: Global,
    part: Part,
    tables: &mut Tables,
    done: &mut [u32; KINDS],
) -> Result<(), Fail> {
    match part {
        Part::SmallGrid => play(rt, alloc, tables),
        Part::RandomChanges { seed } => Ok(follow(rt, alloc, tables, seed, done)?),
        Part::ChangesWithoutMemory => Ok(walk(rt, alloc, tables, done)?),
    }
}

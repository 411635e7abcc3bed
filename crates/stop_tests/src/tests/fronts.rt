// What the session leaves that is not stopped, after each of its requests.
use super::catalogues::{Seen, see};
use super::images::serve_on;
use super::serving::{Left, told_over};
use super::session::{LISTS, count, replies, requests};
use std::alloc::Global;
use std::mem::forget;
use std::process::Abort;
use std::test::Fail;

// A front of the session: how many bytes its replies have, what the rows tell then, and what is listed.
#[derive(Drop)]
pub(crate) struct Front {
    pub(crate) told: usize,
    pub(crate) rows: Vec<u8>,
    pub(crate) listed: Vec<u8>,
}

fn front_seen(rt: &impl Abort, alloc: Global, seen: &Seen, told: usize) -> Result<Front, Fail> {
    assert_eq!(rt; seen.kept.pending, 0);
    let rows = seen.kept.rows.clone()?;
    let listed = told_over(rt, alloc, &seen.left, LISTS)?;
    Ok(Front { told, rows, listed })
}

// Serves the first so many requests over a new grid.
fn front_of(rt: &impl Abort, alloc: Global, new: &Left, count: usize) -> Result<Front, Fail> {
    let input = requests(alloc, count)?;
    let wanted = replies(alloc, count)?;
    let seen = see(rt, alloc, serve_on(rt, alloc, new, &input, &wanted)?)?;
    let front = front_seen(rt, alloc, &seen, wanted.len());
    forget(seen);
    front
}

// How many requests were answered whole, by how many bytes were told.
pub(crate) fn count_answered(fronts: &[Front], told: usize) -> usize {
    let mut count: usize = 0;
    for front in fronts.iter().skip(1) {
        if front.told <= told {
            count = count.saturating_add(1);
        }
    }
    count
}

// All fronts, that of no request first.
pub(crate) fn fronts_of(rt: &impl Abort, alloc: Global, new: &Left) -> Result<Vec<Front>, Fail> {
    let mut fronts = Vec::new(alloc);
    for number in 0..=count() {
        fronts.push(front_of(rt, alloc, new, number)?)?;
    }
    Ok(fronts)
}

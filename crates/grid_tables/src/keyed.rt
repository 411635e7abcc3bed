ghost use Rattle.std.specs.Prelude.{◌≡◌, ◌==◌, ◌<◌, true, false, [], length, find, filter, map, not, IsTrue, IfOk, IfErr, IfSome, IfNone, OnOk, OnErr};
ghost use Rattle.std.specs.List.{list_any};
ghost use Rattle.std.specs.List.Sorted.{IsStrictlyIncreasing};
ghost use Rattle.std.specs.Option.{option_copied};
ghost use Rattle.std.specs.BTreeMap.{insert_entry, is_at, keys};
ghost use Rattle.std.specs.Map.{lookup};
ghost use Rattle.std.specs.Ordering.{nat_cmp};
ghost use Rattle.grid_model.specs.Rows.{IsTable, with_row};

use crate::recent::get_recent;
use crate::row::{Numbered, Row};
use std::alloc::{AllocError, Global};
use std::collections::BTreeMap;
use std::marker::Model;

/// Rows in rising order of their ids, in a tree: a row is found, put and dropped in a number of steps that grows as the
/// logarithm of theirs, and no other row is moved.
#[derive(Debug, Drop)]
pub(crate) struct Keyed<T: Numbered> {
    rows: BTreeMap<u64, T>,
}

impl<T: Numbered> Model for Keyed<T> {
    ghost use Rattle.std.specs.Prelude.{List};
    ghost use Rattle.std.specs.BTreeMap.{values};
    ghost use Rattle.grid_tables.specs.Trees.{IsByNumber};

    ghost Value = { List T };

    ghost view = { λ t. values t.rows };

    ghost invariant = { λ t. IsByNumber T.number T.row_cmp T.fits t.rows.entries };
}

impl<T: Numbered> Keyed<T> {
    /// No rows. It takes no memory.
    pub(crate) fn empty(alloc: Global) -> Keyed<T>
        ensures { result ≡ [] }
    {
        Keyed {
            rows: BTreeMap::new(alloc),
        }
    }

    /// How many rows there are.
    pub(crate) fn len(&self) -> usize
        ensures len { result ≡ length self.now }
        ensures table { IsTable T.row_cmp T.fits self.now }
    {
        self.rows.len()
    }

    /// The row with this id.
    pub(crate) fn get(&self, id: u64) -> Option<&T>
        ensures row { option_copied result ≡ find (λ r. T.number r == id) self.now }
        ensures fits { IfSome result (λ row. IsTrue (T.fits row.now)) }
    {
        get_recent(&self.rows, &id)
    }

    /// An id from 1 on that no row has, above all ids; none where 2^64 - 1 is one.
    pub(crate) fn next_id(&self) -> Option<u64>
        ensures fresh { IfSome result (λ id. list_any (λ r. T.number r == id) self.now ≡ false) }
        ensures some { IfSome result (λ id. 0 < id) }
        ensures none { IfNone result (list_any (λ r. T.number r == u64.MAX) self.now ≡ true) }
    {
        match self.rows.last_key_value() {
            Some((last, _)) => {
                let last = *last;
                if last == u64::MAX {
                    return None;
                }
                Some(last + 1)
            }
            None => Some(1),
        }
    }

    /// Whether a row has this id.
    pub(crate) fn has(&self, id: u64) -> bool
        ensures { result ≡ list_any (λ r. T.number r == id) self.now }
    {
        self.get(id).is_some()
    }
}

// The keys of a map, in order. Fails for want of memory alone.
fn keys_of<T>(alloc: Global, rows: &BTreeMap<u64, T>) -> Result<Vec<u64>, AllocError>
    ensures { IfOk result (λ ids. ids.items ≡ keys rows.now) }
{
    rows.keys().copied().collect(alloc)
}

impl<T: Numbered> Keyed<T> {
    /// The ids of the rows, in rising order. Fails for want of memory alone.
    pub(crate) fn ids(&self, alloc: Global) -> Result<Vec<u64>, AllocError>
        ensures ids { IfOk result (λ ids. ids.items ≡ map T.number self.now) }
        ensures rising { IfOk result (λ ids. IsStrictlyIncreasing ids.items) }
    {
        let ids = keys_of(alloc, &self.rows)?;
        Ok(ids)
    }
}

// Puts a row at a number, and gives the one that was there. Fails for want of memory alone, and then nothing is put, and
// it gives the row back.
fn put_at<T: Drop>(rows: &mut BTreeMap<u64, T>, number: u64, row: T) -> Result<Option<T>, T>
    ensures entries { OnOk result (rows.new.entries ≡ insert_entry nat_cmp rows.old.entries number row) }
    ensures old { IfOk result (λ old. old ≡ lookup (is_at (nat_cmp number)) rows.old.entries) }
    ensures failed { OnErr result (rows.new.entries ≡ rows.old.entries) }
    ensures back { IfErr result (λ r. r ≡ row) }
{
    match rows.insert(number, row) {
        Ok(old) => Ok(old),
        Err(refused) => {
            let (_, row) = refused.value;
            Err(row)
        }
    }
}

impl<T: Numbered + Drop> Keyed<T> {
    /// Puts a row in the place of the one with its id, which it gives, or where it belongs. Fails for want of memory
    /// alone, and then nothing is put, and it gives the row back.
    pub(crate) fn put(&mut self, row: T) -> Result<Option<T>, T>
        requires { IsTrue (T.fits row) }
        ensures put { OnOk result (self.new ≡ with_row T.row_cmp self.old row) }
        ensures replaced { IfOk result (λ old. old ≡ find (λ r. T.number r == T.number row) self.old) }
        ensures failed { OnErr result (self.new ≡ self.old) }
        ensures back { IfErr result (λ r. r ≡ row) }
    {
        put_at(&mut self.rows, row.number(), row)
    }

    /// Takes the row with this id out, where there is one.
    pub(crate) fn remove(&mut self, id: u64) -> Option<T>
        ensures left { self.new ≡ filter (λ r. not (T.number r == id)) self.old }
        ensures gone { result ≡ find (λ r. T.number r == id) self.old }
    {
        self.rows.remove(&id)
    }
}

ghost use Rattle.std.specs.Prelude.{◌≡◌, ◌<◌, ◌≤◌, ◌==◌, ◌&&◌, ℕ, Bool, true, false, [], ◌∷◌, length, find, filter, insert, map, not, None, IsTrue, IfOk, IfErr};
ghost use Rattle.std.specs.Prelude.{IfSome, IfNone, OnOk, OnErr};
ghost use Rattle.std.specs.List.{list_any};
ghost use Rattle.std.specs.List.Sorted.{IsPartitionedBy, IsSearchInRange, IsStrictlyIncreasing, IsStrictlySortedBy};
ghost use Rattle.std.specs.Ordering.{eq_by_cmp, is_eq};
ghost use Rattle.std.specs.Option.{option_copied};
ghost use Rattle.grid_model.specs.Rows.{IsTable, with_row};
ghost use Rattle.grid_tables.specs.Places.{IsPlace, Falls, StartsAt, RowsAtFront, passes};

use crate::probe::Probe;
use crate::row::{Numbered, OfItem, Row};
use grid_model::ItemKind;
use std::alloc::{AllocError, Global};
use std::marker::Model;
use std::mem::replace;

/// Rows in rising order of their keys, no two with the same one. A row is found by its key in a number of steps that
/// grows as the logarithm of theirs.
#[derive(Debug, Drop)]
pub(crate) struct Table<T: Row> {
    rows: Vec<T>,
}

impl<T: Row> Model for Table<T> {
    ghost use Rattle.std.specs.Prelude.{List};
    ghost use Rattle.grid_model.specs.Rows.{IsTable};

    ghost Value = { List T };

    ghost view = { λ t. t.rows.items };

    ghost invariant = { λ t. IsTable T.row_cmp T.fits t.rows.items };
}

/// The place of a key among rows in rising order, by a binary search.
fn place_of<T: Row, Q: Probe<T>>(rows: &[T], key: Q) -> Result<usize, usize>
    ensures within { IsSearchInRange result (length rows.now) }
    ensures place { IsStrictlySortedBy T.row_cmp rows.now → IsPlace (Q.compare key) rows.now result }
{
    rows.binary_search_by(|row| key.compare(row).reverse())
}

impl<T: Row> Table<T> {
    /// No rows. It takes no memory.
    pub(crate) fn empty(alloc: Global) -> Table<T>
        ensures { result ≡ [] }
    {
        Table {
            rows: Vec::new(alloc),
        }
    }

    /// The rows.
    pub(crate) fn as_slice(&self) -> &[T]
        ensures rows { result.now ≡ self.now }
        ensures table { IsTable T.row_cmp T.fits self.now }
    {
        self.rows.as_slice()
    }
}

impl<T: Row> Table<T> {
    /// The row with this key.
    pub(crate) fn get<Q: Probe<T>>(&self, key: Q) -> Option<&T>
        ensures row { option_copied result ≡ find (λ r. Q.is_key_of key r) self.now }
        ensures fits { IfSome result (λ row. IsTrue (T.fits row.now)) }
        ensures alone { (test : T → Bool) → list_any (λ r. Q.is_key_of key r && test r) self.now ≡ passes test (option_copied result) }
    {
        let rows = self.as_slice();
        match place_of(rows, key) {
            Ok(index) => Some(&rows[index]),
            Err(_) => None,
        }
    }

    /// Whether a row has this key.
    pub(crate) fn has<Q: Probe<T>>(&self, key: Q) -> bool
        ensures { result ≡ list_any (λ r. Q.is_key_of key r) self.now }
    {
        self.get(key).is_some()
    }
}

impl<T: Row + Drop> Table<T> {
    /// A table of one row. Fails for want of memory alone, and then gives the row back.
    pub(crate) fn of(alloc: Global, row: T) -> Result<Table<T>, T>
        requires { IsTrue (T.fits row) }
        ensures made { IfOk result (λ table. table ≡ row ∷ []) }
        ensures back { IfErr result (λ r. r ≡ row) }
    {
        let mut rows = match Vec::with_capacity(alloc, 1) {
            Ok(rows) => rows,
            Err(_) => return Err(row),
        };
        match rows.push(row) {
            Ok(()) => Ok(Table { rows }),
            Err(refused) => Err(refused.value),
        }
    }

    /// The row of a table of one.
    pub(crate) fn only(self) -> T
        requires { length self ≡ 1 }
        ensures { self ≡ result ∷ [] }
    {
        let Table { mut rows } = self;
        rows.remove(0)
    }
}

// Puts a row before another one. Fails for want of memory alone, and then nothing is put, and it gives the row back.
fn insert_at<T: Row + Drop>(rows: &mut Vec<T>, index: usize, row: T) -> Result<Option<T>, T>
    requires { index ≤ length rows.old.items }
    ensures put { OnOk result (rows.new.items ≡ insert rows.old.items index row) }
    ensures none { IfOk result (λ old. old ≡ None) }
    ensures failed { OnErr result (rows.new.items ≡ rows.old.items) }
    ensures back { IfErr result (λ r. r ≡ row) }
{
    match rows.insert(index, row) {
        Ok(()) => Ok(None),
        Err(refused) => Err(refused.value),
    }
}

impl<T: Row + Drop> Table<T> {
    /// Puts a row in the place of the one with its key, which it gives, or where it belongs. Fails for want of memory
    /// alone, and then nothing is put, and it gives the row back.
    pub(crate) fn put(&mut self, row: T) -> Result<Option<T>, T>
        requires { IsTrue (T.fits row) }
        ensures put { OnOk result (self.new ≡ with_row T.row_cmp self.old row) }
        ensures replaced { IfOk result (λ old. old ≡ find (λ r. eq_by_cmp T.row_cmp r row) self.old) }
        ensures failed { OnErr result (self.new ≡ self.old) }
        ensures back { IfErr result (λ r. r ≡ row) }
    {
        match place_of(&self.rows, &row) {
            Ok(index) => Ok(Some(replace(&mut self.rows[index], row))),
            Err(index) => insert_at(&mut self.rows, index, row),
        }
    }

    /// Takes the row with this key out, where there is one.
    pub(crate) fn remove<Q: Probe<T>>(&mut self, key: Q) -> Option<T>
        ensures left { self.new ≡ filter (λ r. not (Q.is_key_of key r)) self.old }
        ensures gone { result ≡ find (λ r. Q.is_key_of key r) self.old }
    {
        match place_of(&self.rows, key) {
            Ok(index) => Some(self.rows.remove(index)),
            Err(_) => None,
        }
    }
}

/// The ids of these rows, in their order. Fails for want of memory alone.
fn numbers_of<T: Numbered>(alloc: Global, rows: &[T]) -> Result<Vec<u64>, AllocError>
    ensures { IfOk result (λ ids. ids.items ≡ map T.number rows.now) }
{
    rows.iter().map(|row| row.number()).collect(alloc)
}

impl<T: Numbered> Table<T> {
    /// The row with the greatest id.
    pub(crate) fn last(&self) -> Option<&T>
        ensures greatest { IfSome result (λ row. (id : ℕ) → T.number row.now < id → list_any (λ r. T.number r == id) self.now ≡ false) }
        ensures there { IfSome result (λ row. list_any (λ r. T.number r == T.number row.now) self.now ≡ true) }
        ensures none { IfNone result (self.now ≡ []) }
    {
        let rows = self.as_slice();
        rows.last()
    }

    /// The ids of the rows, in rising order. Fails for want of memory alone.
    pub(crate) fn ids(&self, alloc: Global) -> Result<Vec<u64>, AllocError>
        ensures ids { IfOk result (λ ids. ids.items ≡ map T.number self.now) }
        ensures rising { IfOk result (λ ids. IsStrictlyIncreasing ids.items) }
    {
        let rows = self.as_slice();
        let ids = numbers_of(alloc, rows)?;
        Ok(ids)
    }
}

// How many rows from the front on stand before those of an item.
fn before_item<T: OfItem>(rows: &[T], kind: ItemKind, id: u64) -> usize
    ensures within { result ≤ length rows.now }
    ensures place { Falls (T.item_order kind id) rows.now → StartsAt (T.item_order kind id) rows.now result }
{
    rows.partition_point(|row| row.item_order(kind, id).is_gt())
}

// How many rows from the front on are of an item, where none stands before them.
fn first_of_item<T: OfItem>(rows: &[T], kind: ItemKind, id: u64) -> usize
    ensures within { result ≤ length rows.now }
    ensures place { IsPartitionedBy (λ r. is_eq (T.item_order kind id r)) rows.now → RowsAtFront (T.item_order kind id) rows.now result }
{
    rows.partition_point(|row| row.item_order(kind, id).is_eq())
}

impl<T: OfItem> Table<T> {
    /// The rows of an item, which stand next to one another.
    pub(crate) fn of_item(&self, kind: ItemKind, id: u64) -> &[T]
        ensures { result.now ≡ filter (λ r. T.is_of r kind id) self.now }
    {
        let rows = self.as_slice();
        let start = before_item(rows, kind, id);
        let (_, rest) = rows.split_at(start);
        let count = first_of_item(rest, kind, id);
        let (of_item, _) = rest.split_at(count);
        of_item
    }
}

ghost use Rattle.std.specs.Prelude.{◌≡◌, ◌<◌, ◌==◌, ◌&&◌, ℕ, Bool, List, true, false, [], length, find, filter, map, not, slice_get};
ghost use Rattle.std.specs.Prelude.{IsTrue, IfOk, IfSome, IfNone, OnOk, OnErr};
ghost use Rattle.std.specs.BTreeSet.{replace_key};
ghost use Rattle.std.specs.List.{list_any};
ghost use Rattle.std.specs.List.Sorted.{IsStrictlyIncreasing};
ghost use Rattle.std.specs.Ordering.{eq_by_cmp, is_eq};
ghost use Rattle.std.specs.Option.{option_copied};
ghost use Rattle.grid_model.specs.Rows.{IsTable, triple_cmp, with_row};
ghost use Rattle.grid_model.specs.Names.{same_text};
ghost use Rattle.grid_tables.specs.IndexKeys.{AreKeysOf, replaced_at};
ghost use Rattle.grid_tables.specs.Places.{passes};

use crate::grouped::{GroupKey, Grouped, InOneGroup};
use crate::groups::Groups;
use crate::index_key::{BoxedItem, IndexKey, OfRow, OwnKey};
use crate::row::{Numbered, OfItem};
use grid_model::{ItemKind, Text, TripleRow};
use sorted_list::{Front, Run, SortedList};
use std::alloc::{AllocError, Global};
use std::marker::Model;

/// Rows in rising order of their keys, and other keys of theirs in an order of their own.
#[derive(Debug, Drop)]
pub(crate) struct Indexed<T: Grouped, K: IndexKey<T>> {
    rows: Groups<T>,
    keys: SortedList<K>,
    alloc: Global,
}

impl<T: Grouped, K: IndexKey<T>> Model for Indexed<T, K> {
    ghost use Rattle.std.specs.Prelude.{List};
    ghost use Rattle.grid_tables.specs.IndexKeys.{AreKeysOf};

    ghost Value = { List T };

    ghost view = { λ t. t.rows };

    ghost invariant = { λ t. AreKeysOf K.of K.order t.rows t.keys };
}

impl<T: Grouped, K: IndexKey<T>> Indexed<T, K> {
    /// No rows. It takes no memory.
    pub(crate) fn empty(alloc: Global) -> Indexed<T, K>
        ensures { result ≡ [] }
    {
        Indexed {
            rows: Groups::empty(alloc),
            keys: SortedList::new(alloc),
            alloc,
        }
    }

    /// The keys of the rows strictly rise. It does nothing.
    pub(crate) fn in_order(&self)
        ensures { IsTable T.row_cmp T.fits self.now }
    {
        let _keys = &self.keys;
        self.rows.in_order();
    }

    /// The row with this key.
    pub(crate) fn get<Q: GroupKey<T>>(&self, key: Q) -> Option<&T>
        ensures row { option_copied result ≡ find (λ r. Q.is_key_of key r) self.now }
        ensures fits { IfSome result (λ row. IsTrue (T.fits row.now)) }
        ensures alone { (test : T → Bool) → list_any (λ r. Q.is_key_of key r && test r) self.now ≡ passes test (option_copied result) }
    {
        self.rows.get(key)
    }

    /// Whether a row has this key.
    pub(crate) fn has<Q: GroupKey<T>>(&self, key: Q) -> bool
        ensures { result ≡ list_any (λ r. Q.is_key_of key r) self.now }
    {
        self.rows.has(key)
    }

    /// How many rows there are.
    pub(crate) fn len(&self) -> usize
        ensures { result ≡ length self.now }
    {
        self.rows.len()
    }

    /// The keys with this front, in rising order.
    pub(crate) fn at<F: Front<K>>(&self, front: F) -> Run<'_, K>
        ensures keys { AreKeysOf K.of K.order (filter (λ r. is_eq (F.side front (K.of r))) self.now) result }
        ensures any { (test : K → Bool) → list_any test result ≡ list_any (λ r. is_eq (F.side front (K.of r)) && test (K.of r)) self.now }
    {
        self.keys.at(front)
    }

    /// The first key with this front.
    pub(crate) fn first<F: Front<K>>(&self, front: F) -> Option<&K>
        ensures { (keys : List K) × AreKeysOf K.of K.order (filter (λ r. is_eq (F.side front (K.of r))) self.now) keys × (option_copied result ≡ slice_get keys 0) }
    {
        self.keys.find(front)
    }

    /// Whether a row has a key with this front.
    pub(crate) fn has_at<F: Front<K>>(&self, front: F) -> bool
        ensures { result ≡ list_any (λ r. is_eq (F.side front (K.of r))) self.now }
    {
        self.keys.find(front).is_some()
    }
}

impl<T: InOneGroup, K: IndexKey<T>> Indexed<T, K> {
    /// The rows.
    pub(crate) fn as_slice(&self) -> &[T]
        ensures rows { result.now ≡ self.now }
        ensures table { IsTable T.row_cmp T.fits self.now }
    {
        self.rows.as_slice()
    }
}

impl<T: InOneGroup + Numbered, K: IndexKey<T>> Indexed<T, K> {
    /// The row with the greatest id.
    pub(crate) fn last(&self) -> Option<&T>
        ensures greatest { IfSome result (λ row. (id : ℕ) → T.number row.now < id → list_any (λ r. T.number r == id) self.now ≡ false) }
        ensures there { IfSome result (λ row. list_any (λ r. T.number r == T.number row.now) self.now ≡ true) }
        ensures none { IfNone result (self.now ≡ []) }
    {
        self.rows.last()
    }

    /// The ids of the rows, in rising order. Fails for want of memory alone.
    pub(crate) fn ids(&self, alloc: Global) -> Result<Vec<u64>, AllocError>
        ensures ids { IfOk result (λ ids. ids.items ≡ map T.number self.now) }
        ensures rising { IfOk result (λ ids. IsStrictlyIncreasing ids.items) }
    {
        self.rows.ids(alloc)
    }
}

impl<T: OfItem, K: IndexKey<T>> Indexed<T, K> {
    /// The rows of an item, which stand next to one another.
    pub(crate) fn of_item(&self, kind: ItemKind, id: u64) -> &[T]
        ensures { result.now ≡ filter (λ r. T.is_of r kind id) self.now }
    {
        self.rows.of_item(kind, id)
    }
}

// Puts a row and its key. It gives the row that was replaced where no row had its key before. Fails for want of memory
// alone, and then neither is put.
fn put_both<T: Grouped + Drop, K: IndexKey<T> + Drop>(
    rows: &mut Groups<T>,
    keys: &mut SortedList<K>,
    key: K,
    row: T,
) -> Result<Option<T>, AllocError>
    requires fits { IsTrue (T.fits row) }
    requires key { key ≡ K.of row }
    ensures put { OnOk result (rows.new ≡ with_row T.row_cmp rows.old row) }
    ensures keys { OnOk result (keys.new ≡ replace_key K.order keys.old key) }
    ensures replaced { IfOk result (λ old. old ≡ replaced_at (λ r. eq_by_cmp T.row_cmp r row) rows.old (λ k. is_eq (K.order key k)) keys.old) }
    ensures failed { OnErr result (rows.new ≡ rows.old) }
    ensures kept { OnErr result (keys.new ≡ keys.old) }
{
    keys.in_order();
    let is_new = keys.put(key)?;
    match rows.put(row) {
        Ok(old) => Ok(if is_new { old } else { None }),
        Err(row) => {
            if is_new {
                keys.remove(OfRow::new(&row));
            }
            Err(AllocError)
        }
    }
}

impl<T: Grouped + Drop, K: OwnKey<T> + Drop> Indexed<T, K> {
    /// Puts a row in the place of the one with its key, or where it belongs. Fails for want of memory alone, and then
    /// nothing is put.
    pub(crate) fn put(&mut self, row: T) -> Result<(), AllocError>
        requires { IsTrue (T.fits row) }
        ensures put { OnOk result (self.new ≡ with_row T.row_cmp self.old row) }
        ensures failed { OnErr result (self.new ≡ self.old) }
    {
        self.rows.in_order();
        let key = K::key_of(self.alloc, &row)?;
        match put_both(&mut self.rows, &mut self.keys, key, row)? {
            Some(old) => self.keys.remove(OfRow::new(&old)),
            None => {}
        }
        Ok(())
    }

    /// Drops the row with this key, where there is one.
    pub(crate) fn remove<Q: GroupKey<T>>(&mut self, key: Q)
        ensures { self.new ≡ filter (λ r. not (Q.is_key_of key r)) self.old }
    {
        self.rows.in_order();
        match self.rows.remove(key) {
            Some(row) => self.keys.remove(OfRow::new(&row)),
            None => {}
        }
    }
}

// Whether one of these triples has the attribute with the value.
fn has_value(triples: &[TripleRow], attribute: &Text, value: &Text) -> bool
    ensures { result ≡ list_any (λ t. same_text t.attribute attribute.now && same_text t.value value.now) triples.now }
{
    triples
        .iter()
        .any(|row| row.attribute == *attribute && row.value == *value)
}

impl<T: Grouped + Drop, K: IndexKey<T> + Drop> Indexed<T, K> {
    /// Puts a row that is not there where it belongs. Fails for want of memory alone, and then nothing is put.
    pub(crate) fn put_new(&mut self, row: T) -> Result<(), AllocError>
        requires fits { IsTrue (T.fits row) }
        requires absent { list_any (λ r. eq_by_cmp T.row_cmp r row) self.old ≡ false }
        ensures put { OnOk result (self.new ≡ with_row T.row_cmp self.old row) }
        ensures failed { OnErr result (self.new ≡ self.old) }
    {
        self.rows.in_order();
        let key = K::key_of(self.alloc, &row)?;
        put_both(&mut self.rows, &mut self.keys, key, row)?;
        Ok(())
    }
}

impl Indexed<TripleRow, BoxedItem> {
    /// Drops a triple, where it is there. Its attribute with its value stays the item's where another triple of the item has
    /// both.
    pub(crate) fn remove_triple(&mut self, row: &TripleRow)
        ensures { self.new ≡ filter (λ r. not (eq_by_cmp triple_cmp r row.now)) self.old }
    {
        self.rows.in_order();
        self.rows.remove(row);
        let beside = self.rows.of_item(row.kind, row.id);
        let shared = has_value(beside, &row.attribute, &row.value);
        if !shared {
            self.keys.remove(OfRow::new(row));
        }
    }
}

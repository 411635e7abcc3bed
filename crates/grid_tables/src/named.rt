ghost use Rattle.std.specs.Prelude.{◌≡◌, ◌<◌, ◌==◌, ◌&&◌, ℕ, Bool, true, false, [], length, find, filter, map, not};
ghost use Rattle.std.specs.Prelude.{IsTrue, IfOk, IfSome, IfNone, OnOk, OnErr};
ghost use Rattle.std.specs.BTreeSet.{replace_key};
ghost use Rattle.std.specs.List.{list_any};
ghost use Rattle.std.specs.List.Sorted.{IsStrictlyIncreasing};
ghost use Rattle.std.specs.Ordering.{is_eq};
ghost use Rattle.std.specs.Option.{option_copied};
ghost use Rattle.grid_model.specs.Rows.{IsTable, with_row};
ghost use Rattle.grid_tables.specs.ChildKeys.{child_cmp, child_of};
ghost use Rattle.grid_tables.specs.IndexKeys.{replaced_at};
ghost use Rattle.grid_tables.specs.Indexes.{IsIndex, place_cmp, is_placed, IsPlacedOnce};
ghost use Rattle.grid_tables.specs.Places.{passes};

use crate::child_key::{ChildIds, ChildKey};
use crate::index_key::{IndexKey, OfRow};
use crate::keyed::Keyed;
use crate::placed::Placed;
use grid_model::Text;
use sorted_list::SortedList;
use std::alloc::{AllocError, Global};
use std::marker::Model;

/// Rows by their ids, and their names in the order of parent, name and id. No two rows have one name in one parent.
#[derive(Debug, Drop)]
pub(crate) struct Named<T: Placed> {
    rows: Keyed<T>,
    keys: SortedList<ChildKey>,
    alloc: Global,
}

impl<T: Placed> Model for Named<T> {
    ghost use Rattle.std.specs.Prelude.{List};
    ghost use Rattle.grid_tables.specs.ChildKeys.{AreNamed};

    ghost Value = { List T };

    ghost view = { λ t. t.rows };

    ghost invariant = { λ t. AreNamed T.number T.parent T.name t.rows t.keys };
}

// Whether a row has the name and the parent of another one.
fn is_alike<T: Placed>(old: &T, row: &T) -> bool
    ensures { result ≡ is_eq (place_cmp T.parent T.name old.now row.now) }
{
    old.parent()
        .cmp(&row.parent())
        .then(old.name().cmp(row.name()))
        .is_eq()
}

// Whether the row with the id of another one has its name and its parent.
fn is_in_place<T: Placed>(rows: &Keyed<T>, row: &T) -> bool
    ensures { result ≡ passes (λ r. is_eq (place_cmp T.parent T.name r row.now)) (find (λ r. T.number r == T.number row.now) rows.now) }
{
    match rows.get(row.number()) {
        Some(old) => is_alike(old, row),
        None => false,
    }
}

// Puts a row and its key. It gives the row that was replaced where no row had its key before. Fails for want of memory
// alone, and then neither is put.
fn put_both<T: Placed + Drop>(
    rows: &mut Keyed<T>,
    keys: &mut SortedList<ChildKey>,
    key: ChildKey,
    row: T,
) -> Result<Option<T>, AllocError>
    requires fits { IsTrue (T.fits row) }
    requires key { key ≡ child_of T.number T.parent T.name row }
    ensures put { OnOk result (rows.new ≡ with_row T.row_cmp rows.old row) }
    ensures keys { OnOk result (keys.new ≡ replace_key child_cmp keys.old key) }
    ensures replaced { IfOk result (λ old. old ≡ replaced_at (λ r. T.number r == T.number row) rows.old (λ k. is_eq (child_cmp key k)) keys.old) }
    ensures failed { OnErr result (rows.new ≡ rows.old) }
    ensures kept { OnErr result (keys.new ≡ keys.old) }
{
    keys.in_order();
    let is_new = keys.put(key)?;
    match rows.put(row) {
        Ok(old) => Ok(if is_new { old } else { None }),
        Err(row) => {
            if is_new {
                keys.remove(OfRow::new(&row));
            }
            Err(AllocError)
        }
    }
}

impl<T: Placed> Named<T> {
    /// No rows. It takes no memory.
    pub(crate) fn empty(alloc: Global) -> Named<T>
        ensures { result ≡ [] }
    {
        Named {
            rows: Keyed::empty(alloc),
            keys: SortedList::new(alloc),
            alloc,
        }
    }

    /// How many rows there are.
    pub(crate) fn len(&self) -> usize
        ensures len { result ≡ length self.now }
        ensures table { IsTable T.row_cmp T.fits self.now }
        ensures once { IsPlacedOnce T.parent T.name self.now }
    {
        let _keys = &self.keys;
        self.rows.len()
    }

    /// The row with this id.
    pub(crate) fn get(&self, id: u64) -> Option<&T>
        ensures row { option_copied result ≡ find (λ r. T.number r == id) self.now }
        ensures fits { IfSome result (λ row. IsTrue (T.fits row.now)) }
    {
        self.rows.get(id)
    }

    /// An id from 1 on that no row has, above all ids; none where 2^64 - 1 is one.
    pub(crate) fn next_id(&self) -> Option<u64>
        ensures fresh { IfSome result (λ id. list_any (λ r. T.number r == id) self.now ≡ false) }
        ensures some { IfSome result (λ id. 0 < id) }
        ensures none { IfNone result (list_any (λ r. T.number r == u64.MAX) self.now ≡ true) }
    {
        self.rows.next_id()
    }

    /// Whether a row has this id.
    pub(crate) fn has(&self, id: u64) -> bool
        ensures { result ≡ list_any (λ r. T.number r == id) self.now }
    {
        self.rows.has(id)
    }

    /// The ids of the rows, in rising order. Fails for want of memory alone.
    pub(crate) fn ids(&self, alloc: Global) -> Result<Vec<u64>, AllocError>
        ensures ids { IfOk result (λ ids. ids.items ≡ map T.number self.now) }
        ensures rising { IfOk result (λ ids. IsStrictlyIncreasing ids.items) }
    {
        self.rows.ids(alloc)
    }

    /// The row with this name in the parent.
    pub(crate) fn find(&self, parent: u64, name: &Text) -> Option<&T>
        ensures row { option_copied result ≡ find (λ r. is_placed T.parent T.name parent name.now r) self.now }
        ensures fits { IfSome result (λ row. IsTrue (T.fits row.now)) }
        ensures alone { let placed = is_placed T.parent T.name parent name.now in (test : T → Bool)
            → list_any (λ r. placed r && test r) self.now ≡ passes test (option_copied result) }
    {
        let _count = self.rows.len();
        match self.keys.find((parent, name)) {
            Some(key) => self.rows.get(key.id),
            None => None,
        }
    }

    /// The ids of the rows in this parent, in the order of their names.
    pub(crate) fn children(&self, parent: u64) -> ChildIds<'_>
        ensures { IsIndex T.number (place_cmp T.parent T.name) (filter (λ r. T.parent r == parent) self.now) result }
    {
        let _count = self.rows.len();
        ChildIds::of(self.keys.at(parent))
    }
}

impl<T: Placed + Drop> Named<T> {
    // Puts a row that has another name or another parent than the one with its id. Fails for want of memory alone, and then
    // nothing is put.
    fn put_anew(&mut self, row: T) -> Result<(), AllocError>
        requires fits { IsTrue (T.fits row) }
        requires free { list_any (λ o. is_placed T.parent T.name (T.parent row) (T.name row) o && not (T.number o == T.number row)) self.old ≡ false }
        ensures put { OnOk result (self.new ≡ with_row T.row_cmp self.old row) }
        ensures failed { OnErr result (self.new ≡ self.old) }
    {
        let _count = self.rows.len();
        let key = ChildKey::key_of(self.alloc, &row)?;
        match put_both(&mut self.rows, &mut self.keys, key, row)? {
            Some(old) => self.keys.remove(OfRow::new(&old)),
            None => {}
        }
        Ok(())
    }

    /// Puts a row in the place of the one with its id, or where it belongs, where no other row has its name in its
    /// parent. Fails for want of memory alone, and then nothing is put.
    pub(crate) fn put(&mut self, row: T) -> Result<(), AllocError>
        requires fits { IsTrue (T.fits row) }
        requires free { list_any (λ o. is_placed T.parent T.name (T.parent row) (T.name row) o && not (T.number o == T.number row)) self.old ≡ false }
        ensures put { OnOk result (self.new ≡ with_row T.row_cmp self.old row) }
        ensures failed { OnErr result (self.new ≡ self.old) }
    {
        let _count = self.rows.len();
        if is_in_place(&self.rows, &row) {
            return match self.rows.put(row) {
                Ok(_) => Ok(()),
                Err(_) => Err(AllocError),
            };
        }
        self.put_anew(row)
    }

    /// Drops the row with this id, where there is one.
    pub(crate) fn remove(&mut self, id: u64)
        ensures { self.new ≡ filter (λ r. not (T.number r == id)) self.old }
    {
        let _count = self.rows.len();
        match self.rows.remove(id) {
            Some(row) => self.keys.remove(OfRow::new(&row)),
            None => {}
        }
    }
}

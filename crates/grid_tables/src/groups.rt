ghost use Rattle.std.specs.Prelude.{◌≡◌, ◌==◌, ◌<◌, ◌&&◌, ℕ, Bool, true, false, [], ◌∷◌, length, find, filter, map, not, None, IsTrue, IfOk, IfErr, IfSome, IfNone, OnOk, OnErr};
ghost use Rattle.std.specs.List.{list_any};
ghost use Rattle.std.specs.List.Sorted.{IsStrictlyIncreasing};
ghost use Rattle.std.specs.BTreeMap.{insert_entry, IsOrdered};
ghost use Rattle.std.specs.Option.{option_copied};
ghost use Rattle.std.specs.Ordering.{eq_by_cmp};
ghost use Rattle.grid_model.specs.Rows.{IsTable, with_row};
ghost use Rattle.grid_tables.specs.GroupLists.{group_id_cmp, list_of_group, IsPutIn, IsTakenOut, IsWithoutEmpty};
ghost use Rattle.grid_tables.specs.Places.{passes};

use crate::grouped::{GroupId, GroupKey, Grouped, InOneGroup, ONE_GROUP};
use crate::recent::get_recent;
use crate::row::{Numbered, OfItem};
use crate::table::Table;
use grid_model::ItemKind;
use std::alloc::{AllocError, Global};
use std::collections::BTreeMap;
use std::marker::Model;

/// Rows in rising order of their keys, those of one group in a list of their own: where a row is put or dropped, no row
/// of another group is moved.
#[derive(Debug, Drop)]
pub(crate) struct Groups<T: Grouped> {
    lists: BTreeMap<GroupId, Table<T>>,
    count: usize,
    alloc: Global,
}

impl<T: Grouped> Model for Groups<T> {
    ghost use Rattle.std.specs.Prelude.{List};
    ghost use Rattle.grid_tables.specs.GroupLists.{AreCounted, rows_of_lists};

    ghost Value = { List T };

    ghost view = { λ t. rows_of_lists t.lists.entries };

    ghost invariant = { λ t. AreCounted T.group T.row_cmp T.fits t.lists.entries t.count };
}

impl<T: Grouped> Groups<T> {
    /// No rows. It takes no memory.
    pub(crate) fn empty(alloc: Global) -> Groups<T>
        ensures { result ≡ [] }
    {
        Groups {
            lists: BTreeMap::new(alloc),
            count: 0,
            alloc,
        }
    }

    /// How many rows there are.
    pub(crate) fn len(&self) -> usize
        ensures { result ≡ length self.now }
    {
        self.count
    }

    /// The keys of the rows strictly rise. It does nothing.
    pub(crate) fn in_order(&self)
        ensures { IsTable T.row_cmp T.fits self.now }
    {
        let _lists = &self.lists;
    }

    /// The row with this key.
    pub(crate) fn get<Q: GroupKey<T>>(&self, key: Q) -> Option<&T>
        ensures row { option_copied result ≡ find (λ r. Q.is_key_of key r) self.now }
        ensures fits { IfSome result (λ row. IsTrue (T.fits row.now)) }
        ensures alone { (test : T → Bool) → list_any (λ r. Q.is_key_of key r && test r) self.now ≡ passes test (option_copied result) }
    {
        match get_recent(&self.lists, &key.row_group()) {
            Some(rows) => rows.get(key),
            None => None,
        }
    }

    /// Whether a row has this key.
    pub(crate) fn has<Q: GroupKey<T>>(&self, key: Q) -> bool
        ensures { result ≡ list_any (λ r. Q.is_key_of key r) self.now }
    {
        self.get(key).is_some()
    }
}

impl<T: InOneGroup> Groups<T> {
    /// The rows.
    pub(crate) fn as_slice(&self) -> &[T]
        ensures rows { result.now ≡ self.now }
        ensures table { IsTable T.row_cmp T.fits self.now }
    {
        match self.lists.get(&ONE_GROUP) {
            Some(rows) => rows.as_slice(),
            None => &[],
        }
    }
}

impl<T: InOneGroup + Numbered> Groups<T> {
    /// The row with the greatest id.
    pub(crate) fn last(&self) -> Option<&T>
        ensures greatest { IfSome result (λ row. (id : ℕ) → T.number row.now < id → list_any (λ r. T.number r == id) self.now ≡ false) }
        ensures there { IfSome result (λ row. list_any (λ r. T.number r == T.number row.now) self.now ≡ true) }
        ensures none { IfNone result (self.now ≡ []) }
    {
        match self.lists.get(&ONE_GROUP) {
            Some(rows) => rows.last(),
            None => None,
        }
    }

    /// The ids of the rows, in rising order. Fails for want of memory alone.
    pub(crate) fn ids(&self, alloc: Global) -> Result<Vec<u64>, AllocError>
        ensures ids { IfOk result (λ ids. ids.items ≡ map T.number self.now) }
        ensures rising { IfOk result (λ ids. IsStrictlyIncreasing ids.items) }
    {
        match self.lists.get(&ONE_GROUP) {
            Some(rows) => rows.ids(alloc),
            None => Ok(Vec::new(alloc)),
        }
    }
}

impl<T: OfItem> Groups<T> {
    /// The rows of an item, which stand next to one another.
    pub(crate) fn of_item(&self, kind: ItemKind, id: u64) -> &[T]
        ensures { result.now ≡ filter (λ r. T.is_of r kind id) self.now }
    {
        match get_recent(&self.lists, &T::item_group(kind, id)) {
            Some(rows) => rows.of_item(kind, id),
            None => &[],
        }
    }
}

// Puts a row in a new list, where its group has none. Fails for want of memory alone, and then nothing is put.
fn begin<T: Grouped + Drop>(
    alloc: Global,
    lists: &mut BTreeMap<GroupId, Table<T>>,
    row: T,
) -> Result<(), T>
    requires { IsTrue (T.fits row) }
    ensures put { OnOk result (lists.new.entries ≡ insert_entry group_id_cmp lists.old.entries (T.group row) (row ∷ [])) }
    ensures failed { OnErr result (lists.new.entries ≡ lists.old.entries) }
    ensures back { IfErr result (λ r. r ≡ row) }
    ensures rising { IsOrdered group_id_cmp lists.new }
{
    let _count = lists.len();
    let group = row.group();
    let rows = match Table::of(alloc, row) {
        Ok(rows) => rows,
        Err(row) => return Err(row),
    };
    match lists.insert(group, rows) {
        Ok(_) => Ok(()),
        Err(refused) => {
            let (_, rows) = refused.value;
            Err(rows.only())
        }
    }
}

// Puts a row in the list of its group. Fails for want of memory alone, and then nothing is put.
fn put_in<T: Grouped + Drop>(
    alloc: Global,
    lists: &mut BTreeMap<GroupId, Table<T>>,
    row: T,
) -> Result<Option<T>, T>
    requires { IsTrue (T.fits row) }
    ensures put { OnOk result (IsPutIn T.row_cmp (T.group row) row lists.old.entries lists.new.entries) }
    ensures replaced { IfOk result (λ old. old ≡ find (λ r. eq_by_cmp T.row_cmp r row) (list_of_group (T.group row) lists.old.entries)) }
    ensures failed { OnErr result (lists.new.entries ≡ lists.old.entries) }
    ensures back { IfErr result (λ r. r ≡ row) }
    ensures rising { IsOrdered group_id_cmp lists.new }
{
    match lists.get_mut(&row.group()) {
        Some(rows) => rows.put(row),
        None => match begin(alloc, lists, row) {
            Ok(()) => Ok(None),
            Err(row) => Err(row),
        },
    }
}

// Takes the row with this key out of its list.
fn take_out<T: Grouped + Drop, Q: GroupKey<T>>(
    lists: &mut BTreeMap<GroupId, Table<T>>,
    key: Q,
) -> Option<T>
    ensures taken { IsTakenOut (Q.is_key_of key) (Q.leads_to key) lists.old.entries lists.new.entries }
    ensures gone { result ≡ find (λ r. Q.is_key_of key r) (list_of_group (Q.leads_to key) lists.old.entries) }
    ensures rising { IsOrdered group_id_cmp lists.new }
{
    match lists.get_mut(&key.row_group()) {
        Some(rows) => rows.remove(key),
        None => None,
    }
}

// Whether a group has a list in which nothing stands.
fn has_empty_list<T: Grouped>(lists: &BTreeMap<GroupId, Table<T>>, group: GroupId) -> bool
    ensures { IsTrue result → list_of_group group lists.now.entries ≡ [] }
{
    match lists.get(&group) {
        Some(rows) => rows.as_slice().is_empty(),
        None => false,
    }
}

// Drops the list of a group in which nothing stands.
fn drop_empty<T: Grouped + Drop>(lists: &mut BTreeMap<GroupId, Table<T>>, group: GroupId)
    ensures dropped { IsWithoutEmpty group lists.old.entries lists.new.entries }
    ensures rising { IsOrdered group_id_cmp lists.new }
{
    let _count = lists.len();
    if has_empty_list(lists, group) {
        lists.remove(&group);
    }
}

impl<T: Grouped + Drop> Groups<T> {
    /// Puts a row in the place of the one with its key, which it gives, or where it belongs. Fails for want of memory
    /// alone, and then nothing is put, and it gives the row back.
    pub(crate) fn put(&mut self, row: T) -> Result<Option<T>, T>
        requires { IsTrue (T.fits row) }
        ensures put { OnOk result (self.new ≡ with_row T.row_cmp self.old row) }
        ensures replaced { IfOk result (λ old. old ≡ find (λ r. eq_by_cmp T.row_cmp r row) self.old) }
        ensures failed { OnErr result (self.new ≡ self.old) }
        ensures back { IfErr result (λ r. r ≡ row) }
    {
        if self.count == usize::MAX {
            return Err(row);
        }
        match put_in(self.alloc, &mut self.lists, row) {
            Ok(Some(old)) => Ok(Some(old)),
            Ok(None) => {
                self.count += 1;
                Ok(None)
            }
            Err(row) => Err(row),
        }
    }

    /// Takes the row with this key out, where there is one, and the list of its group with its last one.
    pub(crate) fn remove<Q: GroupKey<T>>(&mut self, key: Q) -> Option<T>
        ensures left { self.new ≡ filter (λ r. not (Q.is_key_of key r)) self.old }
        ensures gone { result ≡ find (λ r. Q.is_key_of key r) self.old }
    {
        match take_out(&mut self.lists, key) {
            Some(row) => {
                drop_empty(&mut self.lists, key.row_group());
                self.count -= 1;
                Some(row)
            }
            None => None,
        }
    }
}

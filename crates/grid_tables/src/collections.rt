ghost use Rattle.std.specs.Prelude.{◌≡◌, ◌==◌, ◌&&◌, not, filter, Ok, Err, IsOk, OnOk, OnErr, IfErr, IfSome, IsTrue};
ghost use Rattle.std.specs.List.{list_any};
ghost use Rattle.std.specs.Option.{option_copied};
ghost use Rattle.grid_model.specs.Applying.{apply, lies_in, is_child, is_child_named, is_object_named, free_for_collection};
ghost use Rattle.grid_model.specs.Applying.{collection_fits, is_empty_collection, may_drop_collection};
ghost use Rattle.grid_model.specs.Rows.{has_collection, collection, is_named_collection};
ghost use Rattle.grid_tables.specs.declared.error.TableError.TheVariants.{BadDelta, Memory};

use crate::kinds::is_name;
use crate::{ChildIds, TableError, Tables};
use grid_model::{CollectionRow, Delta, ItemKind, Text};

impl Tables {
    // Whether there is a collection with this id.
    pub(crate) fn has_collection(&self, id: u64) -> bool
        ensures { result ≡ has_collection self.now id }
    {
        self.collections.has(id)
    }

    /// The collection with this id, whose name is one but for `/`. It takes no memory.
    pub fn collection(&self, id: u64) -> Option<&CollectionRow>
        ensures row { option_copied result ≡ collection self.now id }
        ensures named { IfSome result (λ row. IsTrue (is_named_collection row.now)) }
    {
        self.collections.get(id)
    }

    // Whether a collection is the upper one or lies below it. No way up is longer than there are collections.
    fn lies_in(&self, upper: u64, id: u64) -> bool
        ensures { result ≡ lies_in self.now upper id }
    {
        let mut current = id;
        for _step in 0..self.collections.len() {
            if current == upper {
                return true;
            }
            if current == 0 {
                return false;
            }
            match self.collection(current) {
                Some(row) => current = row.parent,
                None => return false,
            }
        }
        false
    }

    // Whether a collection but that of this id has the name in the parent.
    fn is_other_collection_named(&self, id: u64, parent: u64, name: &Text) -> bool
        ensures { result ≡ list_any (λ o. not (o.id == id) && is_child_named parent name.now o) self.now.collections }
    {
        match self.collections.find(parent, name) {
            Some(row) => is_other_child(row, id),
            None => false,
        }
    }

    // Whether an object has the name in the parent.
    fn has_object_named(&self, parent: u64, name: &Text) -> bool
        ensures { result ≡ list_any (λ o. is_object_named parent name.now o) self.now.objects }
    {
        self.objects.find(parent, name).is_some()
    }

    // Whether nothing but the collection of this id has the name in the parent.
    fn is_free_for_collection(&self, id: u64, parent: u64, name: &Text) -> bool
        ensures { result ≡ free_for_collection self.now id parent name.now }
    {
        !self.is_other_collection_named(id, parent, name) && !self.has_object_named(parent, name)
    }

    // Whether it is `/`, or has its name alone in a parent that is not below it.
    fn collection_fits(&self, row: &CollectionRow) -> bool
        ensures { result ≡ collection_fits self.now row.now }
    {
        if row.id == 0 {
            return row.parent == 0 && row.name.as_slice().is_empty();
        }
        self.has_collection(row.parent)
            && !self.lies_in(row.id, row.parent)
            && is_name(&row.name)
            && self.is_free_for_collection(row.id, row.parent, &row.name)
    }

    // Whether a collection lies in this one.
    fn has_child(&self, id: u64) -> bool
        ensures { result ≡ list_any (λ r. is_child id r) self.now.collections }
    {
        has_some_id(self.collections.children(id))
    }

    // Whether an object lies in the collection.
    fn has_object_in(&self, id: u64) -> bool
        ensures { result ≡ list_any (λ r. r.collection == id) self.now.objects }
    {
        !self.objects.children(id).is_empty()
    }

    /// Whether no collection and no object lies in the collection with this id; of `/` it counts what is in it, and not
    /// itself. It takes no memory, and looks at no other row than at the first two in it.
    pub fn is_empty_collection(&self, id: u64) -> bool
        ensures { result ≡ is_empty_collection self.now id }
    {
        !self.has_child(id) && !self.has_object_in(id)
    }

    // Whether it is there and nothing is in it or said of it.
    fn may_drop_collection(&self, id: u64) -> bool
        ensures { result ≡ may_drop_collection self.now id }
    {
        self.has_collection(id)
            && self.is_empty_collection(id)
            && !self.is_told_of(ItemKind::Collection, id)
    }

    /// Applies delta 5.
    pub(crate) fn apply_collection(&mut self, row: CollectionRow) -> Result<(), TableError>
        ensures applied { OnOk result (apply self.old (Delta.Collection row) ≡ Ok self.new) }
        ensures refused { IfErr result (λ error. (cause : _) → error ≡ BadDelta cause → apply self.old (Delta.Collection row) ≡ Err cause) }
        ensures memory { result ≡ Err Memory → IsOk (apply self.old (Delta.Collection row)) }
        ensures unchanged { OnErr result (self.new ≡ self.old) }
    {
        let _count = self.collections.len();
        if !self.collection_fits(&row) {
            return Err(TableError::BadDelta { cause: 5 });
        }
        self.collections.put(row)?;
        Ok(())
    }

    /// Applies delta 6.
    pub(crate) fn apply_no_collection(&mut self, id: u64) -> Result<(), TableError>
        ensures applied { OnOk result (apply self.old (Delta.NoCollection id) ≡ Ok self.new) }
        ensures refused { IfErr result (λ error. (cause : _) → error ≡ BadDelta cause → apply self.old (Delta.NoCollection id) ≡ Err cause) }
        ensures memory { result ≡ Err Memory → IsOk (apply self.old (Delta.NoCollection id)) }
        ensures unchanged { OnErr result (self.new ≡ self.old) }
    {
        if !self.may_drop_collection(id) {
            return Err(TableError::BadDelta { cause: 6 });
        }
        self.collections.remove(id);
        Ok(())
    }
}

/// Whether it is neither the collection of this id nor `/`.
fn is_other_child(row: &CollectionRow, id: u64) -> bool
    ensures { result ≡ not (row.now.id == id) && not (row.now.id == 0) }
{
    row.id != id && row.id != 0
}

/// Whether one of the ids is not that of `/`.
fn has_some_id(ids: ChildIds<'_>) -> bool
    ensures { result ≡ list_any (λ id. not (id == 0)) ids.entry }
{
    for id in ids {
        if id != 0 {
            return true;
        }
    }
    false
}

ghost use Rattle.std.specs.Prelude.{◌≡◌, ◌==◌, ◌&&◌, not, filter, Ok, Err, IsOk, OnOk, OnErr, IfErr, IfSome, IsTrue};
ghost use Rattle.std.specs.List.{list_any};
ghost use Rattle.std.specs.Option.{option_copied};
ghost use Rattle.grid_model.specs.Applying.{apply, is_child_named, is_object_named, free_for_object, object_fits, may_drop_object};
ghost use Rattle.grid_model.specs.Rows.{has_object, object, is_named_object};
ghost use Rattle.grid_tables.specs.declared.error.TableError.TheVariants.{BadDelta, Memory};

use crate::kinds::is_name;
use crate::{TableError, Tables};
use grid_model::{Delta, ItemKind, ObjectRow, Text};

impl Tables {
    // Whether there is an object with this id.
    pub(crate) fn has_object(&self, id: u64) -> bool
        ensures { result ≡ has_object self.now id }
    {
        self.objects.has(id)
    }

    /// The object with this id, whose name is one. It takes no memory.
    pub fn object(&self, id: u64) -> Option<&ObjectRow>
        ensures row { option_copied result ≡ object self.now id }
        ensures named { IfSome result (λ row. IsTrue (is_named_object row.now)) }
    {
        self.objects.get(id)
    }

    // Whether a collection has the name in the parent.
    fn has_collection_named(&self, parent: u64, name: &Text) -> bool
        ensures { result ≡ list_any (λ o. is_child_named parent name.now o) self.now.collections }
    {
        match self.collections.find(parent, name) {
            Some(row) => row.id != 0,
            None => false,
        }
    }

    // Whether an object but that of this id has the name in the parent.
    fn is_other_object_named(&self, id: u64, parent: u64, name: &Text) -> bool
        ensures { result ≡ list_any (λ o. not (o.id == id) && is_object_named parent name.now o) self.now.objects }
    {
        match self.objects.find(parent, name) {
            Some(row) => row.id != id,
            None => false,
        }
    }

    // Whether nothing but the object of this id has the name in the parent.
    fn is_free_for_object(&self, id: u64, parent: u64, name: &Text) -> bool
        ensures { result ≡ free_for_object self.now id parent name.now }
    {
        !self.has_collection_named(parent, name) && !self.is_other_object_named(id, parent, name)
    }

    // Whether it has its name alone in a collection that is there.
    fn object_fits(&self, row: &ObjectRow) -> bool
        ensures { result ≡ object_fits self.now row.now }
    {
        self.has_collection(row.collection)
            && is_name(&row.name)
            && self.is_free_for_object(row.id, row.collection, &row.name)
    }

    // Whether an object has a replica.
    fn has_replica_of(&self, id: u64) -> bool
        ensures { result ≡ list_any (λ r. r.object == id) self.now.replicas }
    {
        !self.replicas.of_object(id).is_empty()
    }

    // Whether it is there and has no replica, and nothing is said of it.
    fn may_drop_object(&self, id: u64) -> bool
        ensures { result ≡ may_drop_object self.now id }
    {
        self.has_object(id) && !self.has_replica_of(id) && !self.is_told_of(ItemKind::Object, id)
    }

    /// Applies delta 7.
    pub(crate) fn apply_object(&mut self, row: ObjectRow) -> Result<(), TableError>
        ensures applied { OnOk result (apply self.old (Delta.Object row) ≡ Ok self.new) }
        ensures refused { IfErr result (λ error. (cause : _) → error ≡ BadDelta cause → apply self.old (Delta.Object row) ≡ Err cause) }
        ensures memory { result ≡ Err Memory → IsOk (apply self.old (Delta.Object row)) }
        ensures unchanged { OnErr result (self.new ≡ self.old) }
    {
        if !self.object_fits(&row) {
            return Err(TableError::BadDelta { cause: 7 });
        }
        self.objects.put(row)?;
        Ok(())
    }

    /// Applies delta 8.
    pub(crate) fn apply_no_object(&mut self, id: u64) -> Result<(), TableError>
        ensures applied { OnOk result (apply self.old (Delta.NoObject id) ≡ Ok self.new) }
        ensures refused { IfErr result (λ error. (cause : _) → error ≡ BadDelta cause → apply self.old (Delta.NoObject id) ≡ Err cause) }
        ensures memory { result ≡ Err Memory → IsOk (apply self.old (Delta.NoObject id)) }
        ensures unchanged { OnErr result (self.new ≡ self.old) }
    {
        if !self.may_drop_object(id) {
            return Err(TableError::BadDelta { cause: 8 });
        }
        self.objects.remove(id);
        Ok(())
    }
}

ghost use Rattle.std.specs.Prelude.{◌≡◌, ◌==◌, ◌&&◌, not, Ok, Err, IsOk, OnOk, OnErr, IfErr};
ghost use Rattle.std.specs.List.{list_any};
ghost use Rattle.std.specs.Option.{option_copied};
ghost use Rattle.grid_model.specs.Applying.{apply, stands_in, slot_fits, is_node, parent_fits, same_kind, resource_fits};
ghost use Rattle.grid_model.specs.Names.{same_text};
ghost use Rattle.grid_model.specs.Rows.{has_resource, resource};
ghost use Rattle.grid_tables.specs.declared.error.TableError.TheVariants.{BadDelta, Memory};

use crate::index_key::NamedId;
use crate::kinds::{is_name, is_same_kind, is_storage};
use crate::{TableError, Tables};
use grid_model::{Delta, ResourceKind, ResourceRow, Text};
use sorted_list::Run;

impl Tables {
    // Whether there is a resource with this id.
    pub(crate) fn has_resource(&self, id: u64) -> bool
        ensures { result ≡ has_resource self.now id }
    {
        self.resources.has(id)
    }

    /// The resource with this id. It takes no memory.
    pub fn resource(&self, id: u32) -> Option<&ResourceRow>
        ensures { option_copied result ≡ resource self.now id }
    {
        self.resources.get(u64::from(id))
    }

    // Whether a resource is the upper one or stands below it. No way up is longer than there are resources.
    fn stands_in(&self, upper: u32, id: u32) -> bool
        ensures { result ≡ stands_in self.now upper id }
    {
        let mut current = id;
        for _step in 0..self.resources.as_slice().len() {
            if current == upper {
                return true;
            }
            match self.resource(current) {
                Some(row) => current = row.parent,
                None => return false,
            }
        }
        false
    }

    // Whether a resource but that of this id has the name.
    fn is_other_resource_named(&self, id: u32, name: &Text) -> bool
        ensures { result ≡ list_any (λ o. not (o.id == id) && same_text o.name name.now) self.now.resources }
    {
        has_other_id(self.resources.at(name), id)
    }

    // Whether the resource of this id has another kind.
    fn is_of_another_kind(&self, id: u32, kind: ResourceKind) -> bool
        ensures { result ≡ list_any (λ o. (o.id == id) && not (same_kind o.kind kind)) self.now.resources }
    {
        match self.resources.get(u64::from(id)) {
            Some(row) => !is_same_kind(row.kind, kind),
            None => false,
        }
    }

    // Whether a leaf is at the slot of a store, and what is no leaf at slot 0.
    fn slot_fits(&self, kind: ResourceKind, slot: u8) -> bool
        ensures { result ≡ slot_fits self.now kind slot }
    {
        if is_storage(kind) {
            slot < self.stores
        } else {
            slot == 0
        }
    }

    // Whether there is a resource with this id that is no leaf.
    fn is_node(&self, id: u32) -> bool
        ensures { result ≡ is_node self.now id }
    {
        match self.resources.get(u64::from(id)) {
            Some(row) => !is_storage(row.kind),
            None => false,
        }
    }

    // Whether another child of the parent has the place.
    fn is_place_of_another(&self, row: &ResourceRow) -> bool
        ensures { result ≡ list_any (λ o. not (o.id == row.now.id) && (o.parent == row.now.parent) && (o.place == row.now.place)) self.now.resources }
    {
        self.resources.as_slice().iter().any(|other| {
            other.id != row.id && other.parent == row.parent && other.place == row.place
        })
    }

    // Whether it has the place 0 and no parent, or a place for itself in a parent that is no leaf and not below it.
    fn parent_fits(&self, row: &ResourceRow) -> bool
        ensures { result ≡ parent_fits self.now row.now }
    {
        if row.parent == 0 {
            return row.place == 0;
        }
        self.is_node(row.parent)
            && !self.stands_in(row.id, row.parent)
            && !self.is_place_of_another(row)
    }

    // Whether its id is not 0, no other resource has its name, the row that it replaces has its kind, and slot and parent fit.
    fn resource_fits(&self, row: &ResourceRow) -> bool
        ensures { result ≡ resource_fits self.now row.now }
    {
        0 < row.id
            && is_name(&row.name)
            && !self.is_other_resource_named(row.id, &row.name)
            && !self.is_of_another_kind(row.id, row.kind)
            && self.slot_fits(row.kind, row.slot)
            && self.parent_fits(row)
    }

    /// Applies delta 15.
    pub(crate) fn apply_resource(&mut self, row: ResourceRow) -> Result<(), TableError>
        ensures applied { OnOk result (apply self.old (Delta.Resource row) ≡ Ok self.new) }
        ensures refused { IfErr result (λ error. (cause : _) → error ≡ BadDelta cause → apply self.old (Delta.Resource row) ≡ Err cause) }
        ensures memory { result ≡ Err Memory → IsOk (apply self.old (Delta.Resource row)) }
        ensures unchanged { OnErr result (self.new ≡ self.old) }
    {
        if !self.resource_fits(&row) {
            return Err(TableError::BadDelta { cause: 15 });
        }
        self.resources.put(row)?;
        Ok(())
    }
}

/// Whether one of the keys has another id.
fn has_other_id(keys: Run<'_, NamedId>, id: u32) -> bool
    ensures { result ≡ list_any (λ k. not (k.id == id)) keys.entry }
{
    for key in keys {
        if key.id != id {
            return true;
        }
    }
    false
}

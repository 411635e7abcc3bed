//! Collections, objects and resources of the plain rows.

use super::changes::{Collection, Object, Resource, is_name};
use super::plain::{Plain, remove_at};
use grid_model::{ItemKind, ResourceKind};
use std::alloc::AllocError;

/// More steps than there are rows.
const STEPS: u32 = 50;

impl Plain {
    fn place_of_collection(&self, id: u64) -> Option<usize> {
        for (place, row) in self.collections.iter().enumerate() {
            if row.id == id {
                return Some(place);
            }
        }
        None
    }

    pub(crate) fn collection(&self, id: u64) -> Option<Collection> {
        self.collections.get(self.place_of_collection(id)?).copied()
    }

    fn place_of_object(&self, id: u64) -> Option<usize> {
        for (place, row) in self.objects.iter().enumerate() {
            if row.id == id {
                return Some(place);
            }
        }
        None
    }

    pub(crate) fn object(&self, id: u64) -> Option<Object> {
        self.objects.get(self.place_of_object(id)?).copied()
    }

    fn place_of_resource(&self, id: u32) -> Option<usize> {
        for (place, row) in self.resources.iter().enumerate() {
            if row.id == id {
                return Some(place);
            }
        }
        None
    }

    pub(crate) fn resource(&self, id: u32) -> Option<Resource> {
        self.resources.get(self.place_of_resource(id)?).copied()
    }

    // the item that has this name in a collection
    fn item_named(&self, parent: u64, name: u8) -> Option<(ItemKind, u64)> {
        for row in &self.collections {
            if row.id != 0 && row.parent == parent && row.name == name {
                return Some((ItemKind::Collection, row.id));
            }
        }
        for row in &self.objects {
            if row.collection == parent && row.name == name {
                return Some((ItemKind::Object, row.id));
            }
        }
        None
    }

    fn is_name_left(&self, parent: u64, name: u8, kind: ItemKind, id: u64) -> bool {
        match self.item_named(parent, name) {
            Some((other_kind, other)) => other_kind == kind && other == id,
            None => true,
        }
    }

    fn is_at_or_below(&self, id: u64, upper: u64) -> bool {
        let mut current = id;
        for _step in 0..STEPS {
            if current == upper {
                return true;
            }
            match self.collection(current) {
                Some(row) => current = row.parent,
                None => return false,
            }
        }
        false
    }

    pub(crate) fn collection_fits(&self, row: Collection) -> bool {
        if row.id == 0 {
            return row.parent == 0 && row.name == 0;
        }
        is_name(row.name)
            && self.collection(row.parent).is_some()
            && !self.is_at_or_below(row.parent, row.id)
            && self.is_name_left(row.parent, row.name, ItemKind::Collection, row.id)
    }

    pub(crate) fn put_collection(&mut self, row: Collection) -> Result<(), AllocError> {
        self.drop_collection(row.id);
        self.collections.push(row)?;
        Ok(())
    }

    pub(crate) fn drop_collection(&mut self, id: u64) {
        let place = self.place_of_collection(id);
        remove_at(&mut self.collections, place);
    }

    fn holds_items(&self, id: u64) -> bool {
        for row in &self.collections {
            if row.id != 0 && row.parent == id {
                return true;
            }
        }
        for row in &self.objects {
            if row.collection == id {
                return true;
            }
        }
        false
    }

    pub(crate) fn may_drop_collection(&self, id: u64) -> bool {
        self.collection(id).is_some()
            && !self.holds_items(id)
            && !self.is_marked(ItemKind::Collection, id)
    }

    pub(crate) fn object_fits(&self, row: Object) -> bool {
        is_name(row.name)
            && self.collection(row.collection).is_some()
            && self.is_name_left(row.collection, row.name, ItemKind::Object, row.id)
    }

    pub(crate) fn put_object(&mut self, row: Object) -> Result<(), AllocError> {
        self.drop_object(row.id);
        self.objects.push(row)?;
        Ok(())
    }

    pub(crate) fn drop_object(&mut self, id: u64) {
        let place = self.place_of_object(id);
        remove_at(&mut self.objects, place);
    }

    fn has_replicas(&self, id: u64) -> bool {
        for row in &self.replicas {
            if row.object == id {
                return true;
            }
        }
        false
    }

    pub(crate) fn may_drop_object(&self, id: u64) -> bool {
        self.object(id).is_some() && !self.has_replicas(id) && !self.is_marked(ItemKind::Object, id)
    }

    fn resource_stands_below(&self, id: u32, upper: u32) -> bool {
        let mut current = id;
        for _step in 0..STEPS {
            if current == upper {
                return true;
            }
            match self.resource(current) {
                Some(row) => current = row.parent,
                None => return false,
            }
        }
        false
    }

    fn is_resource_taken(&self, row: Resource) -> bool {
        for other in &self.resources {
            if other.id != row.id && other.name == row.name {
                return true;
            }
            if other.id == row.id && other.kind != row.kind {
                return true;
            }
        }
        false
    }

    fn is_place_taken(&self, row: Resource) -> bool {
        for other in &self.resources {
            if other.id != row.id && other.parent == row.parent && other.place == row.place {
                return true;
            }
        }
        false
    }

    pub(crate) fn has_leaf(&self, id: u32) -> bool {
        match self.resource(id) {
            Some(row) => row.kind == ResourceKind::Storage,
            None => false,
        }
    }

    fn slot_fits(&self, row: Resource) -> bool {
        if row.kind == ResourceKind::Storage {
            return row.slot < self.stores;
        }
        row.slot == 0
    }

    fn parent_fits(&self, row: Resource) -> bool {
        if row.parent == 0 {
            return row.place == 0;
        }
        self.resource(row.parent).is_some()
            && !self.has_leaf(row.parent)
            && !self.resource_stands_below(row.parent, row.id)
            && !self.is_place_taken(row)
    }

    pub(crate) fn resource_fits(&self, row: Resource) -> bool {
        row.id != 0
            && is_name(row.name)
            && !self.is_resource_taken(row)
            && self.slot_fits(row)
            && self.parent_fits(row)
    }

    pub(crate) fn put_resource(&mut self, row: Resource) -> Result<(), AllocError> {
        let place = self.place_of_resource(row.id);
        remove_at(&mut self.resources, place);
        self.resources.push(row)?;
        Ok(())
    }
}

//! What belongs to items: replicas, orphans, metadata and access of the plain rows.

use super::changes::{Replica, Triple};
use super::plain::{Plain, remove_at};
use grid_model::{EntryRow, ItemKind, Level, OrphanRow};
use std::alloc::AllocError;

impl Plain {
    pub(crate) fn has_item(&self, kind: ItemKind, id: u64) -> bool {
        match kind {
            ItemKind::Object => self.object(id).is_some(),
            ItemKind::Collection => self.collection(id).is_some(),
            ItemKind::Resource => self.has_resource(id),
            ItemKind::User => self.has_someone(id),
        }
    }

    fn has_resource(&self, id: u64) -> bool {
        for row in &self.resources {
            if u64::from(row.id) == id {
                return true;
            }
        }
        false
    }

    fn has_someone(&self, id: u64) -> bool {
        for row in &self.users {
            if u64::from(row.id) == id {
                return true;
            }
        }
        false
    }

    /// Whether the item has metadata or gives access.
    pub(crate) fn is_marked(&self, kind: ItemKind, id: u64) -> bool {
        for row in &self.triples {
            if row.kind == kind && row.id == id {
                return true;
            }
        }
        for row in &self.entries {
            if row.kind == kind && row.id == id {
                return true;
            }
        }
        false
    }

    fn place_of_replica(&self, object: u64, number: u32) -> Option<usize> {
        for (place, row) in self.replicas.iter().enumerate() {
            if row.object == object && row.number == number {
                return Some(place);
            }
        }
        None
    }

    pub(crate) fn replica_at(&self, object: u64, number: u32) -> Option<Replica> {
        self.replicas
            .get(self.place_of_replica(object, number)?)
            .copied()
    }

    pub(crate) fn has_replica(&self, object: u64, number: u32) -> bool {
        self.place_of_replica(object, number).is_some()
    }

    // whether a replica but that of this object and number is in its way
    fn is_replica_taken(&self, row: Replica) -> bool {
        for other in &self.replicas {
            let is_itself = other.object == row.object && other.number == row.number;
            if !is_itself && other.object == row.object && other.leaf == row.leaf {
                return true;
            }
            if !is_itself && other.vault == row.vault {
                return true;
            }
        }
        false
    }

    fn is_vault_drawn(&self, vault: u64) -> bool {
        0 < vault && vault < self.next_vault && !self.has_orphan(vault)
    }

    pub(crate) fn replica_fits(&self, row: Replica) -> bool {
        self.object(row.object).is_some()
            && self.has_leaf(row.leaf)
            && self.is_vault_drawn(row.vault)
            && !self.is_replica_taken(row)
    }

    pub(crate) fn put_replica(&mut self, row: Replica) -> Result<(), AllocError> {
        self.drop_replica(row.object, row.number);
        self.replicas.push(row)?;
        Ok(())
    }

    pub(crate) fn drop_replica(&mut self, object: u64, number: u32) {
        let place = self.place_of_replica(object, number);
        remove_at(&mut self.replicas, place);
    }

    fn place_of_orphan(&self, vault: u64) -> Option<usize> {
        for (place, row) in self.orphans.iter().enumerate() {
            if row.vault == vault {
                return Some(place);
            }
        }
        None
    }

    pub(crate) fn slot_of_orphan(&self, vault: u64) -> Option<u8> {
        Some(self.orphans.get(self.place_of_orphan(vault)?)?.slot)
    }

    pub(crate) fn drop_orphan(&mut self, vault: u64) {
        let place = self.place_of_orphan(vault);
        remove_at(&mut self.orphans, place);
    }

    pub(crate) fn has_orphan(&self, vault: u64) -> bool {
        self.place_of_orphan(vault).is_some()
    }

    fn is_vault_of_replica(&self, vault: u64) -> bool {
        for row in &self.replicas {
            if row.vault == vault {
                return true;
            }
        }
        false
    }

    pub(crate) fn orphan_fits(&self, row: OrphanRow) -> bool {
        self.is_vault_drawn(row.vault)
            && !self.is_vault_of_replica(row.vault)
            && row.slot < self.stores
    }

    fn place_of_triple(&self, row: Triple) -> Option<usize> {
        for (place, other) in self.triples.iter().enumerate() {
            if other.kind == row.kind && other.id == row.id && other.value == row.value {
                return Some(place);
            }
        }
        None
    }

    pub(crate) fn has_triple(&self, row: Triple) -> bool {
        self.place_of_triple(row).is_some()
    }

    pub(crate) fn drop_triple(&mut self, row: Triple) {
        let place = self.place_of_triple(row);
        remove_at(&mut self.triples, place);
    }

    fn place_of_entry(&self, kind: ItemKind, id: u64, user: u32) -> Option<usize> {
        for (place, row) in self.entries.iter().enumerate() {
            if row.kind == kind && row.id == id && row.user == user {
                return Some(place);
            }
        }
        None
    }

    pub(crate) fn level_of(&self, kind: ItemKind, id: u64, user: u32) -> Option<Level> {
        Some(
            self.entries
                .get(self.place_of_entry(kind, id, user)?)?
                .level,
        )
    }

    pub(crate) fn has_entry(&self, kind: ItemKind, id: u64, user: u32) -> bool {
        self.place_of_entry(kind, id, user).is_some()
    }

    pub(crate) fn entry_fits(&self, row: EntryRow) -> bool {
        let gives = row.kind == ItemKind::Object || row.kind == ItemKind::Collection;
        gives
            && row.level != Level::Null
            && self.has_item(row.kind, row.id)
            && self.has_someone(u64::from(row.user))
    }

    pub(crate) fn put_entry(&mut self, row: EntryRow) -> Result<(), AllocError> {
        self.drop_entry(row);
        self.entries.push(row)?;
        Ok(())
    }

    pub(crate) fn drop_entry(&mut self, row: EntryRow) {
        let place = self.place_of_entry(row.kind, row.id, row.user);
        remove_at(&mut self.entries, place);
    }
}

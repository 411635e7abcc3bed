//! The rows once more, as plain lists in no order. What each change asks is looked up by a scan.

use super::changes::{Change, Collection, Object, Replica, Resource, Triple, User, is_name};
use grid_model::{EntryRow, MemberRow, OrphanRow, UserKind};
use std::alloc::{AllocError, Global};

#[derive(Drop)]
pub(crate) struct Plain {
    pub(crate) stores: u8,
    pub(crate) users: Vec<User>,
    pub(crate) members: Vec<MemberRow>,
    pub(crate) collections: Vec<Collection>,
    pub(crate) objects: Vec<Object>,
    pub(crate) replicas: Vec<Replica>,
    pub(crate) triples: Vec<Triple>,
    pub(crate) entries: Vec<EntryRow>,
    pub(crate) resources: Vec<Resource>,
    pub(crate) rules: u8,
    pub(crate) orphans: Vec<OrphanRow>,
    pub(crate) next_vault: u64,
    pub(crate) pending: Option<u32>,
}

impl Plain {
    pub(crate) fn empty(alloc: Global) -> Plain {
        Plain {
            stores: 0,
            users: Vec::new(alloc),
            members: Vec::new(alloc),
            collections: Vec::new(alloc),
            objects: Vec::new(alloc),
            replicas: Vec::new(alloc),
            triples: Vec::new(alloc),
            entries: Vec::new(alloc),
            resources: Vec::new(alloc),
            rules: 0,
            orphans: Vec::new(alloc),
            next_vault: 1,
            pending: None,
        }
    }

    /// Does the change and answers true, or answers that it does not fit.
    pub(crate) fn apply(&mut self, change: Change) -> Result<bool, AllocError> {
        if !self.fits(change) {
            return Ok(false);
        }
        self.make(change)?;
        Ok(true)
    }

    fn fits(&self, change: Change) -> bool {
        match change {
            Change::Zone { name, stores } => self.zone_fits(name, stores),
            Change::User(row) => is_name(row.name) && !self.is_user_taken(row.id, row.name),
            Change::Member(row) => self.may_be_in(row) && !self.is_in(row),
            Change::NoMember(row) => self.may_be_in(row) && self.is_in(row),
            Change::Collection(row) => self.collection_fits(row),
            Change::NoCollection(id) => self.may_drop_collection(id),
            Change::Object(row) => self.object_fits(row),
            Change::NoObject(id) => self.may_drop_object(id),
            Change::Replica(row) => self.replica_fits(row),
            Change::NoReplica { object, number } => self.has_replica(object, number),
            Change::Triple(row) => self.has_item(row.kind, row.id) && !self.has_triple(row),
            Change::NoTriple(row) => self.has_item(row.kind, row.id) && self.has_triple(row),
            Change::Entry(row) => self.entry_fits(row),
            Change::NoEntry(row) => self.has_entry(row.kind, row.id, row.user),
            Change::Resource(row) => self.resource_fits(row),
            Change::Rules(_) => true,
            Change::Orphan(row) => self.orphan_fits(row),
            Change::NoOrphan(vault) => self.has_orphan(vault),
            Change::Numbers(next_vault) => 0 < next_vault && self.next_vault <= next_vault,
            Change::Pending(user) => self.has_user(user, false),
            Change::NoPending => self.pending.is_some(),
        }
    }

    fn make(&mut self, change: Change) -> Result<(), AllocError> {
        match change {
            Change::Zone { stores, .. } => self.stores = stores,
            Change::User(row) => self.users.push(row)?,
            Change::Member(row) => self.members.push(row)?,
            Change::NoMember(row) => self.drop_member(row),
            Change::Collection(row) => self.put_collection(row)?,
            Change::NoCollection(id) => self.drop_collection(id),
            Change::Object(row) => self.put_object(row)?,
            Change::NoObject(id) => self.drop_object(id),
            Change::Replica(row) => self.put_replica(row)?,
            Change::NoReplica { object, number } => self.drop_replica(object, number),
            Change::Triple(row) => self.triples.push(row)?,
            Change::NoTriple(row) => self.drop_triple(row),
            Change::Entry(row) => self.put_entry(row)?,
            Change::NoEntry(row) => self.drop_entry(row),
            Change::Resource(row) => self.put_resource(row)?,
            Change::Rules(text) => self.rules = text,
            Change::Orphan(row) => self.orphans.push(row)?,
            Change::NoOrphan(vault) => self.drop_orphan(vault),
            Change::Numbers(next_vault) => self.next_vault = next_vault,
            Change::Pending(user) => self.pending = Some(user),
            Change::NoPending => self.pending = None,
        }
        Ok(())
    }

    fn zone_fits(&self, name: u8, stores: u8) -> bool {
        self.stores == 0 && is_name(name) && 1 <= stores && stores <= 16
    }

    fn is_user_taken(&self, id: u32, name: u8) -> bool {
        for row in &self.users {
            if row.id == id || row.name == name {
                return true;
            }
        }
        false
    }

    /// Whether there is a group with this id, or else a user who is none.
    pub(crate) fn has_user(&self, id: u32, is_group: bool) -> bool {
        for row in &self.users {
            if row.id == id {
                return (row.kind == UserKind::Rodsgroup) == is_group;
            }
        }
        false
    }

    fn may_be_in(&self, row: MemberRow) -> bool {
        self.has_user(row.group, true) && self.has_user(row.user, false)
    }

    fn place_of_member(&self, row: MemberRow) -> Option<usize> {
        for (place, other) in self.members.iter().enumerate() {
            if *other == row {
                return Some(place);
            }
        }
        None
    }

    pub(crate) fn is_in(&self, row: MemberRow) -> bool {
        self.place_of_member(row).is_some()
    }

    fn drop_member(&mut self, row: MemberRow) {
        let place = self.place_of_member(row);
        remove_at(&mut self.members, place);
    }
}

/// Takes the row at a place away, if there is one. The last one is put there.
pub(crate) fn remove_at<T: Copy>(rows: &mut Vec<T>, place: Option<usize>) {
    if let Some(place) = place {
        if place < rows.len() {
            rows.swap_remove(place);
        }
    }
}

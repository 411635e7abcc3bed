//! Makers of changes.

use grid_model::{
    CollectionRow, Delta, Digest, ItemKind, Items, Numbers, ObjectRow, OrphanRow, Pending,
    ReplicaRow, ResourceKind, ResourceRow, Text, TripleRow, UserKind, UserRow,
};
use std::alloc::{AllocError, Global};

pub(crate) fn zone(alloc: Global, name: &[u8], stores: u8) -> Result<Delta, AllocError> {
    let name = Text::copy_of(alloc, name)?;
    Ok(Delta::Zone { name, stores })
}

pub(crate) fn user(
    alloc: Global,
    id: u32,
    kind: UserKind,
    name: &[u8],
) -> Result<Delta, AllocError> {
    let name = Text::copy_of(alloc, name)?;
    Ok(Delta::User(UserRow { id, kind, name }))
}

pub(crate) fn collection(
    alloc: Global,
    id: u64,
    parent: u64,
    name: &[u8],
) -> Result<Delta, AllocError> {
    let name = Text::copy_of(alloc, name)?;
    Ok(Delta::Collection(CollectionRow {
        id,
        parent,
        name,
        inherit: false,
    }))
}

pub(crate) fn object(
    alloc: Global,
    id: u64,
    collection: u64,
    name: &[u8],
) -> Result<Delta, AllocError> {
    let name = Text::copy_of(alloc, name)?;
    Ok(Delta::Object(ObjectRow {
        id,
        collection,
        name,
        size: 0,
        digest: Digest::from_bytes([0; 32]),
        time: 0,
    }))
}

pub(crate) fn replica(object: u64, number: u32, leaf: u32, vault: u64) -> Delta {
    Delta::Replica(ReplicaRow {
        object,
        number,
        leaf,
        good: true,
        size: 0,
        digest: Digest::from_bytes([0; 32]),
        vault,
    })
}

pub(crate) fn triple(
    alloc: Global,
    kind: ItemKind,
    id: u64,
    attribute: &[u8],
    value: &[u8],
    unit: &[u8],
) -> Result<TripleRow, AllocError> {
    let attribute = Text::copy_of(alloc, attribute)?;
    let value = Text::copy_of(alloc, value)?;
    let unit = Text::copy_of(alloc, unit)?;
    Ok(TripleRow {
        kind,
        id,
        attribute,
        value,
        unit,
    })
}

pub(crate) fn resource(
    alloc: Global,
    kind: ResourceKind,
    id: u32,
    name: &[u8],
    slot: u8,
    parent: u32,
    place: u32,
) -> Result<Delta, AllocError> {
    let name = Text::copy_of(alloc, name)?;
    Ok(Delta::Resource(ResourceRow {
        id,
        name,
        kind,
        slot,
        up: true,
        parent,
        place,
    }))
}

pub(crate) fn orphan(vault: u64, slot: u8) -> Delta {
    Delta::Orphan(OrphanRow { vault, slot })
}

pub(crate) fn numbers(next_vault: u64) -> Delta {
    Delta::Numbers(Numbers {
        next_vault,
        run: 0,
        last: 0,
    })
}

pub(crate) fn pending(alloc: Global, user: u32) -> Result<Delta, AllocError> {
    let line = Text::copy_of(alloc, b"0 rm /z/o")?;
    Ok(Delta::Pending(Pending {
        run: 0,
        number: 1,
        user,
        line,
        marks: Items::from_vec(Vec::new(alloc)),
        passed: Items::from_vec(Vec::new(alloc)),
        running: None,
        undo: Items::from_vec(Vec::new(alloc)),
    }))
}

//! Changes in plain numbers: a name or a value is the number of a text.

use super::rows;
use grid_model::{Delta, EntryRow, ItemKind, MemberRow, OrphanRow, ResourceKind, Text, UserKind};
use std::alloc::{AllocError, Global};

/// How many texts there are.
pub(crate) const TEXTS: u8 = 8;

const TEXT: [&[u8]; 8] = [b"", b"a", b"b", b"c", b"ab", b"\xC3\xA9", b"a/b", b".."];

/// A text by its number: five names, and before and behind them three that are none.
pub(crate) fn text(number: u8) -> &'static [u8] {
    match TEXT.get(usize::from(number)) {
        Some(text) => text,
        None => b"..",
    }
}

/// Whether the text with this number is a name.
pub(crate) fn is_name(number: u8) -> bool {
    1 <= number && number <= 5
}

/// The number of a text, or one behind all.
pub(crate) fn number_of(text_shown: &Text) -> u8 {
    for number in 0..TEXTS {
        if text_shown.has_bytes(text(number)) {
            return number;
        }
    }
    TEXTS
}

#[derive(Clone, Copy)]
pub(crate) struct User {
    pub(crate) id: u32,
    pub(crate) kind: UserKind,
    pub(crate) name: u8,
}

#[derive(Clone, Copy)]
pub(crate) struct Collection {
    pub(crate) id: u64,
    pub(crate) parent: u64,
    pub(crate) name: u8,
}

#[derive(Clone, Copy)]
pub(crate) struct Object {
    pub(crate) id: u64,
    pub(crate) collection: u64,
    pub(crate) name: u8,
}

#[derive(Clone, Copy)]
pub(crate) struct Replica {
    pub(crate) object: u64,
    pub(crate) number: u32,
    pub(crate) leaf: u32,
    pub(crate) vault: u64,
}

#[derive(Clone, Copy)]
pub(crate) struct Triple {
    pub(crate) kind: ItemKind,
    pub(crate) id: u64,
    pub(crate) value: u8,
}

#[derive(Clone, Copy)]
pub(crate) struct Resource {
    pub(crate) kind: ResourceKind,
    pub(crate) id: u32,
    pub(crate) name: u8,
    pub(crate) slot: u8,
    pub(crate) parent: u32,
    pub(crate) place: u32,
}

/// A change, in the order of the numbers of its kinds.
#[derive(Clone, Copy)]
pub(crate) enum Change {
    Zone { name: u8, stores: u8 },
    User(User),
    Member(MemberRow),
    NoMember(MemberRow),
    Collection(Collection),
    NoCollection(u64),
    Object(Object),
    NoObject(u64),
    Replica(Replica),
    NoReplica { object: u64, number: u32 },
    Triple(Triple),
    NoTriple(Triple),
    Entry(EntryRow),
    NoEntry(EntryRow),
    Resource(Resource),
    Rules(u8),
    Orphan(OrphanRow),
    NoOrphan(u64),
    Numbers(u64),
    Pending(u32),
    NoPending,
}

impl Change {
    /// The number of its kind, from 1 to 21.
    pub(crate) fn number(self) -> u8 {
        match self {
            Change::Zone { .. } => 1,
            Change::User(_) => 2,
            Change::Member(_) => 3,
            Change::NoMember(_) => 4,
            Change::Collection(_) => 5,
            Change::NoCollection(_) => 6,
            Change::Object(_) => 7,
            Change::NoObject(_) => 8,
            Change::Replica(_) => 9,
            Change::NoReplica { .. } => 10,
            Change::Triple(_) => 11,
            Change::NoTriple(_) => 12,
            Change::Entry(_) => 13,
            Change::NoEntry(_) => 14,
            Change::Resource(_) => 15,
            Change::Rules(_) => 16,
            Change::Orphan(_) => 17,
            Change::NoOrphan(_) => 18,
            Change::Numbers(_) => 19,
            Change::Pending(_) => 20,
            Change::NoPending => 21,
        }
    }

    /// The delta that makes this change.
    pub(crate) fn delta(self, alloc: Global) -> Result<Delta, AllocError> {
        match self {
            Change::Zone { name, stores } => rows::zone(alloc, text(name), stores),
            Change::User(row) => rows::user(alloc, row.id, row.kind, text(row.name)),
            Change::Member(row) => Ok(Delta::Member(row)),
            Change::NoMember(row) => Ok(Delta::NoMember(row)),
            Change::Collection(row) => rows::collection(alloc, row.id, row.parent, text(row.name)),
            Change::NoCollection(id) => Ok(Delta::NoCollection { id }),
            Change::Object(row) => rows::object(alloc, row.id, row.collection, text(row.name)),
            Change::NoObject(id) => Ok(Delta::NoObject { id }),
            Change::Replica(row) => {
                Ok(rows::replica(row.object, row.number, row.leaf, row.vault))
            }
            Change::NoReplica { object, number } => Ok(Delta::NoReplica { object, number }),
            Change::Triple(row) => {
                let row = rows::triple(alloc, row.kind, row.id, b"a", text(row.value), b"")?;
                Ok(Delta::Triple(row))
            }
            Change::NoTriple(row) => {
                let row = rows::triple(alloc, row.kind, row.id, b"a", text(row.value), b"")?;
                Ok(Delta::NoTriple(row))
            }
            Change::Entry(row) => Ok(Delta::Entry(row)),
            Change::NoEntry(row) => Ok(Delta::NoEntry {
                kind: row.kind,
                id: row.id,
                user: row.user,
            }),
            Change::Resource(row) => rows::resource(
                alloc,
                row.kind,
                row.id,
                text(row.name),
                row.slot,
                row.parent,
                row.place,
            ),
            Change::Rules(number) => {
                let text = Text::copy_of(alloc, text(number))?;
                Ok(Delta::Rules { text })
            }
            Change::Orphan(row) => Ok(Delta::Orphan(row)),
            Change::NoOrphan(vault) => Ok(Delta::NoOrphan { vault }),
            Change::Numbers(next_vault) => Ok(rows::numbers(next_vault)),
            Change::Pending(user) => rows::pending(alloc, user),
            Change::NoPending => Ok(Delta::NoPending),
        }
    }
}

use crate::{
    Call, Calls, Digest, ItemKind, Items, Level, Marks, Passeds, ResourceKind, Text, UserKind,
};

/// A user or a group.
#[derive(Debug, Drop)]
pub struct UserRow {
    pub id: u32,
    pub kind: UserKind,
    pub name: Text,
}

/// A user in a group.
#[derive(Clone, Copy, Debug, PartialEq, Eq)]
pub struct MemberRow {
    pub group: u32,
    pub user: u32,
}

/// A collection. The root has the id and the parent 0 and no name.
#[derive(Debug, Drop)]
pub struct CollectionRow {
    pub id: u64,
    pub parent: u64,
    pub name: Text,
    pub inherit: bool,
}

/// An object in a collection, with the size in bytes and the SHA-256 of what was last written to it, and when.
#[derive(Debug, Drop)]
pub struct ObjectRow {
    pub id: u64,
    pub collection: u64,
    pub name: Text,
    pub size: u64,
    pub digest: Digest,
    pub time: u64,
}

/// A replica of an object on a leaf, in the file of this vault number.
#[derive(Clone, Copy, Debug, PartialEq, Eq)]
pub struct ReplicaRow {
    pub object: u64,
    pub number: u32,
    pub leaf: u32,
    pub good: bool,
    pub size: u64,
    pub digest: Digest,
    pub vault: u64,
}

/// Metadata of an item.
#[derive(Debug, Drop)]
pub struct TripleRow {
    pub kind: ItemKind,
    pub id: u64,
    pub attribute: Text,
    pub value: Text,
    pub unit: Text,
}

/// What a user or a group may do at an object or a collection.
#[derive(Clone, Copy, Debug, PartialEq, Eq)]
pub struct EntryRow {
    pub kind: ItemKind,
    pub id: u64,
    pub user: u32,
    pub level: Level,
}

/// A resource. The parent 0 is none; the place orders the children of one parent.
#[derive(Debug, Drop)]
pub struct ResourceRow {
    pub id: u32,
    pub name: Text,
    pub kind: ResourceKind,
    pub slot: u8,
    pub up: bool,
    pub parent: u32,
    pub place: u32,
}

/// A vault file that no replica has, in the store of this slot.
#[derive(Clone, Copy, Debug, PartialEq, Eq)]
pub struct OrphanRow {
    pub vault: u64,
    pub slot: u8,
}

/// The next vault number, the number of the run, and that of the last command of it that changed something.
#[derive(Clone, Copy, Debug, PartialEq, Eq)]
pub struct Numbers {
    pub next_vault: u64,
    pub run: u64,
    pub last: u64,
}

/// A command that is not done: the run and the number that it has, its user and line, its marks and refused recoveries
/// so far, the deed that runs, and the recoveries that are still to be run, the last one first.
#[derive(Debug, Drop)]
pub struct Pending {
    pub run: u64,
    pub number: u64,
    pub user: u32,
    pub line: Text,
    pub marks: Marks,
    pub passed: Passeds,
    pub running: Option<Call>,
    pub undo: Calls,
}

/// What metadata may be of, by the id of its row.
#[derive(Clone, Copy, Debug, PartialEq, Eq)]
pub enum Item {
    Object(u64),
    Collection(u64),
    Resource(u32),
    User(u32),
}

/// One change of the catalogue's rows. A row takes the place of the one with its key.
#[derive(Debug, Drop)]
pub enum Delta {
    Zone { name: Text, stores: u8 },
    User(UserRow),
    Member(MemberRow),
    NoMember(MemberRow),
    Collection(CollectionRow),
    NoCollection { id: u64 },
    Object(ObjectRow),
    NoObject { id: u64 },
    Replica(ReplicaRow),
    NoReplica { object: u64, number: u32 },
    Triple(TripleRow),
    NoTriple(TripleRow),
    Entry(EntryRow),
    NoEntry { kind: ItemKind, id: u64, user: u32 },
    Resource(ResourceRow),
    Rules { text: Text },
    Orphan(OrphanRow),
    NoOrphan { vault: u64 },
    Numbers(Numbers),
    Pending(Pending),
    NoPending,
}

/// A list of changes, the first one first.
pub type Deltas = Items<Delta>;

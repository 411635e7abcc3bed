//! Changes of each kind, in an order in which they fit: rows that are new, in lists that are new and in lists that grow,
//! rows in the place of others, and rows that are taken away.
ghost use Rattle.std.specs.Prelude.{◌<◌};

use super::changes::{Change, Collection, Object, Replica, Resource, Triple, User};
use grid_model::{EntryRow, ItemKind, Level, MemberRow, OrphanRow, ResourceKind, UserKind};

/// How many ids there are: more than one node of a tree has.
pub(crate) const ROUNDS: u32 = 14;

/// How many changes a round has.
pub(crate) const TURNS: u32 = 14;

fn name(id: u32) -> u8 {
    (1 + id % 5) as u8
}

fn user(id: u32) -> Change {
    let kind = if id % 2 == 0 {
        UserKind::Rodsgroup
    } else {
        UserKind::Rodsuser
    };
    Change::User(User {
        id,
        kind,
        name: name(id),
    })
}

fn member(id: u32) -> MemberRow {
    MemberRow {
        group: if id < 9 { 2 } else { 4 },
        user: id % 6,
    }
}

fn resource(id: u32, parent: u32, place: u32) -> Change {
    Change::Resource(Resource {
        kind: if id == 1 {
            ResourceKind::Replication
        } else {
            ResourceKind::Storage
        },
        id,
        name: name(id),
        slot: if id % 2 == 0 { 1 } else { 0 },
        parent,
        place,
    })
}

fn collection(id: u32, parent: u32, name: u8) -> Change {
    Change::Collection(Collection {
        id: u64::from(id),
        parent: u64::from(parent),
        name,
    })
}

fn object(id: u32, collection: u32, name: u8) -> Change {
    Change::Object(Object {
        id: u64::from(id),
        collection: u64::from(collection),
        name,
    })
}

fn replica(object: u32, number: u32, leaf: u32, vault: u64) -> Change {
    Change::Replica(Replica {
        object: u64::from(object),
        number,
        leaf,
        vault,
    })
}

fn no_replica(object: u32, number: u32) -> Change {
    Change::NoReplica {
        object: u64::from(object),
        number,
    }
}

fn triple(kind: ItemKind, id: u32) -> Triple {
    Triple {
        kind,
        id: u64::from(id),
        value: name(id),
    }
}

fn entry(kind: ItemKind, id: u32, user: u32, level: Level) -> EntryRow {
    EntryRow {
        kind,
        id: u64::from(id),
        user,
        level,
    }
}

fn orphan(id: u32) -> OrphanRow {
    OrphanRow {
        vault: 60 + u64::from(id),
        slot: 0,
    }
}

/// A change of a round that puts new rows. `/` is there from the first one on.
pub(crate) fn new_row(round: u32, turn: u32) -> Change
    requires { round < ROUNDS }
{
    let id = round + 1;
    let vault = u64::from(id);
    match turn {
        0 => user(id),
        1 => Change::Member(member(id)),
        2 => collection(id, round, 1),
        3 => object(id, id, 2),
        4 => resource(id, 0, 0),
        5 => replica(id, 0, 2, vault),
        6 => replica(id, 1, 3, 20 + vault),
        7 => Change::Triple(triple(ItemKind::Object, id)),
        8 => Change::Triple(triple(ItemKind::Collection, id)),
        9 => Change::Entry(entry(ItemKind::Object, id, 1, Level::Own)),
        10 => Change::Entry(entry(ItemKind::Collection, id, 3, Level::Read)),
        11 => Change::Orphan(orphan(id)),
        12 => Change::Rules(name(id)),
        _ => Change::Pending(1),
    }
}

/// A change of a round that puts rows in the place of others, or beside them. The first object has a long list of replicas.
pub(crate) fn other_row(round: u32, turn: u32) -> Change
    requires { round < ROUNDS }
{
    let id = round + 1;
    let vault = u64::from(id);
    match turn {
        0 => Change::Numbers(200 + vault),
        1 => collection(id, round, 3),
        2 => object(id, id, 2),
        3 => object(id, round, 4),
        4 => replica(id, 0, 4, 40 + vault),
        5 => replica(id, 2, 5, 80 + vault),
        6 => replica(id, 1, 3, 20 + vault),
        7 => resource(id, 1, id),
        8 => Change::Entry(entry(ItemKind::Object, id, 1, Level::Read)),
        9 => Change::Entry(entry(ItemKind::Collection, id, 5, Level::Own)),
        10 => Change::Triple(triple(ItemKind::User, id)),
        11 => Change::NoPending,
        12 => replica(1, 3 + round, 2, 120 + vault),
        _ => Change::Pending(3),
    }
}

/// A change of a round that takes rows away, of the greatest id first.
pub(crate) fn no_row(round: u32, turn: u32) -> Change
    requires { round < ROUNDS }
{
    let id = ROUNDS - round;
    match turn {
        0 => Change::NoMember(member(id)),
        1 => Change::NoTriple(triple(ItemKind::Object, id)),
        2 => Change::NoTriple(triple(ItemKind::Collection, id)),
        3 => Change::NoEntry(entry(ItemKind::Object, id, 1, Level::Read)),
        4 => Change::NoEntry(entry(ItemKind::Collection, id, 3, Level::Read)),
        5 => Change::NoEntry(entry(ItemKind::Collection, id, 5, Level::Own)),
        6 => no_replica(1, 3 + round),
        7 => no_replica(id, 0),
        8 => no_replica(id, 1),
        9 => no_replica(id, 2),
        10 => Change::NoObject(u64::from(id)),
        11 => Change::NoCollection(u64::from(id)),
        12 => Change::NoOrphan(60 + u64::from(id)),
        _ => Change::NoPending,
    }
}

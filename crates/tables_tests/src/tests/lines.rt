//! Lines of words, each behind one blank, and the changes that they ask for. `-` is the word of no bytes.

use super::rows;
use grid_model::{
    Delta, EntryRow, Item, ItemKind, Level, MemberRow, ResourceKind, TripleRow, UserKind,
};
use std::alloc::{AllocError, Global};

/// The word of this number, from 0 on.
pub(crate) fn word(line: &str, index: usize) -> &str {
    match line.split(' ').nth(index) {
        Some("-") | None => "",
        Some(word) => word,
    }
}

/// The number that this word is, or 0.
pub(crate) fn number(line: &str, index: usize) -> u64 {
    word(line, index).parse::<u64>().unwrap_or(0)
}

/// The same, where it is the id of a user or a resource.
pub(crate) fn short(line: &str, index: usize) -> u32 {
    word(line, index).parse::<u32>().unwrap_or(0)
}

fn byte(line: &str, index: usize) -> u8 {
    word(line, index).parse::<u8>().unwrap_or(0)
}

fn item_kind(word: &str) -> ItemKind {
    match word {
        "object" => ItemKind::Object,
        "collection" => ItemKind::Collection,
        "resource" => ItemKind::Resource,
        _ => ItemKind::User,
    }
}

fn user_kind(word: &str) -> UserKind {
    match word {
        "rodsadmin" => UserKind::Rodsadmin,
        "rodsgroup" => UserKind::Rodsgroup,
        _ => UserKind::Rodsuser,
    }
}

fn resource_kind(word: &str) -> ResourceKind {
    match word {
        "random" => ResourceKind::Random,
        "replication" => ResourceKind::Replication,
        _ => ResourceKind::Storage,
    }
}

fn level(word: &str) -> Level {
    match word {
        "read" => Level::Read,
        "write" => Level::Write,
        "own" => Level::Own,
        _ => Level::Null,
    }
}

/// The item of the kind and the id in these words.
pub(crate) fn item(line: &str, index: usize) -> Item {
    let id = number(line, index.saturating_add(1));
    match item_kind(word(line, index)) {
        ItemKind::Object => Item::Object(id),
        ItemKind::Collection => Item::Collection(id),
        ItemKind::Resource => Item::Resource(short(line, index.saturating_add(1))),
        ItemKind::User => Item::User(short(line, index.saturating_add(1))),
    }
}

fn member(line: &str) -> MemberRow {
    MemberRow {
        group: short(line, 1),
        user: short(line, 2),
    }
}

fn entry(line: &str) -> EntryRow {
    EntryRow {
        kind: item_kind(word(line, 1)),
        id: number(line, 2),
        user: short(line, 3),
        level: level(word(line, 4)),
    }
}

fn no_entry(line: &str) -> Delta {
    Delta::NoEntry {
        kind: item_kind(word(line, 1)),
        id: number(line, 2),
        user: short(line, 3),
    }
}

fn user(alloc: Global, line: &str) -> Result<Delta, AllocError> {
    let kind = user_kind(word(line, 2));
    rows::user(alloc, short(line, 1), kind, word(line, 3).as_bytes())
}

fn triple(alloc: Global, line: &str) -> Result<TripleRow, AllocError> {
    rows::triple(
        alloc,
        item_kind(word(line, 1)),
        number(line, 2),
        word(line, 3).as_bytes(),
        word(line, 4).as_bytes(),
        word(line, 5).as_bytes(),
    )
}

fn resource(alloc: Global, line: &str) -> Result<Delta, AllocError> {
    rows::resource(
        alloc,
        resource_kind(word(line, 1)),
        short(line, 2),
        word(line, 3).as_bytes(),
        byte(line, 4),
        short(line, 5),
        short(line, 6),
    )
}

// The names of the kinds of changes, by their numbers.
const KINDS: [&str; 21] = [
    "",
    "zone",
    "user",
    "member",
    "no_member",
    "collection",
    "no_collection",
    "object",
    "no_object",
    "replica",
    "no_replica",
    "triple",
    "no_triple",
    "entry",
    "no_entry",
    "resource",
    "rules",
    "orphan",
    "no_orphan",
    "numbers",
    "pending",
];

// The number of the kind of this name, or one behind all.
fn kind(name: &str) -> usize {
    for (number, known) in KINDS.iter().enumerate() {
        if *known == name {
            return number;
        }
    }
    KINDS.len()
}

/// The change of the kind in the first word, with what it needs in the others. Where it is no other one, it takes the pending command
/// away.
pub(crate) fn change(alloc: Global, line: &str) -> Result<Delta, AllocError> {
    let first = number(line, 1);
    match kind(word(line, 0)) {
        1 => rows::zone(alloc, word(line, 1).as_bytes(), byte(line, 2)),
        2 => user(alloc, line),
        3 => Ok(Delta::Member(member(line))),
        4 => Ok(Delta::NoMember(member(line))),
        5 => rows::collection(alloc, first, number(line, 2), word(line, 3).as_bytes()),
        6 => Ok(Delta::NoCollection { id: first }),
        7 => rows::object(alloc, first, number(line, 2), word(line, 3).as_bytes()),
        8 => Ok(Delta::NoObject { id: first }),
        9 => Ok(rows::replica(first, short(line, 2), short(line, 3), number(line, 4))),
        10 => Ok(Delta::NoReplica {
            object: first,
            number: short(line, 2),
        }),
        11 => Ok(Delta::Triple(triple(alloc, line)?)),
        12 => Ok(Delta::NoTriple(triple(alloc, line)?)),
        13 => Ok(Delta::Entry(entry(line))),
        14 => Ok(no_entry(line)),
        15 => resource(alloc, line),
        17 => Ok(rows::orphan(first, byte(line, 2))),
        18 => Ok(Delta::NoOrphan { vault: first }),
        19 => Ok(rows::numbers(first)),
        20 => rows::pending(alloc, short(line, 1)),
        _ => Ok(Delta::NoPending),
    }
}

//! Rows at the front of bytes: each reader answers the row and the bytes behind it.
#![tactic(auto, unfolding(crate::specs::Reading::and_then, crate::specs::Reading::give, crate::specs::Rows::user_at, crate::specs::Rows::member_at, crate::specs::Rows::collection_row_at, crate::specs::Rows::object_row_at, crate::specs::Rows::replica_at, crate::specs::Rows::triple_at, crate::specs::Rows::entry_at, crate::specs::Rows::resource_at, crate::specs::Rows::orphan_at, crate::specs::Rows::numbers_at, crate::specs::Rows::zone_at, crate::specs::Rows::no_replica_at, crate::specs::Rows::no_entry_at))]

ghost use Rattle.std.specs.Prelude.{◌≡◌};
ghost use Rattle.row_codec.specs.Reading.{Gives};
ghost use Rattle.row_codec.specs.Rows.{user_at, member_at, collection_row_at, object_row_at, replica_at, triple_at, entry_at, resource_at};
ghost use Rattle.row_codec.specs.Rows.{orphan_at, numbers_at, zone_at, no_replica_at, no_entry_at};

use crate::fields::{Alphabet, byte, coded, hash_of, text, u32_of, u64_of};
use crate::stop::Stop;
use crate::tags::EntryKind;
use grid_model::{
    CollectionRow, Digest, EntryRow, ItemKind, MemberRow, Numbers, ObjectRow, OrphanRow,
    ReplicaRow, ResourceRow, Text, TripleRow, UserRow,
};
use std::alloc::Global;

/// Reads the fields of a user or group, and gives the bytes behind them too.
pub fn user(alloc: Global, bytes: &[u8]) -> Result<(UserRow, &[u8]), Stop>
    ensures { Gives (λ x. (x.0, x.1.now)) result (user_at bytes.now) }
{
    let (id, rest) = u32_of(bytes)?;
    let (kind, rest) = coded(rest)?;
    let (name, rest) = text(alloc, Alphabet::Shown, rest)?;
    Ok((UserRow { id, kind, name }, rest))
}

/// Reads the fields of a member of a group, and gives the bytes behind them too.
pub fn member(bytes: &[u8]) -> Result<(MemberRow, &[u8]), Stop>
    ensures { Gives (λ x. (x.0, x.1.now)) result (member_at bytes.now) }
{
    let (group, rest) = u32_of(bytes)?;
    let (user, rest) = u32_of(rest)?;
    Ok((MemberRow { group, user }, rest))
}

/// Reads the fields of a collection, and gives the bytes behind them too.
pub fn collection(alloc: Global, bytes: &[u8]) -> Result<(CollectionRow, &[u8]), Stop>
    ensures { Gives (λ x. (x.0, x.1.now)) result (collection_row_at bytes.now) }
{
    let (id, rest) = u64_of(bytes)?;
    let (parent, rest) = u64_of(rest)?;
    let (name, rest) = text(alloc, Alphabet::Shown, rest)?;
    let (inherit, rest) = coded(rest)?;
    let row = CollectionRow {
        id,
        parent,
        name,
        inherit,
    };
    Ok((row, rest))
}

/// Reads the fields of an object, and gives the bytes behind them too.
pub fn object(alloc: Global, bytes: &[u8]) -> Result<(ObjectRow, &[u8]), Stop>
    ensures { Gives (λ x. (x.0, x.1.now)) result (object_row_at bytes.now) }
{
    let (id, rest) = u64_of(bytes)?;
    let (collection, rest) = u64_of(rest)?;
    let (name, rest) = text(alloc, Alphabet::Shown, rest)?;
    let (size, rest) = u64_of(rest)?;
    let (hash, rest) = hash_of(rest)?;
    let (time, rest) = u64_of(rest)?;
    let row = ObjectRow {
        id,
        collection,
        name,
        size,
        digest: Digest::from_bytes(*hash),
        time,
    };
    Ok((row, rest))
}

/// Reads the fields of a replica, and gives the bytes behind them too.
pub fn replica(bytes: &[u8]) -> Result<(ReplicaRow, &[u8]), Stop>
    ensures { Gives (λ x. (x.0, x.1.now)) result (replica_at bytes.now) }
{
    let (object, rest) = u64_of(bytes)?;
    let (number, rest) = u32_of(rest)?;
    let (leaf, rest) = u32_of(rest)?;
    let (good, rest) = coded(rest)?;
    let (size, rest) = u64_of(rest)?;
    let (hash, rest) = hash_of(rest)?;
    let (vault, rest) = u64_of(rest)?;
    let row = ReplicaRow {
        object,
        number,
        leaf,
        good,
        size,
        digest: Digest::from_bytes(*hash),
        vault,
    };
    Ok((row, rest))
}

/// Reads the fields of metadata, and gives the bytes behind them too.
pub fn triple(alloc: Global, bytes: &[u8]) -> Result<(TripleRow, &[u8]), Stop>
    ensures { Gives (λ x. (x.0, x.1.now)) result (triple_at bytes.now) }
{
    let (kind, rest) = coded(bytes)?;
    let (id, rest) = u64_of(rest)?;
    let (attribute, rest) = text(alloc, Alphabet::Shown, rest)?;
    let (value, rest) = text(alloc, Alphabet::Shown, rest)?;
    let (unit, rest) = text(alloc, Alphabet::Shown, rest)?;
    let row = TripleRow {
        kind,
        id,
        attribute,
        value,
        unit,
    };
    Ok((row, rest))
}

/// Reads the fields of an entry of access, and gives the bytes behind them too.
pub fn entry(bytes: &[u8]) -> Result<(EntryRow, &[u8]), Stop>
    ensures { Gives (λ x. (x.0, x.1.now)) result (entry_at bytes.now) }
{
    let (EntryKind(kind), rest) = coded(bytes)?;
    let (id, rest) = u64_of(rest)?;
    let (user, rest) = u32_of(rest)?;
    let (level, rest) = coded(rest)?;
    let row = EntryRow {
        kind,
        id,
        user,
        level,
    };
    Ok((row, rest))
}

/// Reads the fields of a resource, and gives the bytes behind them too.
pub fn resource(alloc: Global, bytes: &[u8]) -> Result<(ResourceRow, &[u8]), Stop>
    ensures { Gives (λ x. (x.0, x.1.now)) result (resource_at bytes.now) }
{
    let (id, rest) = u32_of(bytes)?;
    let (name, rest) = text(alloc, Alphabet::Shown, rest)?;
    let (kind, rest) = coded(rest)?;
    let (slot, rest) = byte(rest)?;
    let (up, rest) = coded(rest)?;
    let (parent, rest) = u32_of(rest)?;
    let (place, rest) = u32_of(rest)?;
    let row = ResourceRow {
        id,
        name,
        kind,
        slot,
        up,
        parent,
        place,
    };
    Ok((row, rest))
}

/// Reads the fields of a file that no replica has, and gives the bytes behind them too.
pub fn orphan(bytes: &[u8]) -> Result<(OrphanRow, &[u8]), Stop>
    ensures { Gives (λ x. (x.0, x.1.now)) result (orphan_at bytes.now) }
{
    let (vault, rest) = u64_of(bytes)?;
    let (slot, rest) = byte(rest)?;
    Ok((OrphanRow { vault, slot }, rest))
}

/// Reads the fields of the numbers, and gives the bytes behind them too.
pub fn numbers(bytes: &[u8]) -> Result<(Numbers, &[u8]), Stop>
    ensures { Gives (λ x. (x.0, x.1.now)) result (numbers_at bytes.now) }
{
    let (next_vault, rest) = u64_of(bytes)?;
    let (run, rest) = u64_of(rest)?;
    let (last, rest) = u64_of(rest)?;
    let row = Numbers {
        next_vault,
        run,
        last,
    };
    Ok((row, rest))
}

/// The name of the zone, and how many stores there are.
pub fn zone(alloc: Global, bytes: &[u8]) -> Result<((Text, u8), &[u8]), Stop>
    ensures { Gives (λ x. (x.0, x.1.now)) result (zone_at bytes.now) }
{
    let (name, rest) = text(alloc, Alphabet::Shown, bytes)?;
    let (stores, rest) = byte(rest)?;
    Ok(((name, stores), rest))
}

/// The object and the number of a replica that is removed.
pub fn no_replica(bytes: &[u8]) -> Result<((u64, u32), &[u8]), Stop>
    ensures { Gives (λ x. (x.0, x.1.now)) result (no_replica_at bytes.now) }
{
    let (object, rest) = u64_of(bytes)?;
    let (number, rest) = u32_of(rest)?;
    Ok(((object, number), rest))
}

/// The item and the user of an entry that is removed.
pub fn no_entry(bytes: &[u8]) -> Result<((ItemKind, u64, u32), &[u8]), Stop>
    ensures { Gives (λ x. (x.0, x.1.now)) result (no_entry_at bytes.now) }
{
    let (EntryKind(kind), rest) = coded(bytes)?;
    let (id, rest) = u64_of(rest)?;
    let (user, rest) = u32_of(rest)?;
    Ok(((kind, id, user), rest))
}

ghost use Rattle.std.specs.Prelude.{◌≡◌, ◌++◌, OnOk};
ghost use Rattle.grid_model.specs.Deltas.{joined, spelling};
ghost use Rattle.row_codec.specs.Tagged.{body};

use crate::commands::put_pending;
use crate::putting::{put_byte, put_code, put_text, put_u32, put_u64};
use crate::putting_rows::{
    put_collection, put_entry, put_member, put_numbers, put_object, put_orphan, put_replica,
    put_resource, put_triple, put_user,
};
use crate::tags::{EntryKind, Tag};
use grid_model::Delta;
use std::alloc::AllocError;

/// Adds the one spelling of the change.
pub fn put_delta(out: &mut Vec<u8>, delta: &Delta) -> Result<(), AllocError>
    ensures { OnOk result (out.new.items ≡ out.old.items ++ spelling delta.now) }
{
    put_code(out, Tag::of_delta(delta))?;
    put_body(out, delta)
}

/// Adds what stands behind the tag.
fn put_body(out: &mut Vec<u8>, delta: &Delta) -> Result<(), AllocError>
    ensures { OnOk result (out.new.items ≡ out.old.items ++ joined (body delta.now)) }
{
    match delta {
        Delta::Zone { name, stores } => {
            put_text(out, name)?;
            put_byte(out, *stores)
        }
        Delta::User(row) => put_user(out, row),
        Delta::Member(row) | Delta::NoMember(row) => put_member(out, row),
        Delta::Collection(row) => put_collection(out, row),
        Delta::NoCollection { id } | Delta::NoObject { id } => put_u64(out, *id),
        Delta::Object(row) => put_object(out, row),
        Delta::Replica(row) => put_replica(out, row),
        Delta::NoReplica { object, number } => {
            put_u64(out, *object)?;
            put_u32(out, *number)
        }
        Delta::Triple(row) | Delta::NoTriple(row) => put_triple(out, row),
        Delta::Entry(row) => put_entry(out, row),
        Delta::NoEntry { kind, id, user } => {
            put_code(out, EntryKind(*kind))?;
            put_u64(out, *id)?;
            put_u32(out, *user)
        }
        Delta::Resource(row) => put_resource(out, row),
        Delta::Rules { text } => put_text(out, text),
        Delta::Orphan(row) => put_orphan(out, row),
        Delta::NoOrphan { vault } => put_u64(out, *vault),
        Delta::Numbers(row) => put_numbers(out, row),
        Delta::Pending(row) => put_pending(out, row),
        Delta::NoPending => Ok(()),
    }
}

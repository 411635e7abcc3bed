//! Rows, added field by field.

ghost use Rattle.std.specs.Prelude.{◌≡◌, ◌++◌, OnOk};
ghost use Rattle.grid_model.specs.Deltas.{joined, user_row, member_row, collection_row, object_row, replica_row, triple_row, entry_row};
ghost use Rattle.grid_model.specs.Deltas.{resource_row, orphan_row, numbers};

use crate::putting::{put_byte, put_code, put_digest, put_text, put_u32, put_u64};
use grid_model::{
    CollectionRow, EntryRow, MemberRow, Numbers, ObjectRow, OrphanRow, ReplicaRow, ResourceRow,
    TripleRow, UserRow,
};
use std::alloc::AllocError;

/// Adds the fields of a user or group. Fails for want of memory alone.
pub fn put_user(out: &mut Vec<u8>, row: &UserRow) -> Result<(), AllocError>
    ensures { OnOk result (out.new.items ≡ out.old.items ++ joined (user_row row.now)) }
{
    put_u32(out, row.id)?;
    put_code(out, row.kind)?;
    put_text(out, &row.name)
}

/// Adds the fields of a member of a group. Fails for want of memory alone.
pub fn put_member(out: &mut Vec<u8>, row: &MemberRow) -> Result<(), AllocError>
    ensures { OnOk result (out.new.items ≡ out.old.items ++ joined (member_row row.now)) }
{
    put_u32(out, row.group)?;
    put_u32(out, row.user)
}

/// Adds the fields of a collection. Fails for want of memory alone.
pub fn put_collection(out: &mut Vec<u8>, row: &CollectionRow) -> Result<(), AllocError>
    ensures { OnOk result (out.new.items ≡ out.old.items ++ joined (collection_row row.now)) }
{
    put_u64(out, row.id)?;
    put_u64(out, row.parent)?;
    put_text(out, &row.name)?;
    put_code(out, row.inherit)
}

/// Adds the fields of an object. Fails for want of memory alone.
pub fn put_object(out: &mut Vec<u8>, row: &ObjectRow) -> Result<(), AllocError>
    ensures { OnOk result (out.new.items ≡ out.old.items ++ joined (object_row row.now)) }
{
    put_u64(out, row.id)?;
    put_u64(out, row.collection)?;
    put_text(out, &row.name)?;
    put_u64(out, row.size)?;
    put_digest(out, row.digest)?;
    put_u64(out, row.time)
}

/// Adds the fields of a replica. Fails for want of memory alone.
pub fn put_replica(out: &mut Vec<u8>, row: &ReplicaRow) -> Result<(), AllocError>
    ensures { OnOk result (out.new.items ≡ out.old.items ++ joined (replica_row row.now)) }
{
    put_u64(out, row.object)?;
    put_u32(out, row.number)?;
    put_u32(out, row.leaf)?;
    put_code(out, row.good)?;
    put_u64(out, row.size)?;
    put_digest(out, row.digest)?;
    put_u64(out, row.vault)
}

/// Adds the fields of metadata. Fails for want of memory alone.
pub fn put_triple(out: &mut Vec<u8>, row: &TripleRow) -> Result<(), AllocError>
    ensures { OnOk result (out.new.items ≡ out.old.items ++ joined (triple_row row.now)) }
{
    put_code(out, row.kind)?;
    put_u64(out, row.id)?;
    put_text(out, &row.attribute)?;
    put_text(out, &row.value)?;
    put_text(out, &row.unit)
}

/// Adds the fields of an entry of access. Fails for want of memory alone.
pub fn put_entry(out: &mut Vec<u8>, row: &EntryRow) -> Result<(), AllocError>
    ensures { OnOk result (out.new.items ≡ out.old.items ++ joined (entry_row row.now)) }
{
    put_code(out, row.kind)?;
    put_u64(out, row.id)?;
    put_u32(out, row.user)?;
    put_code(out, row.level)
}

/// Adds the fields of a resource. Fails for want of memory alone.
pub fn put_resource(out: &mut Vec<u8>, row: &ResourceRow) -> Result<(), AllocError>
    ensures { OnOk result (out.new.items ≡ out.old.items ++ joined (resource_row row.now)) }
{
    put_u32(out, row.id)?;
    put_text(out, &row.name)?;
    put_code(out, row.kind)?;
    put_byte(out, row.slot)?;
    put_code(out, row.up)?;
    put_u32(out, row.parent)?;
    put_u32(out, row.place)
}

/// Adds the fields of a file that no replica has. Fails for want of memory alone.
pub fn put_orphan(out: &mut Vec<u8>, row: &OrphanRow) -> Result<(), AllocError>
    ensures { OnOk result (out.new.items ≡ out.old.items ++ joined (orphan_row row.now)) }
{
    put_u64(out, row.vault)?;
    put_byte(out, row.slot)
}

/// Adds the fields of the numbers. Fails for want of memory alone.
pub fn put_numbers(out: &mut Vec<u8>, row: &Numbers) -> Result<(), AllocError>
    ensures { OnOk result (out.new.items ≡ out.old.items ++ joined (numbers row.now)) }
{
    put_u64(out, row.next_vault)?;
    put_u64(out, row.run)?;
    put_u64(out, row.last)
}

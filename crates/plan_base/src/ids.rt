ghost use Rattle.std.specs.Prelude.{◌≡◌, ◌≢◌, ◌<◌, ◌≤◌, ◌+◌, ◌==◌, false, length, IfOk};
ghost use Rattle.std.specs.List.{list_any};
ghost use Rattle.std.specs.List.Sorted.{IsStrictlyIncreasing};
ghost use Rattle.grid_model.specs.Rows.{has_collection, has_object, has_resource, has_user};

use grid_tables::{Kind, Tables};
use std::alloc::{AllocError, Global};

/// An id that no collection has; `/` has 0, and no other. It looks at the other ids only where the greatest that there can
/// be is taken, and takes memory only then. Fails for want of it alone.
pub fn next_collection_id(alloc: Global, tables: &Tables) -> Result<u64, AllocError>
    ensures some { IfOk result (λ id. id ≢ 0) }
    ensures fresh { IfOk result (λ id. has_collection tables.now id ≡ false) }
{
    if let Some(id) = tables.next_collection_id() {
        return Ok(id);
    }
    let ids = tables.ids(alloc, Kind::Collections)?;
    Ok(free_id(ids.as_slice()))
}

/// An id that no object has. It looks at the other ids only where the greatest that there can be is taken, and takes memory
/// only then. Fails for want of it alone.
pub fn next_object_id(alloc: Global, tables: &Tables) -> Result<u64, AllocError>
    ensures some { IfOk result (λ id. id ≢ 0) }
    ensures fresh { IfOk result (λ id. has_object tables.now id ≡ false) }
{
    if let Some(id) = tables.next_object_id() {
        return Ok(id);
    }
    let ids = tables.ids(alloc, Kind::Objects)?;
    Ok(free_id(ids.as_slice()))
}

/// An id that no user and no group has. It looks at the other ids only where the greatest that there can be is taken, and
/// takes memory only then. Fails for want of it alone.
pub fn next_user_id(alloc: Global, tables: &Tables) -> Result<u32, AllocError>
    requires few { length tables.now.users < 4294967295 }
    ensures fresh { IfOk result (λ id. has_user tables.now id ≡ false) }
{
    if let Some(id) = tables.next_user_id() {
        return Ok(id);
    }
    let ids = tables.ids(alloc, Kind::Users)?;
    Ok(free_id(ids.as_slice()) as u32)
}

/// An id from 1 on that no resource has. It looks at the other ids only where the greatest that there can be is taken, and
/// takes memory only then. Fails for want of it alone.
pub fn next_resource_id(alloc: Global, tables: &Tables) -> Result<u32, AllocError>
    requires few { length tables.now.resources < 4294967295 }
    ensures some { IfOk result (λ id. 0 < id) }
    ensures fresh { IfOk result (λ id. has_resource tables.now id ≡ false) }
{
    if let Some(id) = tables.next_resource_id() {
        return Ok(id);
    }
    let ids = tables.ids(alloc, Kind::Resources)?;
    Ok(free_id(ids.as_slice()) as u32)
}

// The least number from 1 on that is none of the ids, which rise.
fn free_id(ids: &[u64]) -> u64
    requires { IsStrictlyIncreasing ids.now }
    ensures some { result ≢ 0 }
    ensures low { result ≤ length ids.now + 1 }
    ensures fresh { list_any (λ id. id == result) ids.now ≡ false }
{
    let mut next = 1;
    for id in ids {
        if *id > next {
            return next;
        }
        if *id == next {
            next += 1;
        }
    }
    next
}

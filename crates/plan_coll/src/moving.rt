ghost use Rattle.std.specs.Prelude.{◌≡◌, ◌≢◌, [], IsTrue, IfOk};
ghost use Rattle.grid_journal.specs.Journal.{can_be_kept};
ghost use Rattle.grid_model.specs.Applying.{IsMade, is_user};
ghost use Rattle.grid_model.specs.Names.{is_name};
ghost use Rattle.grid_model.specs.Operations.Table.{mv};
ghost use Rattle.grid_model.specs.RowGrids.{user_name};
ghost use Rattle.grid_model.specs.Rows.{has_collection, has_object};
ghost use Rattle.grid_model.specs.declared.deltas.Delta.TheVariants as delta;
ghost use Rattle.plan_base.specs.Plans.{PlansChange};
ghost use Rattle.plan_coll.specs.Moving.{IsLastName, MovesCollection, MovesObject};

use crate::collections::collection_row;
use grid_model::{Delta, Deltas, Digest, Item, Level, ObjectRow, Path, PlanError, Refusal, Text};
use grid_tables::Tables;
use plan_base::{
    collection_above, digest_is_kept, is_fixed, is_taken, item_at, may_at, name_is_text,
};
use std::alloc::{AllocError, Global};

/// Plans that what is at the one path is at the other from now on, with all that lies below it (`mv`).
pub fn plan_move(
    alloc: Global,
    tables: &Tables,
    user: u32,
    from: &Path,
    to: &Path,
) -> Result<Deltas, PlanError>
    requires made { IsMade tables.now }
    requires user { IsTrue (is_user tables.now user) }
    ensures { PlansChange tables.now (user_name tables.now user) (mv from.now to.now) result }
{
    let item = match item_at(tables, from) {
        None => return Err(PlanError::Refused(Refusal::NoObject)),
        Some(item) => item,
    };
    if !may_at(tables, user, item, Level::Own) {
        return Err(PlanError::Refused(Refusal::NoAccess));
    }
    if is_fixed(tables, from) {
        return Err(PlanError::Refused(Refusal::Fixed));
    }
    if to.is_under(from) {
        return Err(PlanError::Refused(Refusal::Inside));
    }
    let parent = match collection_above(alloc, tables, to) {
        Err(error) => return Err(error),
        Ok(parent) => parent,
    };
    if !may_at(tables, user, Item::Collection(parent), Level::Write) {
        return Err(PlanError::Refused(Refusal::NoAccess));
    }
    if is_taken(tables, to) {
        return Err(PlanError::Refused(Refusal::Exists));
    }
    match item {
        Item::Collection(id) => match moved_collection(alloc, tables, id, parent, to) {
            Err(_) => Err(PlanError::Memory),
            Ok(deltas) => Ok(deltas),
        },
        Item::Object(id) => match moved_object(alloc, tables, id, parent, to) {
            Err(_) => Err(PlanError::Memory),
            Ok(deltas) => Ok(deltas),
        },
        Item::Resource(_) | Item::User(_) => unreachable!(),
    }
}

// The change that moves the collection with this id to the path, in this parent. Fails for want of memory alone.
fn moved_collection(
    alloc: Global,
    tables: &Tables,
    id: u64,
    parent: u64,
    to: &Path,
) -> Result<Deltas, AllocError>
    requires there { IsTrue (has_collection tables.now id) }
    requires named { to.now ≢ [] }
    ensures { IfOk result (MovesCollection tables.now id parent to.now) }
{
    let name = last_name(to);
    match tables.collection(id) {
        None => unreachable!(),
        Some(row) => {
            let row = collection_row(alloc, id, parent, name, row.inherit)?;
            Ok(Deltas::from_vec(vec![in alloc; Delta::Collection(row)]?))
        }
    }
}

// The change that moves the object with this id to the path, in this collection. Fails for want of memory alone.
fn moved_object(
    alloc: Global,
    tables: &Tables,
    id: u64,
    collection: u64,
    to: &Path,
) -> Result<Deltas, AllocError>
    requires there { IsTrue (has_object tables.now id) }
    requires named { to.now ≢ [] }
    ensures { IfOk result (MovesObject tables.now id collection to.now) }
{
    let name = last_name(to);
    match tables.object(id) {
        None => unreachable!(),
        Some(row) => {
            let row = object_row(
                alloc, row.id, collection, name, row.size, row.digest, row.time,
            )?;
            Ok(Deltas::from_vec(vec![in alloc; Delta::Object(row)]?))
        }
    }
}

// The row of an object with a copy of this name. Fails for want of memory alone.
fn object_row(
    alloc: Global,
    id: u64,
    collection: u64,
    name: &[u8],
    size: u64,
    digest: Digest,
    time: u64,
) -> Result<ObjectRow, AllocError>
    requires { IsTrue (is_name name.now) }
    ensures row { IfOk result (λ row. row ≡ record { id = id; collection = collection; name = name.now; size = size; digest = digest; time = time }) }
    ensures spelled { IfOk result (λ row. IsTrue (can_be_kept (delta.Object row))) }
{
    name_is_text(name);
    digest_is_kept(digest);
    let name = Text::copy_of(alloc, name)?;
    Ok(ObjectRow {
        id,
        collection,
        name,
        size,
        digest,
        time,
    })
}

// The last name of the path.
fn last_name(path: &Path) -> &[u8]
    requires { path.now ≢ [] }
    ensures { IsLastName path.now result.now }
{
    match path.names().split_last() {
        None => unreachable!(),
        Some((name, _)) => name.as_slice(),
    }
}

ghost use Rattle.std.specs.Prelude.{◌≡◌, ◌≢◌, ◌∷◌, [], false, true, IsTrue, IfOk};
ghost use Rattle.grid_model.specs.Applying.{IsMade, is_user};
ghost use Rattle.grid_model.specs.Levels.{may};
ghost use Rattle.grid_model.specs.Names.{Path as PathOf};
ghost use Rattle.grid_model.specs.Operations.Common.{is_taken};
ghost use Rattle.grid_model.specs.Operations.Table.{mkdir};
ghost use Rattle.grid_model.specs.RowGrids.{grid_of, user_name};
ghost use Rattle.plan_base.specs.Found.{LiesIn};
ghost use Rattle.plan_base.specs.Plans.{PlansChange};
ghost use Rattle.plan_coll.specs.NewCollections.{IsRowFor, MakesCollection};

use grid_model::{
    CollectionRow, Delta, Deltas, Item, ItemKind, Level, Path, PlanError, Refusal, Text,
};
use grid_tables::{Kind, Tables};
use plan_base::{
    collection_above, hands_on, has_room, is_taken, may_at, name_is_text, next_collection_id,
    push_new_entries,
};
use std::alloc::{AllocError, Global};

/// Plans the making of a collection at the path by the user (`mkdir`).
pub fn plan_mkdir(
    alloc: Global,
    tables: &Tables,
    user: u32,
    path: &Path,
) -> Result<Deltas, PlanError>
    requires made { IsMade tables.now }
    requires user { IsTrue (is_user tables.now user) }
    ensures { PlansChange tables.now (user_name tables.now user) (mkdir path.now) result }
{
    let parent = match collection_above(alloc, tables, path) {
        Err(error) => return Err(error),
        Ok(parent) => parent,
    };
    if !may_at(tables, user, Item::Collection(parent), Level::Write) {
        return Err(PlanError::Refused(Refusal::NoAccess));
    }
    if is_taken(tables, path) {
        return Err(PlanError::Refused(Refusal::Exists));
    }
    let Ok(deltas) = new_collection(alloc, tables, user, parent, path) else {
        return Err(PlanError::Memory);
    };
    if let Err(refusal) = has_room(tables, Kind::Collections, 1) {
        return Err(PlanError::Refused(refusal));
    }
    let entries = deltas.as_slice().len() as u64 - 1;
    if let Err(refusal) = has_room(tables, Kind::Entries, entries) {
        return Err(PlanError::Refused(refusal));
    }
    Ok(deltas)
}

// The changes that make a collection at the path, in this parent. Fails for want of memory alone.
fn new_collection(
    alloc: Global,
    tables: &Tables,
    user: u32,
    parent: u64,
    path: &Path,
) -> Result<Deltas, AllocError>
    requires made { IsMade tables.now }
    requires inside { LiesIn tables.now path.now parent }
    ensures { IfOk result (MakesCollection tables.now user parent path.now) }
{
    let row = new_row(alloc, tables, parent, path)?;
    let id = row.id;
    let mut deltas = vec![in alloc; Delta::Collection(row)]?;
    push_new_entries(tables, &mut deltas, user, parent, ItemKind::Collection, id)?;
    Ok(Deltas::from_vec(deltas))
}

// The row of a new collection with the last name of the path. Fails for want of memory alone.
fn new_row(
    alloc: Global,
    tables: &Tables,
    parent: u64,
    path: &Path,
) -> Result<CollectionRow, AllocError>
    requires { path.now ≢ [] }
    ensures { IfOk result (IsRowFor tables.now parent path.now) }
{
    let id = next_collection_id(alloc, tables)?;
    let inherit = hands_on(tables, parent);
    match path.names().split_last() {
        None => unreachable!(),
        Some((name, _)) => {
            name_is_text(name.as_slice());
            let name = Text::copy_of(alloc, name.as_slice())?;
            Ok(CollectionRow {
                id,
                parent,
                name,
                inherit,
            })
        }
    }
}

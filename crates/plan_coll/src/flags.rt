ghost use Rattle.std.specs.Prelude.{◌≡◌, ◌∷◌, [], IsTrue, IfOk};
ghost use Rattle.grid_journal.specs.Journal.{can_be_kept};
ghost use Rattle.grid_model.specs.Applying.{IsMade, is_user};
ghost use Rattle.grid_model.specs.Operations.Table.{inherit};
ghost use Rattle.grid_model.specs.RowGrids.{user_name};
ghost use Rattle.grid_model.specs.Rows.{has_collection};
ghost use Rattle.plan_base.specs.Plans.{PlansChange};
ghost use Rattle.plan_coll.specs.Flags.{IsFlagged};

use crate::collections::collection_row;
use grid_model::{CollectionRow, Delta, Deltas, Item, Level, Path, PlanError, Refusal, Text};
use grid_tables::Tables;
use plan_base::{hands_on, may_at};
use std::alloc::{AllocError, Global};

/// Plans that the collection at the path hands its access on from now on to what is made in it, or no longer does
/// (`inherit`, `noinherit`); nothing where it is so already.
pub fn plan_inherit(
    alloc: Global,
    tables: &Tables,
    user: u32,
    path: &Path,
    on: bool,
) -> Result<Deltas, PlanError>
    requires made { IsMade tables.now }
    requires user { IsTrue (is_user tables.now user) }
    ensures { PlansChange tables.now (user_name tables.now user) (inherit path.now on) result }
{
    let id = match tables.collection_at(path) {
        None => return Err(PlanError::Refused(Refusal::NoCollection)),
        Some(id) => id,
    };
    if !may_at(tables, user, Item::Collection(id), Level::Own) {
        return Err(PlanError::Refused(Refusal::NoAccess));
    }
    if hands_on(tables, id) == on {
        return Ok(Deltas::from_vec(Vec::new(alloc)));
    }
    let row = match flagged_row(alloc, tables, id, on) {
        Err(_) => return Err(PlanError::Memory),
        Ok(row) => row,
    };
    match vec![in alloc; Delta::Collection(row)] {
        Err(_) => Err(PlanError::Memory),
        Ok(deltas) => Ok(Deltas::from_vec(deltas)),
    }
}

// The row of the collection with this id, with this flag. Fails for want of memory alone.
fn flagged_row(
    alloc: Global,
    tables: &Tables,
    id: u64,
    on: bool,
) -> Result<CollectionRow, AllocError>
    requires { IsTrue (has_collection tables.now id) }
    ensures row { IfOk result (IsFlagged tables.now id on) }
    ensures spelled { IfOk result (λ row. IsTrue (can_be_kept (Delta.Collection row))) }
{
    if id == 0 {
        return Ok(CollectionRow {
            id: 0,
            parent: 0,
            name: Text::from_vec(Vec::new(alloc)),
            inherit: on,
        });
    }
    match tables.collection(id) {
        None => unreachable!(),
        Some(row) => collection_row(alloc, id, row.parent, row.name.as_slice(), on),
    }
}

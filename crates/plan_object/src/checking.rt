ghost use Rattle.std.specs.Prelude.{◌≡◌, IsTrue};
ghost use Rattle.grid_model.specs.Applying.{IsMade, is_user};
ghost use Rattle.grid_model.specs.Operations.Objects.{may_put, may_stand};
ghost use Rattle.grid_model.specs.RowGrids.{grid_of, user_name};
ghost use Rattle.plan_base.specs.Found.{LiesIn};
ghost use Rattle.plan_object.specs.Writing.{ChecksPut, Wanted};

use crate::room::check_room;
use grid_model::{Item, Level, Mode, Path, PlanError, Refusal, Text};
use grid_tables::Tables;
use grid_tree::has_targets;
use plan_base::{collection_above, may_at};
use std::alloc::Global;

/// The resource of a put of `size` bytes at the path, or why the put is refused.
pub(crate) fn check_put(
    alloc: Global,
    tables: &Tables,
    user: u32,
    path: &Path,
    resource: &Text,
    mode: Mode,
    size: u64,
) -> Result<u32, PlanError>
    requires made { IsMade tables.now }
    requires user { IsTrue (is_user tables.now user) }
    ensures { let w : Wanted = record { path = path.now; resource = resource.now; mode = mode; size = size } in
        ChecksPut tables.now (user_name tables.now user) w result }
{
    let parent = match collection_above(alloc, tables, path) {
        Err(error) => return Err(error),
        Ok(parent) => parent,
    };
    let resource = match tables.resource_named(resource) {
        None => return Err(PlanError::Refused(Refusal::NoResource)),
        Some(resource) => resource,
    };
    if !may_put(tables, user, parent, path) {
        return Err(PlanError::Refused(Refusal::NoAccess));
    }
    if !may_stand(tables, path, mode) {
        return Err(PlanError::Refused(Refusal::Exists));
    }
    let any = match has_targets(alloc, tables, resource) {
        Err(_) => return Err(PlanError::Memory),
        Ok(any) => any,
    };
    if !any {
        return Err(PlanError::Refused(Refusal::NoTarget));
    }
    match check_room(alloc, tables, user, parent, path, size) {
        Err(error) => Err(error),
        Ok(()) => Ok(resource),
    }
}

// Whether the user may write at the object at the path, or where there is none in its collection.
fn may_put(tables: &Tables, user: u32, parent: u64, path: &Path) -> bool
    requires made { IsMade tables.now }
    requires user { IsTrue (is_user tables.now user) }
    requires inside { LiesIn tables.now path.now parent }
    ensures { (inside : LiesIn tables.now path.now parent) → result ≡ may_put (grid_of tables.now) (user_name tables.now user) inside.above path.now }
{
    match tables.object_at(path) {
        None => may_at(tables, user, Item::Collection(parent), Level::Write),
        Some(id) => may_at(tables, user, Item::Object(id), Level::Write),
    }
}

// Whether what is at the path may be written: nothing where the object is to be new, and no collection.
fn may_stand(tables: &Tables, path: &Path, mode: Mode) -> bool
    requires { IsMade tables.now }
    ensures { result ≡ may_stand (grid_of tables.now) path.now mode }
{
    match tables.collection_at(path) {
        Some(_) => false,
        None => match mode {
            Mode::New => tables.object_at(path).is_none(),
            Mode::Over => true,
        },
    }
}

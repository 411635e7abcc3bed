ghost use Rattle.std.specs.Prelude.{◌≡◌, ◌+◌, false, length, IsTrue, IfOk, None};
ghost use Rattle.grid_model.specs.Applying.{IsMade, is_user};
ghost use Rattle.grid_model.specs.MapLists.{size};
ghost use Rattle.grid_model.specs.Operations.Common.{is_taken, with_new_item};
ghost use Rattle.grid_model.specs.RowGrids.{grid_of, user_name};
ghost use Rattle.grid_model.specs.RowPaths.{collection_at, object_at};
ghost use Rattle.plan_base.specs.Found.{LiesIn};
ghost use Rattle.plan_object.specs.Room.{FindsRoom, FindsRoomNew, FitsSize};

use grid_model::{ItemKind, Path, PlanError, Refusal};
use grid_tables::{Kind, Tables};
use plan_base::{has_room, next_object_id, push_new_entries};
use std::alloc::{AllocError, Global};

/// How many bytes an object has at most where it is put.
const OBJECT_SIZE: u64 = 16_777_216;

/// Whether there is room for an object of so many bytes at the path in this collection, or why there is none. One that is
/// there takes no room but that of its bytes.
pub(crate) fn check_room(
    alloc: Global,
    tables: &Tables,
    user: u32,
    parent: u64,
    path: &Path,
    size: u64,
) -> Result<(), PlanError>
    requires made { IsMade tables.now }
    requires user { IsTrue (is_user tables.now user) }
    requires inside { LiesIn tables.now path.now parent }
    requires free { collection_at tables.now path.now ≡ None }
    ensures { (inside : LiesIn tables.now path.now parent) → FindsRoom (grid_of tables.now) (user_name tables.now user) inside.above path.now size result }
{
    match tables.object_at(path) {
        Some(_) => check_size(size),
        None => match check_new(alloc, tables, user, parent, path) {
            Err(error) => Err(error),
            Ok(()) => check_size(size),
        },
    }
}

// Whether an object may have so many bytes.
fn check_size(size: u64) -> Result<(), PlanError>
    ensures { FitsSize size result }
{
    if size > OBJECT_SIZE {
        return Err(PlanError::Refused(Refusal::TooLarge { limit: OBJECT_SIZE }));
    }
    Ok(())
}

// Whether there is room for a new object at the path in this collection, with its access.
fn check_new(
    alloc: Global,
    tables: &Tables,
    user: u32,
    parent: u64,
    path: &Path,
) -> Result<(), PlanError>
    requires made { IsMade tables.now }
    requires user { IsTrue (is_user tables.now user) }
    requires inside { LiesIn tables.now path.now parent }
    requires free { is_taken (grid_of tables.now) path.now ≡ false }
    ensures { (inside : LiesIn tables.now path.now parent) → FindsRoomNew (grid_of tables.now) (user_name tables.now user) inside.above path.now result }
{
    if let Err(refusal) = has_room(tables, Kind::Objects, 1) {
        return Err(PlanError::Refused(refusal));
    }
    let Ok(entries) = count_entries(alloc, tables, user, parent, path) else {
        return Err(PlanError::Memory);
    };
    match has_room(tables, Kind::Entries, entries) {
        Err(refusal) => Err(PlanError::Refused(refusal)),
        Ok(()) => Ok(()),
    }
}

// How many entries a new object at the path in this collection gets. Fails for want of memory alone.
fn count_entries(
    alloc: Global,
    tables: &Tables,
    user: u32,
    parent: u64,
    path: &Path,
) -> Result<u64, AllocError>
    requires made { IsMade tables.now }
    requires user { IsTrue (is_user tables.now user) }
    requires inside { LiesIn tables.now path.now parent }
    requires free { is_taken (grid_of tables.now) path.now ≡ false }
    ensures { (inside : LiesIn tables.now path.now parent) →
        IfOk result (λ n. size (with_new_item (grid_of tables.now) (user_name tables.now user) inside.above path.now) ≡ length tables.now.entries + n) }
{
    let _names = path.names();
    let id = next_object_id(alloc, tables)?;
    let mut deltas = Vec::new(alloc);
    push_new_entries(tables, &mut deltas, user, parent, ItemKind::Object, id)?;
    Ok(deltas.len() as u64)
}

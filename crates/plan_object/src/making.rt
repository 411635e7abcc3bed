ghost use Rattle.std.specs.Prelude.{◌≡◌, ◌+◌, ◌<◌, ◌^◌, length, Ok, Some, IsTrue, IfOk};
ghost use Rattle.grid_model.specs.Applying.{IsMade};
ghost use Rattle.grid_model.specs.Deltas.{text};
ghost use Rattle.grid_model.specs.Names.{Path};
ghost use Rattle.grid_model.specs.Operations.Common.{collection_above};
ghost use Rattle.grid_model.specs.RowGrids.{grid_of};
ghost use Rattle.plan_base.specs.Found.{LiesIn};
ghost use Rattle.plan_object.specs.PutPlans.{IsNewPlan, IsObjectFor, WritesNew};
ghost use Rattle.plan_object.specs.Writing.{Recorded};

use crate::changes::{files_of, object, push_replicas, put_before};
use crate::placing::Target;
use grid_model::{
    Deltas, Digest, ItemKind, NewFiles, ObjectRow, OldFiles, Path, Plan, PlanError, Text,
};
use grid_tables::Tables;
use plan_base::{collection_above, name_is_text, next_object_id, push_new_entries};
use std::alloc::{AllocError, Global};

/// The plan that makes a new object of the user at the path on the targets: these are the size in bytes and the SHA-256 of its data.
/// Fails for want of memory alone.
pub(crate) fn new_object(
    alloc: Global,
    tables: &Tables,
    user: u32,
    path: &Path,
    targets: &[Target],
    size: u64,
    digest: Digest,
    now: u64,
) -> Result<Plan, AllocError>
    requires made { IsMade tables.now }
    requires inside { (above : Path) × (collection_above (grid_of tables.now) path.now ≡ Ok above) }
    requires few { length targets.now < 2 ^ 32 }
    requires vault { tables.now.numbers.next_vault + length targets.now < 2 ^ 64 }
    ensures { let r : Recorded = record { size = size; digest = digest; now = now } in
        IfOk result (WritesNew tables.now user path.now r targets.now) }
{
    let parent = match collection_above(alloc, tables, path) {
        Err(PlanError::Memory) => return Err(AllocError),
        Err(PlanError::Refused(_)) => unreachable!(),
        Ok(parent) => parent,
    };
    let row = new_row(alloc, tables, parent, path, size, digest, now)?;
    new_plan(alloc, tables, user, row, targets)
}

// The row of a new object at the path in this collection. Fails for want of memory alone.
fn new_row(
    alloc: Global,
    tables: &Tables,
    parent: u64,
    path: &Path,
    size: u64,
    digest: Digest,
    now: u64,
) -> Result<ObjectRow, AllocError>
    requires inside { LiesIn tables.now path.now parent }
    ensures { let r : Recorded = record { size = size; digest = digest; now = now } in
        IfOk result (IsObjectFor tables.now path.now r) }
{
    let id = next_object_id(alloc, tables)?;
    match path.names().split_last() {
        None => unreachable!(),
        Some((name, _)) => {
            name_is_text(name.as_slice());
            let name = Text::copy_of(alloc, name.as_slice())?;
            Ok(ObjectRow {
                id,
                collection: parent,
                name,
                size,
                digest,
                time: now,
            })
        }
    }
}

// The plan that puts this object of the user on the targets. Fails for want of memory alone.
fn new_plan(
    alloc: Global,
    tables: &Tables,
    user: u32,
    row: ObjectRow,
    targets: &[Target],
) -> Result<Plan, AllocError>
    requires made { IsMade tables.now }
    requires few { length targets.now < 2 ^ 32 }
    requires vault { tables.now.numbers.next_vault + length targets.now < 2 ^ 64 }
    requires name { IsTrue (text row.name).fits }
    ensures { IfOk result (IsNewPlan tables.now user row targets.now) }
{
    let first = tables.numbers().next_vault;
    let before = put_before(alloc, tables, targets)?;
    let files = files_of(alloc, first, targets)?;
    let mut after = Vec::new(alloc);
    push_new_entries(
        tables,
        &mut after,
        user,
        row.collection,
        ItemKind::Object,
        row.id,
    )?;
    push_replicas(&mut after, &row, Vec::new(alloc), first, targets)?;
    after.insert(0, object(row))?;
    Ok(Plan {
        before: Deltas::from_vec(before),
        files: NewFiles::from_vec(files),
        read: OldFiles::from_vec(Vec::new(alloc)),
        after: Deltas::from_vec(after),
    })
}

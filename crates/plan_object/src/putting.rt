ghost use Rattle.std.specs.Prelude.{◌+◌, ◌<◌, ◌≤◌, ◌^◌, length, IsTrue, IfOk};
ghost use Rattle.grid_headline.specs.Numbers.{leaf_count};
ghost use Rattle.grid_model.specs.Applying.{IsMade, is_user};
ghost use Rattle.grid_model.specs.RowGrids.{user_name};
ghost use Rattle.plan_object.specs.Writing.{FindsTargets, GoesOnlyTo, MayWrite, PlansWriting, Recorded, Wanted};

use crate::checking::check_put;
use crate::making::new_object;
use crate::placing::targets_of;
use crate::rewriting::plan_over;
use grid_model::{Digest, Mode, Path, Plan, PlanError, Text};
use grid_tables::Tables;
use grid_tree::{Leaves, targets};
use std::alloc::{AllocError, Global};

/// The leaves that a put of `size` bytes at the path goes to for this word, or why the put is refused.
pub fn put_targets(
    alloc: Global,
    tables: &Tables,
    user: u32,
    path: &Path,
    resource: &Text,
    mode: Mode,
    size: u64,
    word: u64,
) -> Result<Leaves, PlanError>
    requires made { IsMade tables.now }
    requires user { IsTrue (is_user tables.now user) }
    ensures { let w : Wanted = record { path = path.now; resource = resource.now; mode = mode; size = size } in
        FindsTargets tables.now (user_name tables.now user) w word result }
{
    match check_put(alloc, tables, user, path, resource, mode, size) {
        Err(error) => Err(error),
        Ok(resource) => match targets(alloc, tables, resource, word) {
            Err(_) => Err(PlanError::Memory),
            Ok(leaves) => Ok(leaves),
        },
    }
}

/// A plan to write a body, of which these are the size in bytes and the SHA-256, to each of the leaves, as the user's object
/// at the path from this time on: the object that is there, or a new one with the access that new ones get. An object that is
/// there keeps its access, and the numbers of its replicas on these leaves; its other replicas are stale. Fails for want of
/// memory alone.
pub fn plan_put(
    alloc: Global,
    tables: &Tables,
    user: u32,
    path: &Path,
    leaves: &Leaves,
    size: u64,
    digest: Digest,
    now: u64,
) -> Result<Plan, AllocError>
    requires made { IsMade tables.now }
    requires user { IsTrue (is_user tables.now user) }
    requires may { MayWrite tables.now path.now leaves.now }
    requires vault { tables.now.numbers.next_vault + length leaves.now < 2 ^ 64 }
    ensures plan { let r : Recorded = record { size = size; digest = digest; now = now } in
        IfOk result (PlansWriting tables.now (user_name tables.now user) path.now leaves.now r) }
    ensures slots { IfOk result (GoesOnlyTo tables.now leaves.now) }
    ensures few { IfOk result (λ plan. length plan.files ≤ leaf_count tables.now) }
{
    let targets = targets_of(alloc, tables, leaves.as_slice())?;
    // As many take more memory than there is.
    if targets.len() as u64 > u32::MAX as u64 {
        return Err(AllocError);
    }
    match tables.object_at(path) {
        Some(id) => plan_over(alloc, tables, id, targets.as_slice(), size, digest, now),
        None => new_object(
            alloc,
            tables,
            user,
            path,
            targets.as_slice(),
            size,
            digest,
            now,
        ),
    }
}

ghost use Rattle.std.specs.Prelude.{◌+◌, ◌≤◌, ◌^◌, length, IsTrue, IfOk};
ghost use Rattle.grid_headline.specs.Numbers.{leaf_count};
ghost use Rattle.grid_model.specs.Applying.{IsMade, is_user};
ghost use Rattle.grid_model.specs.Names.{Path};
ghost use Rattle.grid_model.specs.Operations.Replicas.{copy_row};
ghost use Rattle.grid_model.specs.RowGrids.{grid_of, user_name};
ghost use Rattle.plan_object.specs.CopyPlans.{FindsCopy, MayCopy};
ghost use Rattle.plan_object.specs.ReplPlans.{CopiesFile};

use crate::checking::check_put;
use crate::getting::plan_get;
use crate::making::new_object;
use crate::placing::targets_of;
use grid_model::{Mode, OldFile, Path, Plan, PlanError, Text};
use grid_tables::Tables;
use grid_tree::targets;
use std::alloc::{AllocError, Global};

/// The file that a copy of the object at `from` to `to` on the resource reads, that of its first replica that can be read; or why
/// the copy is refused.
pub fn copy_source(
    alloc: Global,
    tables: &Tables,
    user: u32,
    from: &Path,
    to: &Path,
    resource: &Text,
) -> Result<OldFile, PlanError>
    requires made { IsMade tables.now }
    requires user { IsTrue (is_user tables.now user) }
    ensures { FindsCopy tables.now (user_name tables.now user) from.now to.now resource.now result }
{
    let file = match plan_get(tables, user, from, None) {
        Err(refusal) => return Err(PlanError::Refused(refusal)),
        Ok(file) => file,
    };
    match check_put(alloc, tables, user, to, resource, Mode::New, file.size) {
        Err(error) => Err(error),
        Ok(_) => Ok(file),
    }
}

/// A plan that makes a new object of the user at `to`, from this time on, with the access that new ones get: each leaf that the
/// resource gives for this word has its replica, whose bytes are copied from the file that `copy_source` finds. Fails for want of
/// memory alone.
pub fn plan_copy(
    alloc: Global,
    tables: &Tables,
    user: u32,
    to: &Path,
    resource: &Text,
    file: &OldFile,
    word: u64,
    now: u64,
) -> Result<Plan, AllocError>
    requires made { IsMade tables.now }
    requires user { IsTrue (is_user tables.now user) }
    requires may { (from : Path) × MayCopy tables.now (user_name tables.now user) from to.now resource.now file.now }
    requires vault { tables.now.numbers.next_vault + 2 ^ 32 ≤ 2 ^ 64 }
    ensures copies { let name = user_name tables.now user in (from : Path) → MayCopy tables.now name from to.now resource.now file.now →
        IfOk result (CopiesFile tables.now (copy_row (grid_of tables.now) name from to.now resource.now) word now file.now) }
    ensures few { IfOk result (λ plan. length plan.files ≤ leaf_count tables.now) }
{
    let resource = match tables.resource_named(resource) {
        None => unreachable!(),
        Some(resource) => resource,
    };
    let leaves = targets(alloc, tables, resource, word)?;
    let targets = targets_of(alloc, tables, leaves.as_slice())?;
    // As many take more memory than there is.
    if targets.len() as u64 > u32::MAX as u64 {
        return Err(AllocError);
    }
    new_object(
        alloc,
        tables,
        user,
        to,
        targets.as_slice(),
        file.size,
        file.digest,
        now,
    )
}

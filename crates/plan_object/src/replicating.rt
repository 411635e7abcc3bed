ghost use Rattle.std.specs.Prelude.{◌≡◌, ℕ, [], ◌+◌, ◌<◌, ◌≤◌, ◌^◌, length, IsTrue, IfOk};
ghost use Rattle.grid_headline.specs.Numbers.{leaf_count};
ghost use Rattle.grid_model.specs.Applying.{IsMade, is_user};
ghost use Rattle.grid_model.specs.Names.{Text};
ghost use Rattle.grid_model.specs.Operations.Replicas.{repl_row};
ghost use Rattle.grid_model.specs.RowGrids.{grid_of, user_name};
ghost use Rattle.grid_model.specs.declared.plans.OldFile.{OldFile};
ghost use Rattle.plan_object.specs.ReplPlans.{CopiesFile, FindsRepl, IsIdle, IsReplPlan, MayRepl, has_good_replica, lacking_leaves};

use crate::allowing::object_for;
use crate::changes::{files_of, push_replicas, put_before};
use crate::getting::first_file;
use crate::numbering::leaf_numbers;
use crate::placing::{Target, targets_of};
use crate::rewriting::push_replaced;
use grid_model::{
    Deltas, Level, NewFiles, ObjectRow, OldFile, OldFiles, Path, Plan, PlanError, Refusal,
    ReplicaRow, Text,
};
use grid_tables::Tables;
use grid_tree::{has_targets, targets};
use std::alloc::{AllocError, Global};

/// The file that a repl of the object at the path to the resource reads, that of its first replica that can be read; or why the
/// repl is refused.
pub fn repl_source(
    alloc: Global,
    tables: &Tables,
    user: u32,
    path: &Path,
    resource: &Text,
) -> Result<OldFile, PlanError>
    requires made { IsMade tables.now }
    requires user { IsTrue (is_user tables.now user) }
    ensures { FindsRepl tables.now (user_name tables.now user) path.now resource.now result }
{
    let id = match object_for(tables, user, path, Level::Write) {
        Err(refusal) => return Err(PlanError::Refused(refusal)),
        Ok(id) => id,
    };
    let resource = match tables.resource_named(resource) {
        None => return Err(PlanError::Refused(Refusal::NoResource)),
        Some(resource) => resource,
    };
    let any = match has_targets(alloc, tables, resource) {
        Err(_) => return Err(PlanError::Memory),
        Ok(any) => any,
    };
    if !any {
        return Err(PlanError::Refused(Refusal::NoTarget));
    }
    match tables.object(id) {
        None => unreachable!(),
        Some(object) => match first_file(tables, object, None) {
            Err(refusal) => Err(PlanError::Refused(refusal)),
            Ok(file) => Ok(file),
        },
    }
}

/// A plan after which each leaf that the resource gives for this word has a good replica of the object at the path: its files are
/// copied from the one that `repl_source` finds. A leaf with a stale replica keeps its number, and the file of that one becomes an
/// orphan. Where no leaf lacks a good replica the plan does nothing. Fails for want of memory alone.
pub fn plan_repl(
    alloc: Global,
    tables: &Tables,
    path: &Path,
    resource: &Text,
    word: u64,
) -> Result<Plan, AllocError>
    requires made { IsMade tables.now }
    requires may { (user : Text) × (from : OldFile) × MayRepl tables.now user path.now resource.now from }
    requires vault { tables.now.numbers.next_vault + 2 ^ 32 ≤ 2 ^ 64 }
    ensures copies { (user : Text) (from : OldFile) (now : ℕ) → MayRepl tables.now user path.now resource.now from →
        IfOk result (CopiesFile tables.now (repl_row (grid_of tables.now) user path.now resource.now) word now from) }
    ensures idle { IfOk result (λ plan. plan.files ≡ [] → IsIdle plan) }
    ensures few { IfOk result (λ plan. length plan.files ≤ leaf_count tables.now) }
{
    let id = match tables.object_at(path) {
        None => unreachable!(),
        Some(id) => id,
    };
    let resource = match tables.resource_named(resource) {
        None => unreachable!(),
        Some(resource) => resource,
    };
    let leaves = targets(alloc, tables, resource, word)?;
    let lacking = lacking_leaves(alloc, tables.replicas_of(id), leaves.as_slice())?;
    let targets = targets_of(alloc, tables, lacking.as_slice())?;
    // As many take more memory than there is.
    if targets.len() as u64 > u32::MAX as u64 {
        return Err(AllocError);
    }
    match tables.object(id) {
        None => unreachable!(),
        Some(row) => replicas_plan(alloc, tables, row, targets.as_slice()),
    }
}

// The leaves on which no replica is good. Fails for want of memory alone.
fn lacking_leaves(
    alloc: Global,
    rows: &[ReplicaRow],
    leaves: &[u32],
) -> Result<Vec<u32>, AllocError>
    ensures { IfOk result (λ lacking. lacking.items ≡ lacking_leaves rows.now leaves.now) }
{
    let mut lacking = Vec::new(alloc);
    for leaf in leaves {
        if !has_good_replica(rows, *leaf) {
            lacking.push(*leaf)?;
        }
    }
    Ok(lacking)
}

// Whether one of these replicas is good and on the leaf.
fn has_good_replica(rows: &[ReplicaRow], leaf: u32) -> bool
    ensures { result ≡ has_good_replica rows.now leaf }
{
    rows.iter().any(|row| row.good && row.leaf == leaf)
}

// The plan that puts new replicas of an object on the targets, and does nothing where there is none. Fails for want of memory alone.
fn replicas_plan(
    alloc: Global,
    tables: &Tables,
    row: &ObjectRow,
    targets: &[Target],
) -> Result<Plan, AllocError>
    requires few { length targets.now < 2 ^ 32 }
    requires vault { tables.now.numbers.next_vault + length targets.now < 2 ^ 64 }
    ensures { IfOk result (IsReplPlan tables.now row.now targets.now) }
{
    if targets.is_empty() {
        return Ok(idle_plan(alloc));
    }
    let first = tables.numbers().next_vault;
    let rows = tables.replicas_of(row.id);
    // As many take more memory than there is.
    if rows.len() as u64 > u32::MAX as u64 - targets.len() as u64 {
        return Err(AllocError);
    }
    let before = put_before(alloc, tables, targets)?;
    let files = files_of(alloc, first, targets)?;
    let taken = leaf_numbers(alloc, rows)?;
    let mut after = Vec::new(alloc);
    push_replaced(&mut after, rows, targets)?;
    push_replicas(&mut after, row, taken, first, targets)?;
    Ok(Plan {
        before: Deltas::from_vec(before),
        files: NewFiles::from_vec(files),
        read: OldFiles::from_vec(Vec::new(alloc)),
        after: Deltas::from_vec(after),
    })
}

// The plan that does nothing.
fn idle_plan(alloc: Global) -> Plan
    ensures { IsIdle result }
{
    Plan {
        before: Deltas::from_vec(Vec::new(alloc)),
        files: NewFiles::from_vec(Vec::new(alloc)),
        read: OldFiles::from_vec(Vec::new(alloc)),
        after: Deltas::from_vec(Vec::new(alloc)),
    }
}

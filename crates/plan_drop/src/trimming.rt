ghost use Rattle.std.specs.Prelude.{◌≡◌, ◌&&◌, filter, not, IsTrue, IfOk};
ghost use Rattle.std.specs.List.{AllByRecursion, list_all, list_any};
ghost use Rattle.file_laws.specs.Rewriting.{replicas_dropped};
ghost use Rattle.grid_journal.specs.Journal.{can_be_kept};
ghost use Rattle.grid_model.specs.Applying.{IsMade, is_user};
ghost use Rattle.grid_model.specs.Operations.Table.{trim};
ghost use Rattle.grid_model.specs.RowGrids.{user_name};
ghost use Rattle.grid_model.specs.Rows.{has_resource};
ghost use Rattle.plan_drop.specs.Stored.{is_row_in, stored_rows};
ghost use Rattle.plan_base.specs.Plans.{PlansChange};

use crate::replicas::push_dropped;
use grid_model::{Deltas, Item, Level, Path, PlanError, Refusal, ReplicaRow, Text};
use grid_tables::Tables;
use grid_tree::is_in;
use plan_base::may_at;
use std::alloc::{AllocError, Global};

/// Plans that the object's replicas at or below the resource go (`trim`).
pub fn plan_trim(
    alloc: Global,
    tables: &Tables,
    user: u32,
    path: &Path,
    resource: &Text,
) -> Result<Deltas, PlanError>
    requires made { IsMade tables.now }
    requires user { IsTrue (is_user tables.now user) }
    ensures { PlansChange tables.now (user_name tables.now user) (trim path.now resource.now) result }
{
    let id = match tables.object_at(path) {
        None => return Err(PlanError::Refused(Refusal::NoObject)),
        Some(id) => id,
    };
    if !may_at(tables, user, Item::Object(id), Level::Own) {
        return Err(PlanError::Refused(Refusal::NoAccess));
    }
    let upper = match tables.resource_named(resource) {
        None => return Err(PlanError::Refused(Refusal::NoResource)),
        Some(upper) => upper,
    };
    let rows = tables.replicas_of(id);
    let gone = match rows_in(alloc, tables, upper, rows) {
        Err(_) => return Err(PlanError::Memory),
        Ok(gone) => gone,
    };
    if gone.as_slice().is_empty() {
        return Err(PlanError::Refused(Refusal::NoReplica));
    }
    if !leaves_good(tables, upper, rows) {
        return Err(PlanError::Refused(Refusal::LastGood));
    }
    match without_replicas(alloc, tables, gone.as_slice()) {
        Err(_) => Err(PlanError::Memory),
        Ok(deltas) => Ok(deltas),
    }
}

// Those of these replicas that are at or below a resource. Fails for want of memory alone.
fn rows_in(
    alloc: Global,
    tables: &Tables,
    upper: u32,
    rows: &[ReplicaRow],
) -> Result<Vec<ReplicaRow>, AllocError>
    requires made { IsMade tables.now }
    requires upper { IsTrue (has_resource tables.now upper) }
    requires leaves { AllByRecursion (λ r. IsTrue (has_resource tables.now r.leaf)) rows.now }
    ensures { IfOk result (λ found. found.items ≡ filter (is_row_in tables.now upper) rows.now) }
{
    let mut found = Vec::new(alloc);
    for row in rows {
        if is_in(tables, upper, row.leaf) {
            found.push(*row)?;
        }
    }
    Ok(found)
}

// Whether one of these replicas is good that is not at or below a resource.
fn leaves_good(tables: &Tables, upper: u32, rows: &[ReplicaRow]) -> bool
    requires made { IsMade tables.now }
    requires upper { IsTrue (has_resource tables.now upper) }
    requires leaves { AllByRecursion (λ r. IsTrue (has_resource tables.now r.leaf)) rows.now }
    ensures { result ≡ list_any (λ r. r.good && not (is_row_in tables.now upper r)) rows.now }
{
    for row in rows {
        if row.good && !is_in(tables, upper, row.leaf) {
            return true;
        }
    }
    false
}

// The changes that take these replicas away. Fails for want of memory alone.
fn without_replicas(
    alloc: Global,
    tables: &Tables,
    rows: &[ReplicaRow],
) -> Result<Deltas, AllocError>
    ensures changes { IfOk result (λ list. list ≡ replicas_dropped (stored_rows tables.now rows.now)) }
    ensures spelled { IfOk result (λ list. IsTrue (list_all can_be_kept list)) }
{
    let mut deltas = Vec::new(alloc);
    push_dropped(tables, rows, &mut deltas)?;
    Ok(Deltas::from_vec(deltas))
}

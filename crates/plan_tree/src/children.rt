ghost use Rattle.std.specs.Prelude.{◌≡◌, ◌<◌, not, nat_lt, length, IsTrue, IfOk};
ghost use Rattle.std.specs.List.{AllByRecursion, list_all};
ghost use Rattle.grid_journal.specs.Journal.{can_be_kept};
ghost use Rattle.grid_model.specs.Applying.{IsMade, is_user};
ghost use Rattle.grid_model.specs.Names.{is_name};
ghost use Rattle.grid_model.specs.Operations.Resources.{most_below};
ghost use Rattle.grid_model.specs.Operations.Table.{addchild};
ghost use Rattle.grid_model.specs.RowGrids.{user_name};
ghost use Rattle.grid_model.specs.Rows.{has_resource};
ghost use Rattle.grid_model.specs.declared.deltas.Delta.TheVariants as delta;
ghost use Rattle.plan_base.specs.Plans.{PlansChange};
ghost use Rattle.plan_tree.specs.NewChildren.{IsMovedRow, child_put, numbered_anew, place_behind};

use crate::rows::{keeps_files, row_named, with_place};
use grid_model::{Delta, Deltas, PlanError, Refusal, ResourceKind, ResourceRow, Text, TreeCause};
use grid_tables::Tables;
use grid_tree::{Child, children_in_order, is_in};
use plan_base::is_admin;
use std::alloc::{AllocError, Global};

/// Plans that the one resource is the last child of the other from now on (`addchild`). Where a child of the parent has
/// the place 2^32 - 1 in its row, the children are first numbered anew from 0, in their order.
pub fn plan_addchild(
    alloc: Global,
    tables: &Tables,
    user: u32,
    parent: &Text,
    child: &Text,
) -> Result<Deltas, PlanError>
    requires made { IsMade tables.now }
    requires user { IsTrue (is_user tables.now user) }
    ensures { PlansChange tables.now (user_name tables.now user) (addchild parent.now child.now) result }
{
    if !is_admin(tables, user) {
        return Err(PlanError::Refused(Refusal::NotAdmin));
    }
    let upper = match row_named(tables, parent) {
        None => return Err(PlanError::Refused(Refusal::NoResource)),
        Some(upper) => upper,
    };
    let lower = match row_named(tables, child) {
        None => return Err(PlanError::Refused(Refusal::NoResource)),
        Some(lower) => lower,
    };
    if keeps_files(upper.kind) {
        return Err(bad_tree(TreeCause::Leaf));
    }
    if lower.parent != 0 {
        return Err(bad_tree(TreeCause::HasParent));
    }
    if is_in(tables, lower.id, upper.id) {
        return Err(bad_tree(TreeCause::Cycle));
    }
    let kids = match children_in_order(alloc, tables, upper.id) {
        Err(_) => return Err(PlanError::Memory),
        Ok(kids) => kids,
    };
    if is_full(upper.kind, kids.len()) {
        return Err(bad_tree(TreeCause::Full));
    }
    match put_behind(alloc, tables, upper.id, lower, kids.as_slice()) {
        Err(_) => Err(PlanError::Memory),
        Ok(deltas) => Ok(Deltas::from_vec(deltas)),
    }
}

// The refusal of a tree for this cause.
fn bad_tree(cause: TreeCause) -> PlanError
    ensures { result ≡ PlanError.Refused (Refusal.BadTree cause) }
{
    PlanError::Refused(Refusal::BadTree { cause })
}

// Whether one child more would be too many below a resource of this kind that has so many.
fn is_full(kind: ResourceKind, count: usize) -> bool
    ensures { result ≡ not (nat_lt count (most_below kind)) }
{
    let most = match kind {
        ResourceKind::Passthru => 1,
        ResourceKind::Storage | ResourceKind::Random | ResourceKind::Replication => 64,
    };
    count >= most
}

// The changes that put a resource behind these children of another one. Fails for want of memory alone.
fn put_behind(
    alloc: Global,
    tables: &Tables,
    parent: u32,
    child: &ResourceRow,
    kids: &[Child],
) -> Result<Vec<Delta>, AllocError>
    requires made { IsMade tables.now }
    requires few { length kids.now < 64 }
    requires there { AllByRecursion (λ k. IsTrue (has_resource tables.now k.id)) kids.now }
    requires named { IsTrue (is_name child.now.name) }
    ensures changes { IfOk result (λ deltas. deltas.items ≡ child_put tables.now parent child.now kids.now) }
    ensures spelled { IfOk result (λ deltas. IsTrue (list_all can_be_kept deltas.items)) }
{
    if let Some(place) = place_behind(kids) {
        let row = with_place(alloc, child, parent, place)?;
        return Ok(vec![in alloc; Delta::Resource(row)]?);
    }
    let mut deltas = numbered_anew(alloc, tables, kids)?;
    let row = with_place(alloc, child, parent, kids.len() as u32)?;
    deltas.push(Delta::Resource(row))?;
    Ok(deltas)
}

// The place behind these; none where the last of them has the last place that there can be.
fn place_behind(kids: &[Child]) -> Option<u32>
    ensures { result ≡ place_behind kids.now }
{
    match kids.last() {
        None => Some(0),
        Some(last) => {
            if last.place == u32::MAX {
                return None;
            }
            Some(last.place + 1)
        }
    }
}

// The changes that give these children the places from 0 on. Fails for want of memory alone.
fn numbered_anew(alloc: Global, tables: &Tables, kids: &[Child]) -> Result<Vec<Delta>, AllocError>
    requires made { IsMade tables.now }
    requires few { length kids.now < 64 }
    requires there { AllByRecursion (λ k. IsTrue (has_resource tables.now k.id)) kids.now }
    ensures changes { IfOk result (λ deltas. deltas.items ≡ numbered_anew tables.now 0 kids.now) }
    ensures spelled { IfOk result (λ deltas. IsTrue (list_all can_be_kept deltas.items)) }
{
    let mut deltas = Vec::new(alloc);
    let mut place = 0;
    for kid in kids {
        deltas.push(Delta::Resource(moved_row(alloc, tables, kid.id, place)?))?;
        place += 1;
    }
    Ok(deltas)
}

// The row of the resource with this id at another place of its parent. Fails for want of memory alone.
fn moved_row(alloc: Global, tables: &Tables, id: u32, place: u32) -> Result<ResourceRow, AllocError>
    requires made { IsMade tables.now }
    requires there { IsTrue (has_resource tables.now id) }
    ensures row { IfOk result (IsMovedRow tables.now id place) }
    ensures spelled { IfOk result (λ row. IsTrue (can_be_kept (delta.Resource row))) }
{
    match tables.resource(id) {
        None => unreachable!(),
        Some(row) => with_place(alloc, row, row.parent, place),
    }
}

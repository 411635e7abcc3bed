ghost use Rattle.std.specs.Prelude.{◌≡◌, ◌+◌, ◌<◌, ◌++◌, ◌^◌, [], ◌∷◌, length, IsTrue, IfOk, OnOk};
ghost use Rattle.std.specs.List.{list_all};
ghost use Rattle.grid_journal.specs.Journal.{can_be_kept};
ghost use Rattle.grid_model.specs.Deltas.{text};
ghost use Rattle.grid_model.specs.Names.{is_name};
ghost use Rattle.grid_model.specs.Rows.{has_object};
ghost use Rattle.file_laws.specs.Rewriting.{replicas_dropped, replicas_staled};
ghost use Rattle.plan_object.specs.OverPlans.{IsOverPlan, WritesOver, outdated, replaced, rewritten};
ghost use Rattle.plan_object.specs.Writing.{Recorded};

use crate::changes::{
    files_of, no_replica, object, orphan, push_replicas, put_before, stale_replica,
};
use crate::numbering::leaf_numbers;
use crate::placing::{Target, has_leaf, slot_on};
use grid_model::{Delta, Deltas, Digest, NewFiles, ObjectRow, OldFiles, Plan, ReplicaRow, Text};
use grid_tables::Tables;
use plan_base::name_is_text;
use std::alloc::{AllocError, Global};

/// The plan that writes over the object with this id: its new replicas come to the targets. Fails for want of memory alone.
pub(crate) fn plan_over(
    alloc: Global,
    tables: &Tables,
    id: u64,
    targets: &[Target],
    size: u64,
    digest: Digest,
    now: u64,
) -> Result<Plan, AllocError>
    requires there { IsTrue (has_object tables.now id) }
    requires few { length targets.now < 2 ^ 32 }
    requires vault { tables.now.numbers.next_vault + length targets.now < 2 ^ 64 }
    ensures { let r : Recorded = record { size = size; digest = digest; now = now } in
        IfOk result (WritesOver tables.now id r targets.now) }
{
    match tables.object(id) {
        None => unreachable!(),
        Some(old) => {
            let row = rewritten(alloc, old, size, digest, now)?;
            over_plan(alloc, tables, row, targets)
        }
    }
}

// The object's row with what is recorded. Fails for want of memory alone.
fn rewritten(
    alloc: Global,
    old: &ObjectRow,
    size: u64,
    digest: Digest,
    now: u64,
) -> Result<ObjectRow, AllocError>
    requires { IsTrue (is_name old.now.name) }
    ensures row { let r : Recorded = record { size = size; digest = digest; now = now } in
        IfOk result (λ row. row ≡ rewritten old.now r) }
    ensures name { IfOk result (λ row. IsTrue (text row.name).fits) }
{
    name_is_text(old.name.as_slice());
    let name = Text::copy_of(alloc, old.name.as_slice())?;
    Ok(ObjectRow {
        id: old.id,
        collection: old.collection,
        name,
        size,
        digest,
        time: now,
    })
}

// The plan that puts this row in the place of the object's, and its replicas on the targets. Fails for want of memory alone.
fn over_plan(
    alloc: Global,
    tables: &Tables,
    row: ObjectRow,
    targets: &[Target],
) -> Result<Plan, AllocError>
    requires few { length targets.now < 2 ^ 32 }
    requires vault { tables.now.numbers.next_vault + length targets.now < 2 ^ 64 }
    requires name { IsTrue (text row.name).fits }
    ensures { IfOk result (IsOverPlan tables.now row targets.now) }
{
    let first = tables.numbers().next_vault;
    let rows = tables.replicas_of(row.id);
    // As many take more memory than there is.
    if rows.len() as u64 > u32::MAX as u64 - targets.len() as u64 {
        return Err(AllocError);
    }
    let before = put_before(alloc, tables, targets)?;
    let files = files_of(alloc, first, targets)?;
    let taken = leaf_numbers(alloc, rows)?;
    let mut placed = Vec::new(alloc);
    push_replicas(&mut placed, &row, taken, first, targets)?;
    let mut after = Vec::new(alloc);
    push_replaced(&mut after, rows, targets)?;
    push_outdated(&mut after, rows, targets)?;
    after.push(object(row))?;
    after.append(&mut placed)?;
    Ok(Plan {
        before: Deltas::from_vec(before),
        files: NewFiles::from_vec(files),
        read: OldFiles::from_vec(Vec::new(alloc)),
        after: Deltas::from_vec(after),
    })
}

/// Adds the changes that take away the replicas on the targets and make their files orphans. Fails for want of memory alone.
pub(crate) fn push_replaced(
    deltas: &mut Vec<Delta>,
    rows: &[ReplicaRow],
    targets: &[Target],
) -> Result<(), AllocError>
    ensures replaced { OnOk result (deltas.new.items ≡ deltas.old.items ++ replicas_dropped (replaced targets.now rows.now)) }
    ensures spelled { OnOk result (IsTrue (list_all can_be_kept deltas.old.items) → IsTrue (list_all can_be_kept deltas.new.items)) }
{
    for row in rows {
        push_if_replaced(deltas, row, targets)?;
    }
    Ok(())
}

// The same for one replica, where it is on a target.
fn push_if_replaced(
    deltas: &mut Vec<Delta>,
    row: &ReplicaRow,
    targets: &[Target],
) -> Result<(), AllocError>
    ensures replaced { OnOk result (deltas.new.items ≡ deltas.old.items ++ replicas_dropped (replaced targets.now (row.now ∷ []))) }
    ensures spelled { OnOk result (IsTrue (list_all can_be_kept deltas.old.items) → IsTrue (list_all can_be_kept deltas.new.items)) }
{
    match slot_on(targets, row.leaf) {
        None => Ok(()),
        Some(slot) => {
            deltas.push(no_replica(row.object, row.number))?;
            deltas.push(orphan(row.vault, slot))?;
            Ok(())
        }
    }
}

// Adds the changes after which the good replicas that are on no target are stale.
fn push_outdated(
    deltas: &mut Vec<Delta>,
    rows: &[ReplicaRow],
    targets: &[Target],
) -> Result<(), AllocError>
    ensures outdated { OnOk result (deltas.new.items ≡ deltas.old.items ++ replicas_staled (outdated targets.now rows.now)) }
    ensures spelled { OnOk result (IsTrue (list_all can_be_kept deltas.old.items) → IsTrue (list_all can_be_kept deltas.new.items)) }
{
    for row in rows {
        push_if_outdated(deltas, row, targets)?;
    }
    Ok(())
}

// The same for one replica, where it is good and on no target.
fn push_if_outdated(
    deltas: &mut Vec<Delta>,
    row: &ReplicaRow,
    targets: &[Target],
) -> Result<(), AllocError>
    ensures outdated { OnOk result (deltas.new.items ≡ deltas.old.items ++ replicas_staled (outdated targets.now (row.now ∷ []))) }
    ensures spelled { OnOk result (IsTrue (list_all can_be_kept deltas.old.items) → IsTrue (list_all can_be_kept deltas.new.items)) }
{
    if !row.good || has_leaf(targets, row.leaf) {
        return Ok(());
    }
    deltas.push(stale_replica(row))?;
    Ok(())
}

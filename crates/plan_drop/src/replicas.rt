ghost use Rattle.std.specs.Prelude.{◌≡◌, ◌++◌, IsTrue, OnOk};
ghost use Rattle.std.specs.List.{list_all};
ghost use Rattle.file_laws.specs.Rewriting.{replicas_dropped};
ghost use Rattle.grid_journal.specs.Journal.{can_be_kept};
ghost use Rattle.plan_drop.specs.Stored.{slot_behind, stored_rows};

use grid_model::{Delta, OrphanRow, ReplicaRow};
use grid_tables::Tables;
use std::alloc::{AllocError, Global};

/// Adds the changes after which these replicas are gone and their files are orphans. Fails for want of memory alone.
pub(crate) fn push_dropped(
    tables: &Tables,
    rows: &[ReplicaRow],
    deltas: &mut Vec<Delta>,
) -> Result<(), AllocError>
    ensures changes { OnOk result (deltas.new.items ≡ deltas.old.items ++ replicas_dropped (stored_rows tables.now rows.now)) }
    ensures spelled { OnOk result (IsTrue (list_all can_be_kept deltas.old.items) → IsTrue (list_all can_be_kept deltas.new.items)) }
{
    for row in rows {
        deltas.push(no_replica(row.object, row.number))?;
        deltas.push(new_orphan(row.vault, slot_behind(tables, row.leaf)))?;
    }
    Ok(())
}

// The slot of the store behind the leaf with this id; 0 where there is none.
fn slot_behind(tables: &Tables, leaf: u32) -> u8
    ensures { result ≡ slot_behind tables.now leaf }
{
    match tables.resource(leaf) {
        None => 0,
        Some(row) => row.slot,
    }
}

// The change that takes a replica away.
fn no_replica(object: u64, number: u32) -> Delta
    ensures change { result ≡ Delta.NoReplica object number }
    ensures spelled { IsTrue (can_be_kept result) }
{
    Delta::NoReplica { object, number }
}

// The change that makes a file an orphan.
fn new_orphan(vault: u64, slot: u8) -> Delta
    ensures change { result ≡ Delta.Orphan (record { vault = vault; slot = slot }) }
    ensures spelled { IsTrue (can_be_kept result) }
{
    Delta::Orphan(OrphanRow { vault, slot })
}

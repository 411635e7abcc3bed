ghost use Rattle.std.specs.Prelude.{◌≡◌, ◌++◌, IsTrue, IfOk, OnOk};
ghost use Rattle.std.specs.List.{list_all, AllByRecursion};
ghost use Rattle.grid_journal.specs.Journal.{AreSpelled, can_be_kept};
ghost use Rattle.grid_model.specs.Applying.{IsMade, gives_access};
ghost use Rattle.grid_model.specs.Rows.{id_of, kind_of};
ghost use Rattle.plan_base.specs.Forgetting.{forgotten, no_entries, no_triples};

use grid_model::{Delta, EntryRow, Item, ItemKind, Text, TripleRow};
use grid_tables::Tables;
use std::alloc::{AllocError, Global};

/// Adds the changes that take all metadata and all access of an item away. Fails for want of memory alone.
pub fn push_forgotten(
    alloc: Global,
    tables: &Tables,
    deltas: &mut Vec<Delta>,
    item: Item,
) -> Result<(), AllocError>
    requires made { IsMade tables.now }
    requires spelled { AreSpelled tables.now.triples }
    ensures changes { OnOk result (deltas.new.items ≡ deltas.old.items ++ forgotten tables.now (kind_of item) (id_of item)) }
    ensures spelled { OnOk result (IsTrue (list_all can_be_kept deltas.old.items) → IsTrue (list_all can_be_kept deltas.new.items)) }
{
    push_no_triples(alloc, tables.triples_of(item), deltas)?;
    push_no_entries(tables.access_of(item), deltas)?;
    Ok(())
}

// Adds a change for each of these that takes it away.
fn push_no_triples(
    alloc: Global,
    rows: &[TripleRow],
    deltas: &mut Vec<Delta>,
) -> Result<(), AllocError>
    requires { AreSpelled rows.now }
    ensures changes { OnOk result (deltas.new.items ≡ deltas.old.items ++ no_triples rows.now) }
    ensures spelled { OnOk result (IsTrue (list_all can_be_kept deltas.old.items) → IsTrue (list_all can_be_kept deltas.new.items)) }
{
    for row in rows {
        deltas.push(no_triple(alloc, row)?)?;
    }
    Ok(())
}

// Adds a change for each of these that takes it away.
fn push_no_entries(rows: &[EntryRow], deltas: &mut Vec<Delta>) -> Result<(), AllocError>
    requires { AllByRecursion (λ e. IsTrue (gives_access e.kind)) rows.now }
    ensures changes { OnOk result (deltas.new.items ≡ deltas.old.items ++ no_entries rows.now) }
    ensures spelled { OnOk result (IsTrue (list_all can_be_kept deltas.old.items) → IsTrue (list_all can_be_kept deltas.new.items)) }
{
    for row in rows {
        deltas.push(no_entry(row.kind, row.id, row.user))?;
    }
    Ok(())
}

// The change that takes this metadata away.
fn no_triple(alloc: Global, row: &TripleRow) -> Result<Delta, AllocError>
    ensures { IfOk result (λ change. change ≡ Delta.NoTriple row.now) }
{
    Ok(Delta::NoTriple(TripleRow {
        kind: row.kind,
        id: row.id,
        attribute: Text::copy_of(alloc, row.attribute.as_slice())?,
        value: Text::copy_of(alloc, row.value.as_slice())?,
        unit: Text::copy_of(alloc, row.unit.as_slice())?,
    }))
}

// The change that takes the access of a user or a group at the item of this kind and id away.
fn no_entry(kind: ItemKind, id: u64, user: u32) -> Delta
    requires { IsTrue (gives_access kind) }
    ensures change { result ≡ Delta.NoEntry kind id user }
    ensures spelled { IsTrue (can_be_kept result) }
{
    Delta::NoEntry { kind, id, user }
}

ghost use Rattle.std.specs.Prelude.{◌≡◌, ◌++◌, None, flat_map, IsTrue, OnOk};
ghost use Rattle.std.specs.List.{AllByRecursion};
ghost use Rattle.grid_model.specs.Applying.{IsMade};
ghost use Rattle.grid_model.specs.Rows.{has_resource};
ghost use Rattle.query_run.specs.Parts.{AreWords, CanBeShown, KeepsWords, all_rows_of, row_of, row_with, rows_of, rows_with};

use crate::cells::cells;
use crate::conditions::meets_stage;
use crate::parts::Parts;
use crate::stages::{Stage, names_stage};
use grid_model::{Item, Query, ReplicaRow, Texts, TripleRow};
use grid_tables::Tables;
use std::alloc::{AllocError, Global};

/// Adds what the query shows of a collection or of an object in it: a row for each of the replicas and the triples that it asks
/// for, where they meet its conditions. Fails for want of memory alone.
pub(crate) fn push_item<'p, 't>(
    alloc: Global,
    tables: &'t Tables,
    query: &Query,
    parts: &Parts<'p, 't>,
    rows: &mut Vec<Texts>,
) -> Result<(), AllocError>
    requires made { IsMade tables.now }
    requires words { AllByRecursion AreWords tables.now.triples }
    requires shown { CanBeShown tables.now parts.now }
    requires no_replica { parts.now.replica ≡ None }
    requires no_triple { parts.now.triple ≡ None }
    ensures rows { OnOk result (rows.new.items ≡ rows.old.items ++ all_rows_of tables.now query.now parts.now) }
    ensures words { OnOk result (KeepsWords rows.old.items rows.new.items) }
{
    if !meets_stage(alloc, tables, parts, query.conds.as_slice(), Stage::OfItem)? {
        return Ok(());
    }
    let object = match parts.object {
        None => return push_replica(alloc, tables, query, parts, rows),
        Some(object) => object,
    };
    if !names_stage(query, Stage::OfReplica) {
        return push_replica(alloc, tables, query, parts, rows);
    }
    push_replicas(
        alloc,
        tables,
        query,
        parts,
        tables.replicas_of(object.id),
        rows,
    )
}

// Adds what it shows with each of these replicas.
fn push_replicas<'p, 't>(
    alloc: Global,
    tables: &'t Tables,
    query: &Query,
    parts: &Parts<'p, 't>,
    replicas: &'t [ReplicaRow],
    rows: &mut Vec<Texts>,
) -> Result<(), AllocError>
    requires made { IsMade tables.now }
    requires words { AllByRecursion AreWords tables.now.triples }
    requires leaves { AllByRecursion (λ r. IsTrue (has_resource tables.now r.leaf)) replicas.now }
    requires shown { CanBeShown tables.now parts.now }
    requires no_triple { parts.now.triple ≡ None }
    ensures rows { OnOk result (rows.new.items ≡ rows.old.items ++ flat_map (rows_with tables.now query.now parts.now) replicas.now) }
    ensures words { OnOk result (KeepsWords rows.old.items rows.new.items) }
{
    for replica in replicas {
        let chosen = Parts {
            collection: parts.collection,
            object: parts.object,
            replica: Some(replica),
            triple: parts.triple,
        };
        push_replica(alloc, tables, query, &chosen, rows)?;
    }
    Ok(())
}

// Adds what it shows with the replica that was chosen, or with none.
fn push_replica<'p, 't>(
    alloc: Global,
    tables: &'t Tables,
    query: &Query,
    parts: &Parts<'p, 't>,
    rows: &mut Vec<Texts>,
) -> Result<(), AllocError>
    requires made { IsMade tables.now }
    requires words { AllByRecursion AreWords tables.now.triples }
    requires shown { CanBeShown tables.now parts.now }
    requires no_triple { parts.now.triple ≡ None }
    ensures rows { OnOk result (rows.new.items ≡ rows.old.items ++ rows_of tables.now query.now parts.now) }
    ensures words { OnOk result (KeepsWords rows.old.items rows.new.items) }
{
    if !meets_stage(
        alloc,
        tables,
        parts,
        query.conds.as_slice(),
        Stage::OfReplica,
    )? {
        return Ok(());
    }
    let object = match parts.object {
        None => return push_row(alloc, tables, query, parts, rows),
        Some(object) => object,
    };
    if !names_stage(query, Stage::OfTriple) {
        return push_row(alloc, tables, query, parts, rows);
    }
    push_triples(
        alloc,
        tables,
        query,
        parts,
        tables.triples_of(Item::Object(object.id)),
        rows,
    )
}

// Adds what it shows with each of these triples.
fn push_triples<'p, 't>(
    alloc: Global,
    tables: &'t Tables,
    query: &Query,
    parts: &Parts<'p, 't>,
    triples: &'t [TripleRow],
    rows: &mut Vec<Texts>,
) -> Result<(), AllocError>
    requires made { IsMade tables.now }
    requires words { AllByRecursion AreWords triples.now }
    requires shown { CanBeShown tables.now parts.now }
    ensures rows { OnOk result (rows.new.items ≡ rows.old.items ++ flat_map (row_with tables.now query.now parts.now) triples.now) }
    ensures words { OnOk result (KeepsWords rows.old.items rows.new.items) }
{
    for triple in triples {
        let chosen = Parts {
            collection: parts.collection,
            object: parts.object,
            replica: parts.replica,
            triple: Some(triple),
        };
        push_row(alloc, tables, query, &chosen, rows)?;
    }
    Ok(())
}

// Adds the row with the triple that was chosen, or with none.
fn push_row(
    alloc: Global,
    tables: &Tables,
    query: &Query,
    parts: &Parts,
    rows: &mut Vec<Texts>,
) -> Result<(), AllocError>
    requires made { IsMade tables.now }
    requires shown { CanBeShown tables.now parts.now }
    ensures rows { OnOk result (rows.new.items ≡ rows.old.items ++ row_of tables.now query.now parts.now) }
    ensures words { OnOk result (KeepsWords rows.old.items rows.new.items) }
{
    if !meets_stage(
        alloc,
        tables,
        parts,
        query.conds.as_slice(),
        Stage::OfTriple,
    )? {
        return Ok(());
    }
    rows.push(cells(alloc, tables, parts, query.columns.as_slice())?)?;
    Ok(())
}

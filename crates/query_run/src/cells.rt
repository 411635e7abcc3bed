ghost use Rattle.std.specs.Prelude.{◌≡◌, map, IsTrue, IfOk};
ghost use Rattle.std.specs.List.{list_all};
ghost use Rattle.grid_model.specs.Applying.{IsMade};
ghost use Rattle.grid_model.specs.Names.{is_name};
ghost use Rattle.grid_model.specs.QueryRows.{cell, status_number};
ghost use Rattle.grid_model.specs.RowGrids.{grid_of};
ghost use Rattle.grid_model.specs.Rows.{has_resource};
ghost use Rattle.grid_model.specs.Writable.{is_word};
ghost use Rattle.query_run.specs.Parts.{AreWords, CanBeShown, combination_of, object_text, replica_text, triple_text};

use crate::parts::Parts;
use crate::stages::{is_of_collection, is_of_replica, is_of_triple};
use grid_model::{Column, ObjectRow, ReplicaRow, Text, Texts, TripleRow};
use grid_tables::Tables;
use grid_tree::hierarchy;
use plan_list::{digest_text, number_text, path_text};
use std::alloc::{AllocError, Global};

/// What a row shows in each of these columns. Fails for want of memory alone.
pub(crate) fn cells(
    alloc: Global,
    tables: &Tables,
    parts: &Parts,
    columns: &[Column],
) -> Result<Texts, AllocError>
    requires made { IsMade tables.now }
    requires shown { CanBeShown tables.now parts.now }
    ensures texts { IfOk result (λ texts. texts ≡ map (cell (grid_of tables.now) (combination_of tables.now parts.now)) columns.now) }
    ensures words { IfOk result (λ texts. IsTrue (list_all is_word texts)) }
{
    let mut texts = Vec::new(alloc);
    for column in columns {
        texts.push(cell(alloc, tables, parts, *column)?)?;
    }
    Ok(Texts::from_vec(texts))
}

/// What a row shows in a column: no bytes in one of a table of which it has nothing. Fails for want of memory alone.
pub(crate) fn cell(
    alloc: Global,
    tables: &Tables,
    parts: &Parts,
    column: Column,
) -> Result<Text, AllocError>
    requires made { IsMade tables.now }
    requires shown { CanBeShown tables.now parts.now }
    ensures text { IfOk result (λ text. text ≡ cell (grid_of tables.now) (combination_of tables.now parts.now) column) }
    ensures word { IfOk result (λ text. IsTrue (is_word text)) }
{
    if is_of_replica(column) {
        return match parts.replica {
            None => Text::copy_of(alloc, b""),
            Some(replica) => replica_cell(alloc, tables, replica, column),
        };
    }
    if is_of_triple(column) {
        return match parts.triple {
            None => Text::copy_of(alloc, b""),
            Some(triple) => triple_cell(alloc, triple, column),
        };
    }
    if is_of_collection(column) {
        return path_text(alloc, parts.collection);
    }
    match parts.object {
        None => Text::copy_of(alloc, b""),
        Some(object) => object_cell(alloc, object, column),
    }
}

// What a row of this object shows in a column of the object.
fn object_cell(alloc: Global, object: &ObjectRow, column: Column) -> Result<Text, AllocError>
    requires named { IsTrue (is_name object.now.name) }
    ensures text { IfOk result (λ text. text ≡ object_text object.now column) }
    ensures word { IfOk result (λ text. IsTrue (is_word text)) }
{
    match column {
        Column::DataName => Text::copy_of(alloc, object.name.as_slice()),
        Column::DataModifyTime => number_text(alloc, object.time),
        _ => Text::copy_of(alloc, b""),
    }
}

// What a row with this replica shows in a column of it.
fn replica_cell(
    alloc: Global,
    tables: &Tables,
    replica: &ReplicaRow,
    column: Column,
) -> Result<Text, AllocError>
    requires made { IsMade tables.now }
    requires leaf { IsTrue (has_resource tables.now replica.now.leaf) }
    ensures text { IfOk result (λ text. text ≡ replica_text tables.now replica.now column) }
    ensures word { IfOk result (λ text. IsTrue (is_word text)) }
{
    match column {
        Column::DataSize => number_text(alloc, replica.size),
        Column::DataReplNum => number_text(alloc, u64::from(replica.number)),
        Column::DataReplStatus => number_text(alloc, status_number(replica.good)),
        Column::DataRescHier => hierarchy(alloc, tables, replica.leaf),
        Column::DataChecksum => digest_text(alloc, replica.digest),
        _ => Text::copy_of(alloc, b""),
    }
}

// What a row with this triple shows in a column of it.
fn triple_cell(alloc: Global, triple: &TripleRow, column: Column) -> Result<Text, AllocError>
    requires words { AreWords triple.now }
    ensures text { IfOk result (λ text. text ≡ triple_text triple.now column) }
    ensures word { IfOk result (λ text. IsTrue (is_word text)) }
{
    match column {
        Column::MetaDataAttrName => Text::copy_of(alloc, triple.attribute.as_slice()),
        Column::MetaDataAttrValue => Text::copy_of(alloc, triple.value.as_slice()),
        Column::MetaDataAttrUnits => Text::copy_of(alloc, triple.unit.as_slice()),
        _ => Text::copy_of(alloc, b""),
    }
}

// 1 for a good replica, and 0 for a stale one.
fn status_number(good: bool) -> u64
    ensures { result ≡ status_number good }
{
    if good { 1 } else { 0 }
}

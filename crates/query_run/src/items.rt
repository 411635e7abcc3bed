ghost use Rattle.std.specs.Prelude.{◌≡◌, ◌++◌, flat_map, IsTrue, OnOk};
ghost use Rattle.std.specs.List.{AllByRecursion};
ghost use Rattle.grid_model.specs.Applying.{IsMade};
ghost use Rattle.grid_model.specs.RowGrids.{user_name};
ghost use Rattle.grid_model.specs.Rows.{has_collection, has_user};
ghost use Rattle.query_run.specs.Parts.{AreWords, KeepsWords};
ghost use Rattle.query_run.specs.Shown.{shown_collection, shown_object};

use crate::parts::Parts;
use crate::pushing::push_item;
use grid_access::may;
use grid_model::{Item, Level, Query, Texts};
use grid_tables::Tables;
use std::alloc::{AllocError, Global};

/// Adds what the query shows the user of the objects with these ids. Fails for want of memory alone.
pub(crate) fn push_objects(
    alloc: Global,
    tables: &Tables,
    user: u32,
    query: &Query,
    ids: &[u64],
    rows: &mut Vec<Texts>,
) -> Result<(), AllocError>
    requires made { IsMade tables.now }
    requires user { IsTrue (has_user tables.now user) }
    requires words { AllByRecursion AreWords tables.now.triples }
    ensures rows { OnOk result (rows.new.items ≡ rows.old.items ++ flat_map (shown_object tables.now (user_name tables.now user) query.now) ids.now) }
    ensures words { OnOk result (KeepsWords rows.old.items rows.new.items) }
{
    for id in ids {
        push_object(alloc, tables, user, query, *id, rows)?;
    }
    Ok(())
}

// Adds what it shows the user of the object with this id.
fn push_object(
    alloc: Global,
    tables: &Tables,
    user: u32,
    query: &Query,
    id: u64,
    rows: &mut Vec<Texts>,
) -> Result<(), AllocError>
    requires made { IsMade tables.now }
    requires user { IsTrue (has_user tables.now user) }
    requires words { AllByRecursion AreWords tables.now.triples }
    ensures rows { OnOk result (rows.new.items ≡ rows.old.items ++ shown_object tables.now (user_name tables.now user) query.now id) }
    ensures words { OnOk result (KeepsWords rows.old.items rows.new.items) }
{
    let row = match tables.object(id) {
        None => return Ok(()),
        Some(row) => row,
    };
    if !may(tables, user, Item::Object(id), Level::Read) {
        return Ok(());
    }
    let collection = tables.path_of(alloc, Item::Collection(row.collection))?;
    let parts = Parts {
        collection: &collection,
        object: Some(row),
        replica: None,
        triple: None,
    };
    push_item(alloc, tables, query, &parts, rows)
}

/// Adds what the query, which names no table but that of collections, shows the user of the collections with these ids. Fails for
/// want of memory alone.
pub(crate) fn push_collections(
    alloc: Global,
    tables: &Tables,
    user: u32,
    query: &Query,
    ids: &[u64],
    rows: &mut Vec<Texts>,
) -> Result<(), AllocError>
    requires made { IsMade tables.now }
    requires user { IsTrue (has_user tables.now user) }
    requires words { AllByRecursion AreWords tables.now.triples }
    requires there { AllByRecursion (λ id. IsTrue (has_collection tables.now id)) ids.now }
    ensures rows { OnOk result (rows.new.items ≡ rows.old.items ++ flat_map (shown_collection tables.now (user_name tables.now user) query.now) ids.now) }
    ensures words { OnOk result (KeepsWords rows.old.items rows.new.items) }
{
    for id in ids {
        push_collection(alloc, tables, user, query, *id, rows)?;
    }
    Ok(())
}

// Adds what it shows the user of the collection with this id.
fn push_collection(
    alloc: Global,
    tables: &Tables,
    user: u32,
    query: &Query,
    id: u64,
    rows: &mut Vec<Texts>,
) -> Result<(), AllocError>
    requires made { IsMade tables.now }
    requires user { IsTrue (has_user tables.now user) }
    requires words { AllByRecursion AreWords tables.now.triples }
    requires there { IsTrue (has_collection tables.now id) }
    ensures rows { OnOk result (rows.new.items ≡ rows.old.items ++ shown_collection tables.now (user_name tables.now user) query.now id) }
    ensures words { OnOk result (KeepsWords rows.old.items rows.new.items) }
{
    if !may(tables, user, Item::Collection(id), Level::Read) {
        return Ok(());
    }
    let collection = tables.path_of(alloc, Item::Collection(id))?;
    let parts = Parts {
        collection: &collection,
        object: None,
        replica: None,
        triple: None,
    };
    push_item(alloc, tables, query, &parts, rows)
}

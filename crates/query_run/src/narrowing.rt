ghost use Rattle.std.specs.Prelude.{◌≡◌, IsTrue, IfOk, IfSome};
ghost use Rattle.std.specs.List.{AllByRecursion};
ghost use Rattle.std.specs.List.Sorted.{IsStrictlySortedBy};
ghost use Rattle.std.specs.Ordering.{nat_cmp};
ghost use Rattle.grid_model.specs.Applying.{IsMade};
ghost use Rattle.grid_model.specs.Names.{Text as TextOf};
ghost use Rattle.grid_model.specs.Rows.{has_collection};
ghost use Rattle.grid_model.specs.declared.queries.Op.TheVariants.{Equal};
ghost use Rattle.query_run.specs.Narrowing.{WantsText, FindsPrinted, HasShownCollections, HasShownObjects, ShowsInside, object_ids};
ghost use Rattle.query_run.specs.Unsorted.{HasMembers};

use grid_model::{Column, Cond, ItemKind, Op, Path, PathError, Query, Text};
use grid_tables::{BoxedItem, ChildIds, Kind, Tables};
use sorted_list::Run;
use std::alloc::{AllocError, Global};

/// Ids of objects, among which is each of which the query shows anybody something. Where conditions with `=` ask for a collection
/// and for a name, the one so named; where they ask for an attribute, or for an attribute and a value, those with it, or those in
/// the collection that they ask for where these are fewer; and else all. Fails for want of memory alone.
pub(crate) fn objects_to_try(
    alloc: Global,
    tables: &Tables,
    query: &Query,
) -> Result<Vec<u64>, AllocError>
    requires { IsMade tables.now }
    ensures { IfOk result (λ ids. (user : TextOf) → HasShownObjects tables.now user query.now ids.items) }
{
    let text = match literal_of(query.conds.as_slice(), Column::CollName) {
        None => return objects_anywhere(alloc, tables, query),
        Some(text) => text,
    };
    match collection_printed(alloc, tables, text)? {
        None => Ok(Vec::new(alloc)),
        Some(id) => objects_inside(alloc, tables, query, id),
    }
}

// The same where it asks for no collection.
fn objects_anywhere(alloc: Global, tables: &Tables, query: &Query) -> Result<Vec<u64>, AllocError>
    requires { IsMade tables.now }
    ensures { IfOk result (λ ids. (user : TextOf) → HasShownObjects tables.now user query.now ids.items) }
{
    match items_asked_for(tables, query) {
        None => Ok(tables.ids(alloc, Kind::Objects)?.into_vec()),
        Some(items) => objects_once(alloc, items),
    }
}

// The same where it asks for this collection.
fn objects_inside(
    alloc: Global,
    tables: &Tables,
    query: &Query,
    id: u64,
) -> Result<Vec<u64>, AllocError>
    requires made { IsMade tables.now }
    requires asked { ShowsInside tables.now query.now id }
    ensures { IfOk result (λ ids. (user : TextOf) → HasShownObjects tables.now user query.now ids.items) }
{
    let name = match literal_of(query.conds.as_slice(), Column::DataName) {
        None => return fewest_inside(alloc, tables, query, id),
        Some(name) => name,
    };
    match tables.object_named(id, name) {
        None => Ok(Vec::new(alloc)),
        Some(object) => Ok(vec![in alloc; object]?),
    }
}

// The same where it asks for no name: those with the attribute that it asks for, where these are fewer than those in the
// collection.
fn fewest_inside(
    alloc: Global,
    tables: &Tables,
    query: &Query,
    id: u64,
) -> Result<Vec<u64>, AllocError>
    requires made { IsMade tables.now }
    requires asked { ShowsInside tables.now query.now id }
    ensures { IfOk result (λ ids. (user : TextOf) → HasShownObjects tables.now user query.now ids.items) }
{
    let inside = tables.objects_in(id);
    let items = match items_asked_for(tables, query) {
        None => return list_of(alloc, inside),
        Some(items) => items,
    };
    if inside.len() < items.len() {
        return list_of(alloc, inside);
    }
    objects_once(alloc, items)
}

// These ids in a list of their own.
fn list_of(alloc: Global, ids: ChildIds<'_>) -> Result<Vec<u64>, AllocError>
    ensures { IfOk result (λ list. list.items ≡ ids.entry) }
{
    ids.collect(alloc)
}

// The items with the attribute that it asks for, and with the value of that where it asks for one too.
fn items_asked_for<'t>(tables: &'t Tables, query: &Query) -> Option<Run<'t, BoxedItem>>
    requires { IsMade tables.now }
    ensures { IfSome result (λ keys. (user : TextOf) → HasShownObjects tables.now user query.now (object_ids keys)) }
{
    let conds = query.conds.as_slice();
    let attribute = match literal_of(conds, Column::MetaDataAttrName) {
        None => return None,
        Some(attribute) => attribute,
    };
    match literal_of(conds, Column::MetaDataAttrValue) {
        None => Some(tables.items_with(attribute)),
        Some(value) => Some(tables.items_with_value(attribute, value)),
    }
}

// The ids of the objects among these items, each once.
fn objects_once(alloc: Global, keys: Run<'_, BoxedItem>) -> Result<Vec<u64>, AllocError>
    ensures members { IfOk result (λ ids. HasMembers ids.items (object_ids keys.entry)) }
    ensures rising { IfOk result (λ ids. IsStrictlySortedBy nat_cmp ids.items) }
{
    let mut ids = object_ids(alloc, keys)?;
    ids.sort_unstable();
    ids.dedup();
    Ok(ids)
}

/// Ids of collections, among which is each that the query, which names no other table, shows anybody: the one that it asks for, and
/// else all. Fails for want of memory alone.
pub(crate) fn collections_to_try(
    alloc: Global,
    tables: &Tables,
    query: &Query,
) -> Result<Vec<u64>, AllocError>
    requires { IsMade tables.now }
    ensures there { IfOk result (λ ids. AllByRecursion (λ id. IsTrue (has_collection tables.now id)) ids.items) }
    ensures shown { IfOk result (λ ids. (user : TextOf) → HasShownCollections tables.now user query.now ids.items) }
{
    let text = match literal_of(query.conds.as_slice(), Column::CollName) {
        None => return Ok(tables.ids(alloc, Kind::Collections)?.into_vec()),
        Some(text) => text,
    };
    match collection_printed(alloc, tables, text)? {
        None => Ok(Vec::new(alloc)),
        Some(id) => Ok(vec![in alloc; id]?),
    }
}

// The text that one of the conditions asks for in the column.
fn literal_of<'a>(conds: &'a [Cond], column: Column) -> Option<&'a Text>
    ensures { IfSome result (λ text. WantsText conds.now column text.now) }
{
    for cond in conds {
        if asks_for(cond, column) {
            return Some(&cond.literal);
        }
    }
    None
}

// Whether it asks that the column has its text.
fn asks_for(cond: &Cond, column: Column) -> bool
    ensures { IsTrue result → (cond.now.column ≡ column) × (cond.now.op ≡ Equal) }
{
    cond.column == column && cond.op == Op::Equal
}

// The ids of the objects among these items.
fn object_ids(alloc: Global, keys: Run<'_, BoxedItem>) -> Result<Vec<u64>, AllocError>
    ensures { IfOk result (λ ids. ids.items ≡ object_ids keys.entry) }
{
    let mut ids = Vec::new(alloc);
    for key in keys {
        let item = key.item();
        if matches!(item.kind, ItemKind::Object) {
            ids.push(item.id)?;
        }
    }
    Ok(ids)
}

// The collection whose path is printed so.
fn collection_printed(
    alloc: Global,
    tables: &Tables,
    text: &Text,
) -> Result<Option<u64>, AllocError>
    requires { IsMade tables.now }
    ensures { IfOk result (FindsPrinted tables.now text.now) }
{
    match Path::parse(alloc, text.as_slice()) {
        Err(PathError::Memory) => Err(AllocError),
        Err(PathError::BadPath { .. }) => Ok(None),
        Ok(path) => Ok(tables.collection_at(&path)),
    }
}

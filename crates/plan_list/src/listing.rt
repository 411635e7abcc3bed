ghost use Rattle.std.specs.Prelude.{◌≡◌, ◌++◌, Some, IsTrue, IfOk, OnOk};
ghost use Rattle.std.specs.List.{list_all};
ghost use Rattle.grid_model.specs.Applying.{IsMade, is_user};
ghost use Rattle.grid_model.specs.RowGrids.{user_name};
ghost use Rattle.grid_model.specs.RowPaths.{collection_at};
ghost use Rattle.grid_model.specs.Writable.{is_word};
ghost use Rattle.plan_base.specs.Found.{IsAt};
ghost use Rattle.plan_list.specs.Inside.{IsChildOf};
ghost use Rattle.plan_list.specs.Listing.{Lists, shown, shown_at};

use crate::children::{child_items, item_name};
use crate::rows::item_rows;
use grid_model::{Item, Level, Path, PlanError, Refusal, Rows, Texts};
use grid_tables::Tables;
use plan_base::{item_at, may_at};
use std::alloc::{AllocError, Global};

/// The rows that are shown to a user of what is at a path (`ls`): of an object, one for each replica by its number; of a
/// collection, those of each item directly in it that the user may read, by its path. Nothing at the path is `NoObject`,
/// and what the user may not read `NoAccess`. Fails for want of memory alone else.
pub fn list_rows(alloc: Global, tables: &Tables, user: u32, path: &Path) -> Result<Rows, PlanError>
    requires made { IsMade tables.now }
    requires user { IsTrue (is_user tables.now user) }
    ensures { Lists tables.now (user_name tables.now user) path.now result }
{
    let found = match item_at(tables, path) {
        None => return Err(PlanError::Refused(Refusal::NoObject)),
        Some(item) => item,
    };
    if !may_at(tables, user, found, Level::Read) {
        return Err(PlanError::Refused(Refusal::NoAccess));
    }
    match rows_at(alloc, tables, user, found, path) {
        Err(_) => Err(PlanError::Memory),
        Ok(rows) => Ok(Rows::from_vec(rows)),
    }
}

// The rows of what is at the path, which the user may read. Fails for want of memory alone.
fn rows_at(
    alloc: Global,
    tables: &Tables,
    user: u32,
    item: Item,
    path: &Path,
) -> Result<Vec<Texts>, AllocError>
    requires made { IsMade tables.now }
    requires user { IsTrue (is_user tables.now user) }
    requires at { IsAt tables.now path.now item }
    ensures rows { IfOk result (λ rows. shown_at tables.now (user_name tables.now user) path.now item rows.items) }
    ensures words { IfOk result (λ rows. IsTrue (list_all (list_all is_word) rows.items)) }
{
    match item {
        Item::Collection(id) => child_rows(alloc, tables, user, id, path),
        Item::Object(_) => item_rows(alloc, tables, item, path),
        Item::Resource(_) | Item::User(_) => unreachable!(),
    }
}

// The rows of the items in the collection with this id, which is at the path. Fails for want of memory alone.
fn child_rows(
    alloc: Global,
    tables: &Tables,
    user: u32,
    id: u64,
    path: &Path,
) -> Result<Vec<Texts>, AllocError>
    requires made { IsMade tables.now }
    requires user { IsTrue (is_user tables.now user) }
    requires at { collection_at tables.now path.now ≡ Some id }
    ensures rows { IfOk result (λ rows. shown_at tables.now (user_name tables.now user) path.now (Item.Collection id) rows.items) }
    ensures words { IfOk result (λ rows. IsTrue (list_all (list_all is_word) rows.items)) }
{
    let items = child_items(alloc, tables, id)?;
    let mut rows = Vec::new(alloc);
    for item in &items {
        push_shown(alloc, tables, user, id, path, *item, &mut rows)?;
    }
    Ok(rows)
}

// Adds the rows of an item in the collection with this id, which is at the path, where the user may read the item. Fails
// for want of memory alone.
fn push_shown(
    alloc: Global,
    tables: &Tables,
    user: u32,
    collection: u64,
    above: &Path,
    item: Item,
    rows: &mut Vec<Texts>,
) -> Result<(), AllocError>
    requires made { IsMade tables.now }
    requires user { IsTrue (is_user tables.now user) }
    requires at { collection_at tables.now above.now ≡ Some collection }
    requires child { IsChildOf tables.now collection item }
    ensures rows { OnOk result (rows.new.items ≡ rows.old.items ++ shown tables.now (user_name tables.now user) above.now item) }
    ensures words { OnOk result (IsTrue (list_all (list_all is_word) rows.old.items) → IsTrue (list_all (list_all is_word) rows.new.items)) }
{
    if !may_at(tables, user, item, Level::Read) {
        return Ok(());
    }
    let path = above.child(alloc, item_name(tables, item))?;
    let mut more = item_rows(alloc, tables, item, &path)?;
    rows.append(&mut more)?;
    Ok(())
}

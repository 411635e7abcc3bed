ghost use Rattle.std.specs.Prelude.{◌≡◌, ◌==◌, ◌++◌, not, filter, map, IfOk, OnOk};
ghost use Rattle.grid_model.specs.Applying.{IsMade};
ghost use Rattle.grid_model.specs.Names.{text_cmp};
ghost use Rattle.grid_model.specs.declared.deltas.Item.TheVariants as item;
ghost use Rattle.plan_list.specs.Inside.{AreChildren, item_name};

use grid_model::Item;
use grid_tables::{ChildIds, Tables};
use std::alloc::{AllocError, Global};
use std::cmp::Ordering;

/// The collections and objects directly in the collection with this id, in the order of their names. Fails for want of
/// memory alone.
pub(crate) fn child_items(alloc: Global, tables: &Tables, id: u64) -> Result<Vec<Item>, AllocError>
    requires { IsMade tables.now }
    ensures { IfOk result (λ items. AreChildren tables.now id items.items) }
{
    let mut items = Vec::new(alloc);
    push_collections(&mut items, tables.collections_in(id))?;
    push_objects(&mut items, tables.objects_in(id))?;
    items.sort_by(|one, other| by_name(tables, *one, *other))?;
    Ok(items)
}

// Adds these collections but `/`.
fn push_collections(items: &mut Vec<Item>, ids: ChildIds<'_>) -> Result<(), AllocError>
    ensures { OnOk result (items.new.items ≡ items.old.items ++ map item.Collection (filter (λ id. not (id == 0)) ids.entry)) }
{
    for id in ids {
        if id != 0 {
            items.push(Item::Collection(id))?;
        }
    }
    Ok(())
}

// Adds these objects.
fn push_objects(items: &mut Vec<Item>, ids: ChildIds<'_>) -> Result<(), AllocError>
    ensures { OnOk result (items.new.items ≡ items.old.items ++ map item.Object ids.entry) }
{
    for id in ids {
        items.push(Item::Object(id))?;
    }
    Ok(())
}

// How the name of the one stands to that of the other.
fn by_name(tables: &Tables, one: Item, other: Item) -> Ordering
    ensures { result ≡ text_cmp (item_name tables.now one) (item_name tables.now other) }
{
    item_name(tables, one).cmp(item_name(tables, other))
}

/// The name of an object or a collection in the collection that it lies in; no bytes for what is not there, and for other
/// items.
pub(crate) fn item_name(tables: &Tables, item: Item) -> &[u8]
    ensures { result.now ≡ item_name tables.now item }
{
    match item {
        Item::Collection(id) => match tables.collection(id) {
            None => &[],
            Some(row) => row.name.as_slice(),
        },
        Item::Object(id) => match tables.object(id) {
            None => &[],
            Some(row) => row.name.as_slice(),
        },
        Item::Resource(_) | Item::User(_) => &[],
    }
}

// What the rows of a catalogue tell of the grid, as one text.
use grid_model::Item;
use grid_tables::{Kind, Tables};
use std::alloc::{AllocError, Global};
use std::fmt::Debug;

// A line of this row.
fn add_row<T: Debug>(alloc: Global, row: &T, text: &mut Vec<u8>) -> Result<(), AllocError> {
    let line = format!(in alloc; "{row:?}\n")?;
    text.extend_from_slice(line.as_bytes())
}

fn add_rows<T: Debug>(alloc: Global, rows: &[T], text: &mut Vec<u8>) -> Result<(), AllocError> {
    for row in rows {
        add_row(alloc, row, text)?;
    }
    Ok(())
}

// What is said of an item, and who may do what at it.
fn add_item(
    alloc: Global,
    tables: &Tables,
    item: Item,
    text: &mut Vec<u8>,
) -> Result<(), AllocError> {
    add_rows(alloc, tables.triples_of(item), text)?;
    add_rows(alloc, tables.access_of(item), text)
}

fn add_collections(alloc: Global, tables: &Tables, text: &mut Vec<u8>) -> Result<(), AllocError> {
    let ids = tables.ids(alloc, Kind::Collections)?;
    for id in ids.as_slice() {
        add_row(alloc, &tables.collection(*id), text)?;
        add_item(alloc, tables, Item::Collection(*id), text)?;
    }
    Ok(())
}

fn add_objects(alloc: Global, tables: &Tables, text: &mut Vec<u8>) -> Result<(), AllocError> {
    let ids = tables.ids(alloc, Kind::Objects)?;
    for id in ids.as_slice() {
        add_row(alloc, &tables.object(*id), text)?;
        add_rows(alloc, tables.replicas_of(*id), text)?;
        add_item(alloc, tables, Item::Object(*id), text)?;
    }
    Ok(())
}

// All rows but those of orphans, of numbers and of what is pending.
pub(crate) fn rows_of(alloc: Global, tables: &Tables) -> Result<Vec<u8>, AllocError> {
    let mut text = Vec::new(alloc);
    add_row(alloc, &tables.zone(), &mut text)?;
    add_rows(alloc, tables.users(), &mut text)?;
    add_rows(alloc, tables.members(), &mut text)?;
    add_rows(alloc, tables.resources(), &mut text)?;
    add_collections(alloc, tables, &mut text)?;
    add_objects(alloc, tables, &mut text)?;
    Ok(text)
}

//! What a line shows of the tables: a look-up what is found, and a change why it is refused, if it is.

use super::lines::{change, item, number, short, word};
use grid_model::{Path, Text};
use grid_tables::{BoxedItem, Kind, Tables};
use sorted_list::Run;
use std::alloc::{AllocError, Global};
use std::fmt::Debug;
use std::test::Fail;

// The ids of these items.
fn ids_of(alloc: Global, items: Run<'_, BoxedItem>) -> Result<Vec<u64>, AllocError> {
    let mut ids = Vec::new(alloc);
    for key in items {
        ids.push(key.item().id)?;
    }
    Ok(ids)
}

// Those with an attribute, or with a value of it.
fn items_with(
    alloc: Global,
    tables: &Tables,
    attribute: &str,
    value: &str,
) -> Result<Vec<u64>, AllocError> {
    let attribute = Text::copy_of(alloc, attribute.as_bytes())?;
    if value.is_empty() {
        return ids_of(alloc, tables.items_with(&attribute));
    }
    let value = Text::copy_of(alloc, value.as_bytes())?;
    ids_of(alloc, tables.items_with_value(&attribute, &value))
}

fn shown<T: Debug>(alloc: Global, value: &T) -> Result<String, AllocError> {
    format!(in alloc; "{value:?}")
}

fn with(alloc: Global, tables: &Tables, line: &str) -> Result<String, AllocError> {
    let ids = items_with(alloc, tables, word(line, 1), word(line, 2))?;
    shown(alloc, &ids)
}

fn path(alloc: Global, tables: &Tables, line: &str) -> Result<String, AllocError> {
    let text = tables.path_of(alloc, item(line, 1))?.print(alloc)?;
    format!(in alloc; "{}", text.as_slice().escape_ascii())
}

// The ids of the collection and of the object that stand there.
fn at(alloc: Global, tables: &Tables, line: &str) -> Result<String, Fail> {
    let path = Path::parse(alloc, word(line, 1).as_bytes())?;
    let ids = (tables.collection_at(&path), tables.object_at(&path));
    Ok(shown(alloc, &ids)?)
}

// The ids of users, resources, collections and objects that are free.
fn next(alloc: Global, tables: &Tables) -> Result<String, AllocError> {
    let short = (tables.next_user_id(), tables.next_resource_id());
    let long = (tables.next_collection_id(), tables.next_object_id());
    shown(alloc, &(short, long))
}

// How many objects there are, and the ids of the collections.
fn counts(alloc: Global, tables: &Tables) -> Result<String, AllocError> {
    let ids = tables.ids(alloc, Kind::Collections)?;
    shown(alloc, &(tables.count(Kind::Objects), ids.as_slice()))
}

// How many keys there are, and the first one.
fn run<K: Debug>(alloc: Global, found: Run<'_, K>) -> Result<String, AllocError> {
    shown(alloc, &(found.len(), found.first()))
}

fn look_up(alloc: Global, tables: &Tables, line: &str) -> Result<String, Fail> {
    let found = match word(line, 0) {
        "groups" => run(alloc, tables.groups_of(short(line, 1))),
        "open" => run(alloc, tables.items_open_to(short(line, 1))),
        "on" => run(alloc, tables.replicas_on(short(line, 1))),
        "is_empty" => shown(alloc, &tables.is_empty_collection(number(line, 1))),
        "access" => shown(alloc, &tables.access_of(item(line, 1))),
        "with" => with(alloc, tables, line),
        "path" => path(alloc, tables, line),
        "next" => next(alloc, tables),
        "counts" => counts(alloc, tables),
        _ => return at(alloc, tables, line),
    };
    Ok(found?)
}

// Makes a change. One that is refused leaves all as it was, and shows why it was.
fn make(alloc: Global, tables: &mut Tables, line: &str) -> Result<String, Fail> {
    let before = shown(alloc, tables)?;
    let done = tables.apply(change(alloc, line)?);
    let after = shown(alloc, tables)?;
    match done {
        Ok(()) => Ok(String::new(alloc)),
        Err(error) if after.as_str() == before.as_str() => Ok(shown(alloc, &error)?),
        Err(_) => Err("a change that is refused is made".into()),
    }
}

/// What the line shows, which is a look-up behind `?`, and else a change; nothing of a change that is made.
pub(crate) fn show(alloc: Global, tables: &mut Tables, line: &str) -> Result<String, Fail> {
    match line.strip_prefix('?') {
        Some(look) => look_up(alloc, tables, look),
        None => make(alloc, tables, line),
    }
}

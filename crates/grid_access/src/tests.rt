//! What users may do in a small grid.

ghost use Rattle.grid_model.specs.Applying.{IsMade, gives_access};
ghost use Rattle.grid_model.specs.Rows.{has_user, id_of, item_there, kind_of};
ghost use Rattle.std.specs.Prelude.{IsTrue};

use crate::{level, may};
use grid_model::{
    CollectionRow, Delta, Digest, EntryRow, Item, ItemKind, Level, MemberRow, ObjectRow, Text,
    UserKind, UserRow,
};
use grid_tables::{TableError, Tables};
use std::alloc::Global;
use std::process::Abort;
use std::test::Fail;

fn change(tables: &mut Tables, delta: Delta) -> Result<(), TableError>
    requires { IsMade tables.old }
    ensures { IsMade tables.new }
{
    tables.apply(delta)
}

// the administrator rods, the groups public and staff, alice, who is in staff, and bob
fn add_users(alloc: Global, tables: &mut Tables) -> Result<(), TableError>
    requires { IsMade tables.old }
    ensures { IsMade tables.new }
{
    for (id, kind, name) in [
        (1, UserKind::Rodsadmin, b"rods".as_slice()),
        (2, UserKind::Rodsgroup, b"public"),
        (3, UserKind::Rodsuser, b"alice"),
        (4, UserKind::Rodsgroup, b"staff"),
        (5, UserKind::Rodsuser, b"bob"),
    ] {
        let name = Text::copy_of(alloc, name)?;
        change(tables, Delta::User(UserRow { id, kind, name }))?;
    }
    change(tables, Delta::Member(MemberRow { group: 4, user: 3 }))
}

// `/` and `/z`
fn add_collections(alloc: Global, tables: &mut Tables) -> Result<(), TableError>
    requires { IsMade tables.old }
    ensures { IsMade tables.new }
{
    for (id, name) in [(0, b"".as_slice()), (1, b"z")] {
        let name = Text::copy_of(alloc, name)?;
        change(
            tables,
            Delta::Collection(CollectionRow {
                id,
                parent: 0,
                name,
                inherit: false,
            }),
        )?;
    }
    Ok(())
}

// five objects in `/z`
fn add_objects(alloc: Global, tables: &mut Tables) -> Result<(), TableError>
    requires { IsMade tables.old }
    ensures { IsMade tables.new }
{
    for (id, name) in [
        (1, b"own".as_slice()),
        (2, b"everybody"),
        (3, b"group"),
        (4, b"several"),
        (5, b"other"),
    ] {
        let name = Text::copy_of(alloc, name)?;
        change(
            tables,
            Delta::Object(ObjectRow {
                id,
                collection: 1,
                name,
                size: 0,
                digest: Digest::from_bytes([0; 32]),
                time: 0,
            }),
        )?;
    }
    Ok(())
}

fn add_entries(tables: &mut Tables) -> Result<(), TableError>
    requires { IsMade tables.old }
    ensures { IsMade tables.new }
{
    for (kind, id, user, level) in [
        (ItemKind::Collection, 1, 2, Level::Read),
        (ItemKind::Object, 1, 3, Level::Write),
        (ItemKind::Object, 2, 2, Level::Read),
        (ItemKind::Object, 3, 4, Level::Own),
        (ItemKind::Object, 4, 2, Level::Read),
        (ItemKind::Object, 4, 3, Level::Write),
        (ItemKind::Object, 4, 4, Level::Read),
        (ItemKind::Object, 5, 5, Level::Own),
    ] {
        change(
            tables,
            Delta::Entry(EntryRow {
                kind,
                id,
                user,
                level,
            }),
        )?;
    }
    Ok(())
}

fn fill(alloc: Global, tables: &mut Tables) -> Result<(), TableError>
    requires { IsMade tables.old }
    ensures { IsMade tables.new }
{
    add_users(alloc, tables)?;
    add_collections(alloc, tables)?;
    add_objects(alloc, tables)?;
    add_entries(tables)
}

fn is_user(tables: &Tables, id: u32) -> bool
    ensures { IsTrue result → IsTrue (has_user tables.now id) }
{
    tables.user(id).is_some()
}

// whether there is such an object or collection
fn is_there(tables: &Tables, item: Item) -> bool
    ensures { IsTrue result → IsTrue (gives_access (kind_of item)) × IsTrue (item_there tables.now (kind_of item) (id_of item)) }
{
    match item {
        Item::Object(id) => tables.object(id).is_some(),
        Item::Collection(id) => tables.collection(id).is_some(),
        Item::Resource(_) | Item::User(_) => false,
    }
}

fn levels_are_as_given(rt: &impl Abort, tables: &Tables)
    requires { IsMade tables.now }
{
    for (user, item, wanted) in [
        (1, Item::Collection(0), Level::Own),
        (1, Item::Object(5), Level::Own),
        (2, Item::Object(4), Level::Read),
        (3, Item::Collection(0), Level::Null),
        (3, Item::Collection(1), Level::Read),
        (3, Item::Object(1), Level::Write),
        (3, Item::Object(2), Level::Read),
        (3, Item::Object(3), Level::Own),
        (3, Item::Object(4), Level::Write),
        (3, Item::Object(5), Level::Null),
        (4, Item::Object(3), Level::Own),
        (5, Item::Object(1), Level::Null),
        (5, Item::Object(3), Level::Null),
        (5, Item::Object(4), Level::Read),
    ] {
        assert!(rt; is_user(tables, user));
        assert!(rt; is_there(tables, item));
        assert_eq!(rt; level(tables, user, item), wanted, "{user} at {item:?}");
    }
}

fn a_level_contains_those_before_it(rt: &impl Abort, tables: &Tables)
    requires { IsMade tables.now }
{
    assert!(rt; is_user(tables, 3));
    assert!(rt; is_there(tables, Item::Object(4)));
    for (wanted, answer) in [
        (Level::Null, true),
        (Level::Read, true),
        (Level::Write, true),
        (Level::Own, false),
    ] {
        assert_eq!(rt;
            may(tables, 3, Item::Object(4), wanted),
            answer,
            "{wanted:?}"
        );
    }
}

#[test]
fn levels_in_a_small_grid(rt: HostRuntime) -> Result<(), Fail> {
    let mut tables = Tables::empty(rt.alloc());
    fill(rt.alloc(), &mut tables)?;
    levels_are_as_given(&rt, &tables);
    a_level_contains_those_before_it(&rt, &tables);
    Ok(())
}

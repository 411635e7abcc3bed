//! A small grid: the administrator rods with a home, in which an object has two replicas.

ghost use Rattle.grid_model.specs.Applying.{IsMade, is_user};
ghost use Rattle.std.specs.Prelude.{◌≡◌, IsTrue, IfOk};

use grid_model::{
    CollectionRow, Delta, Digest, EntryRow, ItemKind, Level, Numbers, ObjectRow, ReplicaRow,
    ResourceKind, ResourceRow, Text, UserKind, UserRow,
};
use grid_tables::{TableError, Tables};
use std::alloc::Global;
use std::process::Abort;
use std::test::Fail;

/// Makes a change, which keeps the rows as changes make them.
pub(crate) fn change(tables: &mut Tables, delta: Delta) -> Result<(), TableError>
    requires { IsMade tables.old }
    ensures { IsMade tables.new }
{
    tables.apply(delta)
}

// Whether it is a user, and no group.
fn is_user(tables: &Tables, id: u32) -> bool
    ensures { result ≡ is_user tables.now id }
{
    tables.users().iter().any(|row| row.id == id && !matches!(row.kind, UserKind::Rodsgroup))
}

/// The id of the user of this name.
pub(crate) fn user_of(
    rt: &impl Abort,
    alloc: Global,
    tables: &Tables,
    name: &str,
) -> Result<u32, Fail>
    ensures { IfOk result (λ id. IsTrue (is_user tables.now id)) }
{
    let name = Text::copy_of(alloc, name.as_bytes())?;
    let id = tables.user_named(&name).unwrap_or(0);
    let known = is_user(tables, id);
    assert!(rt; known);
    Ok(id)
}

// The zone, the administrator and the group of everybody.
fn add_users(alloc: Global, tables: &mut Tables) -> Result<(), TableError>
    requires { IsMade tables.old }
    ensures { IsMade tables.new }
{
    let name = Text::copy_of(alloc, b"z")?;
    change(tables, Delta::Zone { name, stores: 1 })?;
    for (id, kind, name) in [
        (1, UserKind::Rodsadmin, b"rods".as_slice()),
        (2, UserKind::Rodsgroup, b"public"),
    ] {
        let name = Text::copy_of(alloc, name)?;
        change(tables, Delta::User(UserRow { id, kind, name }))?;
    }
    Ok(())
}

// `/`, `/z`, `/z/home` and `/z/home/rods`, which everybody reads but for the last.
fn add_collections(alloc: Global, tables: &mut Tables) -> Result<(), TableError>
    requires { IsMade tables.old }
    ensures { IsMade tables.new }
{
    for (id, parent, name, user, level) in [
        (0, 0, b"".as_slice(), 2, Level::Read),
        (1, 0, b"z", 2, Level::Read),
        (2, 1, b"home", 2, Level::Read),
        (3, 2, b"rods", 1, Level::Own),
    ] {
        let name = Text::copy_of(alloc, name)?;
        change(
            tables,
            Delta::Collection(CollectionRow {
                id,
                parent,
                name,
                inherit: false,
            }),
        )?;
        change(
            tables,
            Delta::Entry(EntryRow {
                kind: ItemKind::Collection,
                id,
                user,
                level,
            }),
        )?;
    }
    Ok(())
}

// The leaf `d0` below the node `r`, and the leaf `d1`.
fn add_resources(alloc: Global, tables: &mut Tables) -> Result<(), TableError>
    requires { IsMade tables.old }
    ensures { IsMade tables.new }
{
    for (id, name, kind, parent) in [
        (3, b"r".as_slice(), ResourceKind::Replication, 0),
        (1, b"d0", ResourceKind::Storage, 3),
        (2, b"d1", ResourceKind::Storage, 0),
    ] {
        let name = Text::copy_of(alloc, name)?;
        change(
            tables,
            Delta::Resource(ResourceRow {
                id,
                name,
                kind,
                slot: 0,
                up: true,
                parent,
                place: 0,
            }),
        )?;
    }
    Ok(())
}

// `/z/home/rods/o`, with `abc` on `d0` and a stale replica on `d1`.
fn add_object(alloc: Global, tables: &mut Tables) -> Result<(), TableError>
    requires { IsMade tables.old }
    ensures { IsMade tables.new }
{
    let name = Text::copy_of(alloc, b"o")?;
    change(
        tables,
        Delta::Object(ObjectRow {
            id: 1,
            collection: 3,
            name,
            size: 3,
            digest: Digest::of(b"abc"),
            time: 1000,
        }),
    )?;
    change(
        tables,
        Delta::Numbers(Numbers {
            next_vault: 3,
            run: 0,
            last: 0,
        }),
    )?;
    for (number, good, size, digest) in [
        (0, true, 3, Digest::of(b"abc")),
        (1, false, 0, Digest::of(b"")),
    ] {
        change(
            tables,
            Delta::Replica(ReplicaRow {
                object: 1,
                number,
                leaf: number + 1,
                good,
                size,
                digest,
                vault: u64::from(number) + 1,
            }),
        )?;
    }
    Ok(())
}

/// Makes the grid of tables without rows.
pub(crate) fn fill(alloc: Global, tables: &mut Tables) -> Result<(), TableError>
    requires { IsMade tables.old }
    ensures { IsMade tables.new }
{
    add_users(alloc, tables)?;
    add_collections(alloc, tables)?;
    add_resources(alloc, tables)?;
    add_object(alloc, tables)
}

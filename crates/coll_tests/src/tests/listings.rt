//! What is listed, and to whom.

ghost use Rattle.grid_model.specs.Applying.{IsMade};

use super::owning::{Part, try_part};
use super::start::{change, user_of};
use grid_model::{
    CollectionRow, Delta, EntryRow, ItemKind, Level, Path, PlanError, Rows, Text, UserKind, UserRow,
};
use grid_tables::{TableError, Tables};
use plan_list::list_rows;
use std::alloc::{AllocError, Global};
use std::mem::forget;
use std::process::Abort;
use std::test::Fail;

// The user alice, and collections that she reads and that she does not.
fn add_more(alloc: Global, tables: &mut Tables) -> Result<(), TableError>
    requires { IsMade tables.old }
    ensures { IsMade tables.new }
{
    let name = Text::copy_of(alloc, b"alice")?;
    let kind = UserKind::Rodsuser;
    change(tables, Delta::User(UserRow { id: 3, kind, name }))?;
    for (id, parent, name, user, level) in [
        (4, 3, b"p".as_slice(), 1, Level::Own),
        (5, 3, b"a", 3, Level::Read),
        (6, 2, b"alice", 3, Level::Own),
        (7, 3, b"ab", 1, Level::Own),
    ] {
        let name = Text::copy_of(alloc, name)?;
        change(
            tables,
            Delta::Collection(CollectionRow {
                id,
                parent,
                name,
                inherit: false,
            }),
        )?;
        let kind = ItemKind::Collection;
        change(
            tables,
            Delta::Entry(EntryRow {
                kind,
                id,
                user,
                level,
            }),
        )?;
    }
    Ok(())
}

// The words of each row with a space behind each, and `;` behind each row.
fn text_of(alloc: Global, rows: &Rows) -> Result<Vec<u8>, AllocError> {
    let mut text = Vec::new(alloc);
    for row in rows.as_slice() {
        for word in row.as_slice() {
            text.extend_from_slice(word.as_slice())?;
            text.push(b' ')?;
        }
        text.push(b'\n')?;
    }
    Ok(text)
}

// What is listed, or why nothing is.
fn listed(
    rt: &impl Abort,
    alloc: Global,
    tables: &Tables,
    name: &str,
    word: &str,
) -> Result<Vec<u8>, Fail>
    requires { IsMade tables.now }
{
    let user = user_of(rt, alloc, tables, name)?;
    let path = Path::parse(alloc, word.as_bytes())?;
    match list_rows(alloc, tables, user, &path) {
        Ok(rows) => {
            let text = text_of(alloc, &rows);
            forget(rows);
            Ok(text?)
        }
        Err(PlanError::Refused(refusal)) => {
            let text = format!(in alloc; "{refusal:?}")?;
            Ok(text.into_bytes())
        }
        Err(PlanError::Memory) => Err(Fail::from(AllocError)),
    }
}

/// What is listed of the small grid with more in it.
pub(crate) fn listings_are_as_wanted(
    rt: &impl Abort,
    alloc: Global,
    tables: &mut Tables,
) -> Result<(), Fail>
    requires { IsMade tables.old }
{
    add_more(alloc, tables)?;
    are_listed(rt, alloc, tables)
}

fn are_listed(rt: &impl Abort, alloc: Global, tables: &Tables) -> Result<(), Fail>
    requires { IsMade tables.now }
{
    for (name, word, wanted) in [
        ("rods", "/", "C /z \n"),
        ("rods", "/z/home", "C /z/home/alice \nC /z/home/rods \n"),
        ("alice", "/z/home", "C /z/home/alice \n"),
        ("alice", "/z/home/alice", ""),
        ("alice", "/z/home/rods", "NoAccess"),
        ("alice", "/z/home/rods/a", ""),
        ("alice", "/z/home/rods/o", "NoAccess"),
        ("rods", "/z/none", "NoObject"),
        ("rods", "/z/home/rods/o/x", "NoObject"),
        (
            "rods",
            "/z/home/rods",
            "C /z/home/rods/a \nC /z/home/rods/ab \n\
             D /z/home/rods/o 0 r;d0 3 & sha2:ungWv48Bz+pBQUDeXa4iI7ADYaOWF3qctBD/YfIAFa0= \n\
             D /z/home/rods/o 1 d1 0 X sha2:47DEQpj8HBSa+/TImW+5JCeuQeRkm5NMpJWZG3hSuFU= \n\
             C /z/home/rods/p \n",
        ),
        (
            "rods",
            "/z/home/rods/o",
            "D /z/home/rods/o 0 r;d0 3 & sha2:ungWv48Bz+pBQUDeXa4iI7ADYaOWF3qctBD/YfIAFa0= \n\
             D /z/home/rods/o 1 d1 0 X sha2:47DEQpj8HBSa+/TImW+5JCeuQeRkm5NMpJWZG3hSuFU= \n",
        ),
    ] {
        let came = listed(rt, alloc, tables, name, word)?;
        assert_eq!(rt; came.as_slice(), wanted.as_bytes(), "{name} {word}");
    }
    Ok(())
}

#[test]
fn listings_of_a_small_grid(rt: HostRuntime) -> Result<(), Fail> {
    try_part(&rt, rt.alloc(), Part::Listings)
}

//! What users and collections are made and dropped, and why not.

ghost use Rattle.grid_journal.specs.Journal.{AreSpelled};
ghost use Rattle.grid_model.specs.Applying.{IsMade, is_user};
ghost use Rattle.grid_model.specs.Names.{is_name};
ghost use Rattle.std.specs.Prelude.{IsTrue};

use super::owning::{Part, try_part};
use super::start::{change, user_of};
use grid_model::{Deltas, Path, PlanError, Refusal, Text, UserKind, check_name};
use grid_tables::{Kind, TableError, Tables};
use plan_coll::{plan_mkdir, plan_mkgroup, plan_mkuser, plan_rmdir};
use std::alloc::Global;
use std::process::Abort;
use std::test::Fail;

/// What is planned, of a name or a path.
#[derive(Clone, Copy, Debug)]
enum Verb {
    MkUser(UserKind),
    MkGroup,
    MkDir,
    RmDir,
}

fn is_name(word: &[u8]) -> bool
    ensures { IsTrue result → IsTrue (is_name word.now) }
{
    check_name(word).is_ok()
}

/// Whether nothing has metadata.
pub(crate) fn has_no_metadata(tables: &Tables) -> bool
    ensures { IsTrue result → AreSpelled tables.now.triples }
{
    tables.count(Kind::Triples) == 0
}

fn plan_of_name(
    rt: &impl Abort,
    alloc: Global,
    tables: &Tables,
    user: u32,
    kind: Option<UserKind>,
    word: &str,
) -> Result<Result<Deltas, PlanError>, Fail>
    requires made { IsMade tables.now }
    requires user { IsTrue (is_user tables.now user) }
{
    let name = Text::copy_of(alloc, word.as_bytes())?;
    let named = is_name(name.as_slice());
    assert!(rt; named);
    match kind {
        None => Ok(plan_mkgroup(alloc, tables, user, &name)),
        Some(kind) => Ok(plan_mkuser(alloc, tables, user, &name, kind)),
    }
}

fn plan_of_path(
    rt: &impl Abort,
    alloc: Global,
    tables: &Tables,
    user: u32,
    drops: bool,
    word: &str,
) -> Result<Result<Deltas, PlanError>, Fail>
    requires made { IsMade tables.now }
    requires user { IsTrue (is_user tables.now user) }
{
    let path = Path::parse(alloc, word.as_bytes())?;
    let bare = has_no_metadata(tables);
    assert!(rt; bare);
    if drops {
        return Ok(plan_rmdir(alloc, tables, user, &path));
    }
    Ok(plan_mkdir(alloc, tables, user, &path))
}

// Makes the changes.
fn apply_all(tables: &mut Tables, deltas: Deltas) -> Result<(), TableError>
    requires { IsMade tables.old }
    ensures { IsMade tables.new }
{
    for delta in deltas.into_vec() {
        change(tables, delta)?;
    }
    Ok(())
}

// Does what is planned, or answers why not.
fn outcome(
    rt: &impl Abort,
    alloc: Global,
    tables: &mut Tables,
    name: &str,
    verb: Verb,
    word: &str,
) -> Result<Option<Refusal>, Fail>
    requires { IsMade tables.old }
    ensures { IsMade tables.new }
{
    let user = user_of(rt, alloc, tables, name)?;
    let planned = match verb {
        Verb::MkUser(kind) => plan_of_name(rt, alloc, tables, user, Some(kind), word)?,
        Verb::MkGroup => plan_of_name(rt, alloc, tables, user, None, word)?,
        Verb::MkDir => plan_of_path(rt, alloc, tables, user, false, word)?,
        Verb::RmDir => plan_of_path(rt, alloc, tables, user, true, word)?,
    };
    match planned {
        Ok(deltas) => {
            apply_all(tables, deltas)?;
            Ok(None)
        }
        Err(PlanError::Refused(refusal)) => Ok(Some(refusal)),
        Err(PlanError::Memory) => Err(Fail::from(std::alloc::AllocError)),
    }
}

/// Does them in turn, over the small grid.
pub(crate) fn steps_come_to_what_is_wanted(
    rt: &impl Abort,
    alloc: Global,
    tables: &mut Tables,
) -> Result<(), Fail>
    requires { IsMade tables.old }
    ensures { IsMade tables.new }
{
    for (name, verb, word, wanted) in [
        ("rods", Verb::MkUser(UserKind::Rodsuser), "alice", None),
        (
            "rods",
            Verb::MkUser(UserKind::Rodsuser),
            "alice",
            Some(Refusal::Exists),
        ),
        ("rods", Verb::MkGroup, "g", None),
        (
            "rods",
            Verb::MkUser(UserKind::Rodsadmin),
            "g",
            Some(Refusal::Exists),
        ),
        (
            "alice",
            Verb::MkUser(UserKind::Rodsuser),
            "bob",
            Some(Refusal::NotAdmin),
        ),
        ("alice", Verb::MkGroup, "h", Some(Refusal::NotAdmin)),
        ("rods", Verb::MkDir, "/z/home/bob", None),
        (
            "rods",
            Verb::MkUser(UserKind::Rodsuser),
            "bob",
            Some(Refusal::Exists),
        ),
        ("rods", Verb::RmDir, "/z/home/bob", None),
        ("rods", Verb::MkUser(UserKind::Rodsuser), "bob", None),
        ("rods", Verb::RmDir, "/z/home/bob", Some(Refusal::Fixed)),
        ("alice", Verb::MkDir, "/z/home/alice/a", None),
        ("alice", Verb::MkDir, "/z/home/alice/a/b", None),
        (
            "alice",
            Verb::RmDir,
            "/z/home/alice/a",
            Some(Refusal::NotEmpty),
        ),
        (
            "bob",
            Verb::RmDir,
            "/z/home/alice/a/b",
            Some(Refusal::NoAccess),
        ),
        ("alice", Verb::RmDir, "/z/home/alice/a/b", None),
        ("alice", Verb::RmDir, "/z/home/alice/a", None),
        (
            "alice",
            Verb::RmDir,
            "/z/home/alice/a",
            Some(Refusal::NoCollection),
        ),
        ("rods", Verb::RmDir, "/z/home/rods", Some(Refusal::Fixed)),
        ("bob", Verb::MkDir, "/z/home/c", Some(Refusal::NoAccess)),
        ("rods", Verb::MkDir, "/z/home/rods/o", Some(Refusal::Exists)),
        (
            "rods",
            Verb::MkDir,
            "/z/none/a",
            Some(Refusal::NoCollection),
        ),
        ("rods", Verb::MkDir, "/", Some(Refusal::Exists)),
    ] {
        let came = outcome(rt, alloc, tables, name, verb, word)?;
        assert_eq!(rt; came, wanted, "{name} {verb:?} {word}");
    }
    Ok(())
}

#[test]
fn users_with_homes_and_collections(rt: HostRuntime) -> Result<(), Fail> {
    try_part(&rt, rt.alloc(), Part::Plans)
}

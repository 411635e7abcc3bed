ghost use Rattle.std.specs.Prelude.{◌≡◌, ◌≢◌, ◌<◌, [], false, length, unwrap_or, IsTrue, IfOk, MatchOption, MatchResult};
ghost use Rattle.grid_journal.specs.Journal.{can_be_kept};
ghost use Rattle.grid_model.specs.Applying.{IsMade, is_user};
ghost use Rattle.grid_model.specs.Names.{is_name};
ghost use Rattle.grid_model.specs.Grid.{home_of};
ghost use Rattle.grid_model.specs.Operations.Table.{mkgroup, mkuser};
ghost use Rattle.grid_model.specs.RowGrids.{user_name};
ghost use Rattle.grid_model.specs.declared.deltas.Delta.TheVariants as delta;
ghost use Rattle.plan_base.specs.Plans.{PlansChange};
ghost use Rattle.plan_coll.specs.NewUsers.{IsUserFor, IsHomeFor, IsFreeHome, IsNoHome, MakesUser, own_entry, room_for_user};

use crate::collections::collection_row;
use grid_model::{
    CollectionRow, Delta, Deltas, EntryRow, ItemKind, Level, Path, PlanError, Refusal, Text,
    UserKind, UserRow, check_name,
};
use grid_tables::{Kind, Tables};
use plan_base::{
    collection_above, has_room, is_admin, is_taken, name_is_text, next_collection_id, next_user_id,
    zone_name,
};
use std::alloc::{AllocError, Global};

/// Plans that there is a group of this name, without members (`mkgroup`).
pub fn plan_mkgroup(
    alloc: Global,
    tables: &Tables,
    user: u32,
    name: &Text,
) -> Result<Deltas, PlanError>
    requires made { IsMade tables.now }
    requires user { IsTrue (is_user tables.now user) }
    requires named { IsTrue (is_name name.now) }
    ensures { PlansChange tables.now (user_name tables.now user) (mkgroup name.now) result }
{
    if !is_admin(tables, user) {
        return Err(PlanError::Refused(Refusal::NotAdmin));
    }
    if tables.user_named(name).is_some() {
        return Err(PlanError::Refused(Refusal::Exists));
    }
    if let Err(refusal) = has_room(tables, Kind::Users, 1) {
        return Err(PlanError::Refused(refusal));
    }
    let row = match user_row(alloc, tables, name, UserKind::Rodsgroup) {
        Err(_) => return Err(PlanError::Memory),
        Ok(row) => row,
    };
    match vec![in alloc; Delta::User(row)] {
        Err(_) => Err(PlanError::Memory),
        Ok(deltas) => Ok(Deltas::from_vec(deltas)),
    }
}

// The row of a new user or group of this name. Fails for want of memory alone.
fn user_row(
    alloc: Global,
    tables: &Tables,
    name: &Text,
    kind: UserKind,
) -> Result<UserRow, AllocError>
    requires few { length tables.now.users < 4294967295 }
    requires named { IsTrue (is_name name.now) }
    ensures { IfOk result (IsUserFor tables.now name.now kind) }
{
    let id = next_user_id(alloc, tables)?;
    let bytes = name.as_slice();
    name_is_text(bytes);
    let name = Text::copy_of(alloc, bytes)?;
    Ok(UserRow { id, kind, name })
}

/// Plans that there is a user of this name and kind, with a home that is the user's own (`mkuser`).
pub fn plan_mkuser(
    alloc: Global,
    tables: &Tables,
    user: u32,
    name: &Text,
    kind: UserKind,
) -> Result<Deltas, PlanError>
    requires made { IsMade tables.now }
    requires user { IsTrue (is_user tables.now user) }
    requires named { IsTrue (is_name name.now) }
    ensures { PlansChange tables.now (user_name tables.now user) (mkuser name.now kind) result }
{
    if !is_admin(tables, user) {
        return Err(PlanError::Refused(Refusal::NotAdmin));
    }
    let homes = match free_home(alloc, tables, name) {
        Err(error) => return Err(error),
        Ok(homes) => homes,
    };
    if let Err(refusal) = has_room_for_user(tables) {
        return Err(PlanError::Refused(refusal));
    }
    match new_user(alloc, tables, name, kind, homes) {
        Err(_) => Err(PlanError::Memory),
        Ok(deltas) => Ok(deltas),
    }
}

// The id of the collection of homes, where nothing has the name and nothing is at the path of its home.
fn free_home(alloc: Global, tables: &Tables, name: &Text) -> Result<u64, PlanError>
    requires made { IsMade tables.now }
    requires named { IsTrue (is_name name.now) }
    ensures { MatchResult result (IsFreeHome tables.now name.now) (IsNoHome tables.now name.now) }
{
    if tables.user_named(name).is_some() {
        return Err(PlanError::Refused(Refusal::Exists));
    }
    let home = match home_path(alloc, tables, name) {
        Err(_) => return Err(PlanError::Memory),
        Ok(None) => return Err(PlanError::Refused(Refusal::NoCollection)),
        Ok(Some(home)) => home,
    };
    if is_taken(tables, &home) {
        return Err(PlanError::Refused(Refusal::Exists));
    }
    collection_above(alloc, tables, &home)
}

// The path of the home of this name; none where the zone has no name, and nothing is there then. Fails for want of memory
// alone.
fn home_path(alloc: Global, tables: &Tables, name: &Text) -> Result<Option<Path>, AllocError>
    requires { IsTrue (is_name name.now) }
    ensures { let zone = unwrap_or tables.now.zone [] in IfOk result (λ home. MatchOption home (is_name zone ≡ false) (λ path. path ≡ home_of zone name.now)) }
{
    let zone = zone_name(tables);
    if check_name(zone).is_err() {
        return Ok(None);
    }
    let homes = Path::root(alloc).child(alloc, zone)?.child(alloc, b"home")?;
    Ok(Some(homes.child(alloc, name.as_slice())?))
}

// Whether there may be a user, a collection and an entry more.
fn has_room_for_user(tables: &Tables) -> Result<(), Refusal>
    ensures { result ≡ room_for_user tables.now }
{
    if let Err(refusal) = has_room(tables, Kind::Users, 1) {
        return Err(refusal);
    }
    if let Err(refusal) = has_room(tables, Kind::Collections, 1) {
        return Err(refusal);
    }
    has_room(tables, Kind::Entries, 1)
}

// The changes that make a user with a home in the collection of homes. Fails for want of memory alone.
fn new_user(
    alloc: Global,
    tables: &Tables,
    name: &Text,
    kind: UserKind,
    homes: u64,
) -> Result<Deltas, AllocError>
    requires few { length tables.now.users < 4294967295 }
    requires named { IsTrue (is_name name.now) }
    ensures { IfOk result (MakesUser tables.now name.now kind homes) }
{
    let user = user_row(alloc, tables, name, kind)?;
    let home = home_row(alloc, tables, homes, name)?;
    let own = own_entry(home.id, user.id);
    Ok(Deltas::from_vec(vec![in alloc;
        Delta::User(user),
        Delta::Collection(home),
        Delta::Entry(own),
    ]?))
}

// The row of a new home. Fails for want of memory alone.
fn home_row(
    alloc: Global,
    tables: &Tables,
    homes: u64,
    name: &Text,
) -> Result<CollectionRow, AllocError>
    requires { IsTrue (is_name name.now) }
    ensures { IfOk result (IsHomeFor tables.now homes name.now) }
{
    let id = next_collection_id(alloc, tables)?;
    collection_row(alloc, id, homes, name.as_slice(), false)
}

// The entry that gives the user own at the home.
fn own_entry(home: u64, user: u32) -> EntryRow
    ensures entry { result ≡ own_entry home user }
    ensures spelled { IsTrue (can_be_kept (delta.Entry result)) }
{
    EntryRow {
        kind: ItemKind::Collection,
        id: home,
        user,
        level: Level::Own,
    }
}

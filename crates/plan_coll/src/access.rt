ghost use Rattle.std.specs.Prelude.{◌≡◌, IsTrue, IfOk};
ghost use Rattle.std.specs.List.{list_all};
ghost use Rattle.grid_journal.specs.Journal.{can_be_kept};
ghost use Rattle.grid_model.specs.Applying.{IsMade, gives_access, is_user};
ghost use Rattle.grid_model.specs.Bounds.{within};
ghost use Rattle.grid_model.specs.Operations.Table.{chmod};
ghost use Rattle.grid_model.specs.RowGrids.{user_name};
ghost use Rattle.grid_model.specs.Rows.{id_of, kind_of};
ghost use Rattle.grid_model.specs.declared.refusal.What.TheVariants as what;
ghost use Rattle.grid_tables.specs.Counts.{count_of};
ghost use Rattle.grid_tables.specs.declared.counts.Kind.TheVariants as kind;
ghost use Rattle.plan_base.specs.Plans.{PlansChange};
ghost use Rattle.plan_coll.specs.AccessChanges.{access_deltas, entries_then, has_level};

use grid_model::{Delta, Deltas, EntryRow, Item, Level, Path, PlanError, Refusal, Text, What};
use grid_tables::{Kind, Tables};
use plan_base::{entry_level, has_room, item_at, kind_and_id, may_at, within};
use std::alloc::{AllocError, Global};

/// Plans that a user or a group has this level at what is at the path, or has none there for `Null` (`chmod`); nothing where
/// that is so already.
pub fn plan_chmod(
    alloc: Global,
    tables: &Tables,
    user: u32,
    level: Level,
    name: &Text,
    path: &Path,
) -> Result<Deltas, PlanError>
    requires made { IsMade tables.now }
    requires user { IsTrue (is_user tables.now user) }
    ensures { PlansChange tables.now (user_name tables.now user) (chmod level name.now path.now) result }
{
    let item = match item_at(tables, path) {
        None => return Err(PlanError::Refused(Refusal::NoObject)),
        Some(item) => item,
    };
    if !may_at(tables, user, item, Level::Own) {
        return Err(PlanError::Refused(Refusal::NoAccess));
    }
    let other = match tables.user_named(name) {
        None => return Err(PlanError::Refused(Refusal::NoUser)),
        Some(other) => other,
    };
    let had = entry_level(tables, item, other);
    if let Err(refusal) = has_room_for(tables, level, had.is_some()) {
        return Err(PlanError::Refused(refusal));
    }
    match access_deltas(alloc, item, other, level, had) {
        Err(_) => Err(PlanError::Memory),
        Ok(deltas) => Ok(deltas),
    }
}

// Whether there may be so many entries once one has this level, which it had or not.
fn has_room_for(tables: &Tables, level: Level, had: bool) -> Result<(), Refusal>
    ensures { result ≡ within what.Access (entries_then (count_of tables.now kind.Entries) level had) }
{
    if matches!(level, Level::Null) {
        let count = tables.count(Kind::Entries);
        let gone = if had { 1 } else { 0 };
        return within(What::Access, count.saturating_sub(gone));
    }
    let more = if had { 0 } else { 1 };
    has_room(tables, Kind::Entries, more)
}

// The changes that give the user this level at the item, of the one that was had. Fails for want of memory alone.
fn access_deltas(
    alloc: Global,
    item: Item,
    user: u32,
    level: Level,
    had: Option<Level>,
) -> Result<Deltas, AllocError>
    requires { IsTrue (gives_access (kind_of item)) }
    ensures changes { IfOk result (λ deltas. deltas ≡ access_deltas (kind_of item) (id_of item) user level had) }
    ensures spelled { IfOk result (λ deltas. IsTrue (list_all can_be_kept deltas)) }
{
    let (kind, id) = kind_and_id(item);
    if matches!(level, Level::Null) {
        if had.is_none() {
            return Ok(Deltas::from_vec(Vec::new(alloc)));
        }
        return Ok(Deltas::from_vec(vec![in alloc; Delta::NoEntry { kind, id, user }]?));
    }
    if has_level(had, level) {
        return Ok(Deltas::from_vec(Vec::new(alloc)));
    }
    let row = EntryRow {
        kind,
        id,
        user,
        level,
    };
    Ok(Deltas::from_vec(vec![in alloc; Delta::Entry(row)]?))
}

// Whether there is an entry, of this level.
fn has_level(had: Option<Level>, level: Level) -> bool
    ensures { result ≡ has_level had level }
{
    match had {
        None => false,
        Some(Level::Null) => matches!(level, Level::Null),
        Some(Level::Read) => matches!(level, Level::Read),
        Some(Level::Write) => matches!(level, Level::Write),
        Some(Level::Own) => matches!(level, Level::Own),
    }
}

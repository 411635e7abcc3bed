ghost use Rattle.std.specs.Prelude.{◌≡◌, ◌==◌, find, option_map, IsTrue, MatchOption};
ghost use Rattle.grid_model.specs.Applying.{IsMade};
ghost use Rattle.grid_model.specs.Levels.{may};
ghost use Rattle.grid_model.specs.Names.{Path as PathOf};
ghost use Rattle.grid_model.specs.Operations.Common.{is_taken};
ghost use Rattle.grid_model.specs.RowGrids.{grid_of, user_name};
ghost use Rattle.grid_model.specs.Rows.{has_user, id_of, kind_of};
ghost use Rattle.plan_base.specs.Found.{IsAt, FindsAbove, IsFree, entry_level};

use grid_access::may;
use grid_model::{EntryRow, Item, ItemKind, Level, Path, PlanError, Refusal};
use grid_tables::Tables;
use std::alloc::Global;

/// The id of the collection that something at the path lies in. `/` lies in none and is refused with `Exists`; where the
/// collection is not there it is `NoCollection`. Else it fails for want of memory alone.
pub fn collection_above(alloc: Global, tables: &Tables, path: &Path) -> Result<u64, PlanError>
    requires { IsMade tables.now }
    ensures { FindsAbove tables.now path.now result }
{
    let above = match path.parent(alloc) {
        Err(_) => return Err(PlanError::Memory),
        Ok(None) => return Err(PlanError::Refused(Refusal::Exists)),
        Ok(Some(above)) => above,
    };
    match tables.collection_at(&above) {
        None => Err(PlanError::Refused(Refusal::NoCollection)),
        Some(id) => Ok(id),
    }
}

/// The object or the collection at the path. It takes no memory.
pub fn item_at(tables: &Tables, path: &Path) -> Option<Item>
    requires { IsMade tables.now }
    ensures { MatchOption result (IsFree tables.now path.now) (λ item. IsAt tables.now path.now item) }
{
    match tables.collection_at(path) {
        Some(id) => Some(Item::Collection(id)),
        None => match tables.object_at(path) {
            Some(id) => Some(Item::Object(id)),
            None => None,
        },
    }
}

/// Whether an object or a collection is at the path. It takes no memory.
pub fn is_taken(tables: &Tables, path: &Path) -> bool
    requires { IsMade tables.now }
    ensures { result ≡ is_taken (grid_of tables.now) path.now }
{
    tables.collection_at(path).is_some() || tables.object_at(path).is_some()
}

/// Whether a user may do this at the object or the collection, which is at some path. It takes no memory.
pub fn may_at(tables: &Tables, user: u32, item: Item, wanted: Level) -> bool
    requires made { IsMade tables.now }
    requires user { IsTrue (has_user tables.now user) }
    requires at { (p : PathOf) × IsAt tables.now p item }
    ensures { (p : PathOf) → IsAt tables.now p item → result ≡ may (grid_of tables.now) (user_name tables.now user) p wanted }
{
    may(tables, user, item, wanted)
}

/// The level that the object or the collection gives this user or group by an entry of its own. It takes no memory.
pub fn entry_level(tables: &Tables, item: Item, user: u32) -> Option<Level>
    ensures { result ≡ entry_level tables.now (kind_of item) (id_of item) user }
{
    level_for(tables.access_of(item), user)
}

// The level in the first of these entries that is for this user or group.
fn level_for(rows: &[EntryRow], user: u32) -> Option<Level>
    ensures { result ≡ option_map (λ e. e.level) (find (λ e. e.user == user) rows.now) }
{
    match rows.iter().find(|row| row.user == user) {
        None => None,
        Some(row) => Some(row.level),
    }
}

/// The kind of an item, and its id among those of the kind.
pub fn kind_and_id(item: Item) -> (ItemKind, u64)
    ensures kind { result.0 ≡ kind_of item }
    ensures id { result.1 ≡ id_of item }
{
    match item {
        Item::Object(id) => (ItemKind::Object, id),
        Item::Collection(id) => (ItemKind::Collection, id),
        Item::Resource(id) => (ItemKind::Resource, u64::from(id)),
        Item::User(id) => (ItemKind::User, u64::from(id)),
    }
}

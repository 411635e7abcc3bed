ghost use Rattle.std.specs.Prelude.{◌≡◌, IsTrue};
ghost use Rattle.grid_model.specs.Applying.{IsMade};
ghost use Rattle.grid_model.specs.Grid.{object_at, collection_at, resource_named, user_named};
ghost use Rattle.grid_model.specs.Listings.{may_see};
ghost use Rattle.grid_model.specs.Maps.{has};
ghost use Rattle.grid_model.specs.Operations.Common.{resource_there};
ghost use Rattle.grid_model.specs.Operations.Metadata.{may_tag};
ghost use Rattle.grid_model.specs.Refusing.{unless};
ghost use Rattle.grid_model.specs.RowGrids.{grid_of, user_name};
ghost use Rattle.grid_model.specs.Rows.{has_user};
ghost use Rattle.grid_model.specs.declared.refusal.Refusal.TheVariants as refusal;
ghost use Rattle.plan_meta.specs.Things.{thing_by, asked_of_object, asked_of_collection, FindsItem};

use crate::ThingName;
use grid_model::{Item, Level, Path, Refusal, Text};
use grid_tables::Tables;
use plan_base::{is_admin, may_at};

/// The item that is named, where the user may say something of it: who may write an object or a collection, or who is an
/// administrator. What is asked is asked in the order of the definitions. It takes no memory.
pub(crate) fn item_to_tag(tables: &Tables, user: u32, thing: &ThingName) -> Result<Item, Refusal>
    requires made { IsMade tables.now }
    requires user { IsTrue (has_user tables.now user) }
    ensures { FindsItem tables.now (thing_by thing.now) (may_tag (grid_of tables.now) (user_name tables.now user) (thing_by thing.now)) result }
{
    match thing {
        ThingName::ObjectAt(path) => object_open(tables, user, path, Level::Write),
        ThingName::CollectionAt(path) => collection_open(tables, user, path, Level::Write),
        ThingName::ResourceNamed(name) => {
            if !is_admin(tables, user) {
                return Err(Refusal::NotAdmin);
            }
            resource_item(tables, name)
        }
        ThingName::UserNamed(name) => {
            if !is_admin(tables, user) {
                return Err(Refusal::NotAdmin);
            }
            user_item(tables, name)
        }
    }
}

/// The item that is named, where the user may see what is said of it: who may read an object or a collection, and all users
/// else. It takes no memory.
pub(crate) fn item_to_see(tables: &Tables, user: u32, thing: &ThingName) -> Result<Item, Refusal>
    requires made { IsMade tables.now }
    requires user { IsTrue (has_user tables.now user) }
    ensures { FindsItem tables.now (thing_by thing.now) (may_see (grid_of tables.now) (user_name tables.now user) (thing_by thing.now)) result }
{
    match thing {
        ThingName::ObjectAt(path) => object_open(tables, user, path, Level::Read),
        ThingName::CollectionAt(path) => collection_open(tables, user, path, Level::Read),
        ThingName::ResourceNamed(name) => resource_item(tables, name),
        ThingName::UserNamed(name) => user_item(tables, name),
    }
}

// The object at the path, where the user has this level there.
fn object_open(tables: &Tables, user: u32, path: &Path, wanted: Level) -> Result<Item, Refusal>
    requires made { IsMade tables.now }
    requires user { IsTrue (has_user tables.now user) }
    ensures { FindsItem tables.now (object_at path.now)
        (asked_of_object (grid_of tables.now) (user_name tables.now user) path.now wanted) result }
{
    let item = match tables.object_at(path) {
        None => return Err(Refusal::NoObject),
        Some(id) => Item::Object(id),
    };
    if !may_at(tables, user, item, wanted) {
        return Err(Refusal::NoAccess);
    }
    Ok(item)
}

// The collection at the path, where the user has this level there.
fn collection_open(tables: &Tables, user: u32, path: &Path, wanted: Level) -> Result<Item, Refusal>
    requires made { IsMade tables.now }
    requires user { IsTrue (has_user tables.now user) }
    ensures { FindsItem tables.now (collection_at path.now)
        (asked_of_collection (grid_of tables.now) (user_name tables.now user) path.now wanted) result }
{
    let item = match tables.collection_at(path) {
        None => return Err(Refusal::NoCollection),
        Some(id) => Item::Collection(id),
    };
    if !may_at(tables, user, item, wanted) {
        return Err(Refusal::NoAccess);
    }
    Ok(item)
}

// The resource of this name.
fn resource_item(tables: &Tables, name: &Text) -> Result<Item, Refusal>
    requires { IsMade tables.now }
    ensures { FindsItem tables.now (resource_named name.now) (resource_there (grid_of tables.now) name.now) result }
{
    match tables.resource_named(name) {
        None => Err(Refusal::NoResource),
        Some(id) => Ok(Item::Resource(id)),
    }
}

// The user or the group of this name.
fn user_item(tables: &Tables, name: &Text) -> Result<Item, Refusal>
    requires { IsMade tables.now }
    ensures { FindsItem tables.now (user_named name.now) (unless (has (grid_of tables.now).users name.now) refusal.NoUser) result }
{
    match tables.user_named(name) {
        None => Err(Refusal::NoUser),
        Some(id) => Ok(Item::User(id)),
    }
}

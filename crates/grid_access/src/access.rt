ghost use Rattle.std.specs.Prelude.{◌≡◌, IsTrue};
ghost use Rattle.grid_model.specs.Applying.{IsMade, gives_access};
ghost use Rattle.grid_model.specs.Levels.{level_at, may};
ghost use Rattle.grid_model.specs.RowGrids.{grid_of, item_place, user_name};
ghost use Rattle.grid_model.specs.RowPaths.{collection_path};
ghost use Rattle.grid_model.specs.Rows.{has_user, id_of, item_there, kind_of};

use crate::order::contains;
use crate::scan::{greatest_given, is_admin};
use grid_model::{Item, Level};
use grid_tables::Tables;

/// What a user or a group may do at an object or a collection: own for an administrator, else the greatest of what the
/// item gives the user, the group `public` and the groups that the user is in, and null where it gives them nothing.
/// It takes no memory.
pub fn level(tables: &Tables, user: u32, item: Item) -> Level
    requires made { IsMade tables.now }
    requires user { IsTrue (has_user tables.now user) }
    requires gives { IsTrue (gives_access (kind_of item)) }
    requires there { IsTrue (item_there tables.now (kind_of item) (id_of item)) }
    ensures { let place = item_place tables.now (collection_path tables.now) (kind_of item) (id_of item) in
        result ≡ level_at (grid_of tables.now) (user_name tables.now user) place }
{
    if is_admin(tables, user) {
        return Level::Own;
    }
    greatest_given(tables, user, item)
}

/// Whether what a user or a group may do at an object or a collection contains the wanted level. It takes no memory.
pub fn may(tables: &Tables, user: u32, item: Item, wanted: Level) -> bool
    requires made { IsMade tables.now }
    requires user { IsTrue (has_user tables.now user) }
    requires gives { IsTrue (gives_access (kind_of item)) }
    requires there { IsTrue (item_there tables.now (kind_of item) (id_of item)) }
    ensures { let place = item_place tables.now (collection_path tables.now) (kind_of item) (id_of item) in
        result ≡ may (grid_of tables.now) (user_name tables.now user) place wanted }
{
    contains(level(tables, user, item), wanted)
}

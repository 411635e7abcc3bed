ghost use Rattle.std.specs.Prelude.{◌≡◌, option_map};
ghost use Rattle.grid_access.specs.RowLevels.{levels_by_rows, speaks_by_id};
ghost use Rattle.grid_model.specs.Grid.{everybody};
ghost use Rattle.grid_model.specs.Levels.{greatest, is_admin};
ghost use Rattle.grid_model.specs.Names.{same_text};
ghost use Rattle.grid_model.specs.RowGrids.{user_name};
ghost use Rattle.grid_model.specs.Rows.{access_of, id_of, kind_of, user as user_row};

use crate::order::greater;
use grid_model::{Item, Level, UserKind};
use grid_tables::Tables;

/// Whether a user is an administrator.
pub(crate) fn is_admin(tables: &Tables, user: u32) -> bool
    ensures { result ≡ is_admin (option_map (λ r. r.kind) (user_row tables.now user)) }
{
    match tables.user(user) {
        None => false,
        Some(row) => matches!(row.kind, UserKind::Rodsadmin),
    }
}

/// The greatest level that the entries of an item give a user. It looks at each entry of the item, and for each by a
/// search at the users and at the members of groups.
pub(crate) fn greatest_given(tables: &Tables, user: u32, item: Item) -> Level
    ensures { result ≡ greatest (levels_by_rows tables.now user (access_of tables.now (kind_of item) (id_of item))) }
{
    let mut found = Level::Null;
    for row in tables.access_of(item) {
        if speaks_for(tables, user, row.user) {
            found = greater(found, row.level);
        }
    }
    found
}

/// Whether the user has what this user or group is given.
fn speaks_for(tables: &Tables, user: u32, id: u32) -> bool
    ensures { result ≡ speaks_by_id tables.now user id }
{
    id == user || is_everybody(tables, id) || tables.is_member(id, user)
}

/// Whether this is the group of all users. A catalogue may have none.
fn is_everybody(tables: &Tables, id: u32) -> bool
    ensures { result ≡ same_text (user_name tables.now id) everybody }
{
    match tables.user(id) {
        None => false,
        Some(row) => row.name.has_bytes(b"public"),
    }
}

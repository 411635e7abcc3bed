ghost use Rattle.std.specs.Prelude.{◌≡◌, option_map, IsTrue};
ghost use Rattle.grid_model.specs.Applying.{IsMade};
ghost use Rattle.grid_model.specs.Levels.{is_admin};
ghost use Rattle.grid_model.specs.Maps.{get};
ghost use Rattle.grid_model.specs.Operations.Common.{is_group, is_person};
ghost use Rattle.grid_model.specs.RowGrids.{grid_of, user_name};
ghost use Rattle.grid_model.specs.Rows.{has_user, user as user_row};

use grid_model::{Text, UserKind};
use grid_tables::Tables;

/// Whether a user is an administrator. It takes no memory.
pub fn is_admin(tables: &Tables, user: u32) -> bool
    requires made { IsMade tables.now }
    requires user { IsTrue (has_user tables.now user) }
    ensures { result ≡ is_admin (get (grid_of tables.now).users (user_name tables.now user)) }
{
    is_admin_kind(kind_of_user(tables, user))
}

// Whether it is an administrator.
fn is_admin_kind(kind: Option<UserKind>) -> bool
    ensures { result ≡ is_admin kind }
{
    match kind {
        None => false,
        Some(UserKind::Rodsadmin) => true,
        Some(UserKind::Rodsgroup | UserKind::Rodsuser) => false,
    }
}

/// What the user or the group of this name is. It takes no memory.
pub fn kind_named(tables: &Tables, name: &Text) -> Option<UserKind>
    requires made { IsMade tables.now }
    ensures { result ≡ get (grid_of tables.now).users name.now }
{
    match tables.user_named(name) {
        None => None,
        Some(id) => kind_of_user(tables, id),
    }
}

// What the user or the group with this id is.
fn kind_of_user(tables: &Tables, id: u32) -> Option<UserKind>
    ensures { result ≡ option_map (λ r. r.kind) (user_row tables.now id) }
{
    match tables.user(id) {
        None => None,
        Some(row) => Some(row.kind),
    }
}

/// Whether it is a user, and no group.
pub fn is_person(kind: Option<UserKind>) -> bool
    ensures { result ≡ is_person kind }
{
    match kind {
        None => false,
        Some(UserKind::Rodsgroup) => false,
        Some(UserKind::Rodsadmin | UserKind::Rodsuser) => true,
    }
}

/// Whether it is a group, and no user.
pub fn is_group(kind: Option<UserKind>) -> bool
    ensures { result ≡ is_group kind }
{
    match kind {
        None => false,
        Some(UserKind::Rodsgroup) => true,
        Some(UserKind::Rodsadmin | UserKind::Rodsuser) => false,
    }
}

ghost use Rattle.std.specs.Prelude.{◌≡◌, IsTrue};
ghost use Rattle.grid_model.specs.Applying.{IsMade};
ghost use Rattle.grid_model.specs.RowGrids.{grid_of, resource_name};
ghost use Rattle.grid_model.specs.Rows.{has_resource, resource};
ghost use Rattle.grid_model.specs.Trees.{is_in};
ghost use Rattle.grid_tree.specs.Reading.{parent_by, stands_at};

use grid_tables::{Kind, Tables};

/// Whether a leaf is at or below a resource. It takes no memory.
pub fn is_in(tables: &Tables, resource: u32, leaf: u32) -> bool
    requires made { IsMade tables.now }
    requires resource { IsTrue (has_resource tables.now resource) }
    requires leaf { IsTrue (has_resource tables.now leaf) }
    ensures { result ≡ is_in (grid_of tables.now).resources (resource_name tables.now resource) (resource_name tables.now leaf) }
{
    stands_at(tables, resource, leaf)
}

/// The same by the rows alone. No way up is longer than there are resources.
pub(crate) fn stands_at(tables: &Tables, upper: u32, id: u32) -> bool
    ensures { result ≡ stands_at tables.now upper id }
{
    let mut current = id;
    for _step in 0..tables.count(Kind::Resources) {
        if current == upper {
            return true;
        }
        match parent_of(tables, current) {
            None => return false,
            Some(parent) => current = parent,
        }
    }
    current == upper
}

/// The id of the parent, if there is one.
pub(crate) fn parent_of(tables: &Tables, id: u32) -> Option<u32>
    ensures { result ≡ parent_by (resource tables.now id) }
{
    match tables.resource(id) {
        None => None,
        Some(row) => {
            if row.parent == 0 {
                return None;
            }
            Some(row.parent)
        }
    }
}

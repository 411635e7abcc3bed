ghost use Rattle.std.specs.Prelude.{◌≡◌, IfOk};
ghost use Rattle.std.specs.Option.{option_map_or};
ghost use Rattle.grid_model.specs.Applying.{IsMade};
ghost use Rattle.grid_model.specs.Grid.{Object};
ghost use Rattle.grid_model.specs.Maps.{get};
ghost use Rattle.grid_model.specs.RowGrids.{grid_of};
ghost use Rattle.grid_model.specs.Values.{recorded_size};

use grid_model::{Path, PathError, Text};
use grid_tables::Tables;
use std::alloc::{AllocError, Global};

/// The recorded size in bytes of the object at the path that the text spells, and 0 where it spells none or no object is there.
/// Fails for want of memory alone.
pub(crate) fn recorded_size(alloc: Global, tables: &Tables, path: &Text) -> Result<u64, AllocError>
    requires made { IsMade tables.now }
    ensures size { IfOk result (λ size. size ≡ recorded_size (grid_of tables.now) path.now) }
{
    match Path::parse(alloc, path.as_slice()) {
        Ok(path) => Ok(size_at(tables, &path)),
        Err(PathError::BadPath { at: _ }) => Ok(0),
        Err(PathError::Memory) => Err(AllocError),
    }
}

// The same of the object at a path. It takes no memory.
fn size_at(tables: &Tables, path: &Path) -> u64
    requires made { IsMade tables.now }
    ensures { result ≡ option_map_or (λ (o : Object). o.size) (get (grid_of tables.now).objects path.now) 0 }
{
    match tables.object_at(path) {
        None => 0,
        Some(id) => match tables.object(id) {
            None => unreachable!(),
            Some(row) => row.size,
        },
    }
}

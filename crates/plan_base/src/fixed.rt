ghost use Rattle.std.specs.Prelude.{◌≡◌, ◌↔◌, [], unwrap_or, IsTrue};
ghost use Rattle.grid_model.specs.Applying.{IsMade};
ghost use Rattle.grid_model.specs.Grid.{home};
ghost use Rattle.grid_model.specs.Operations.Common.{is_fixed};
ghost use Rattle.grid_model.specs.RowGrids.{grid_of};

use crate::{is_person, kind_named};
use grid_model::{Path, Text};
use grid_tables::Tables;

/// Whether a collection at the path stays there: `/`, the zone, the collection of homes and the home of each user. It
/// takes no memory.
pub fn is_fixed(tables: &Tables, path: &Path) -> bool
    requires { IsMade tables.now }
    ensures { result ≡ is_fixed (grid_of tables.now) path.now }
{
    let zone = zone_name(tables);
    match path.names() {
        [] => true,
        [first] => first.has_bytes(zone),
        [first, second] => are_homes(first, second, zone),
        [first, second, third] => {
            are_homes(first, second, zone) && is_person(kind_named(tables, third))
        }
        _ => false,
    }
}

// Whether these are the names of the collection of homes.
fn are_homes(first: &Text, second: &Text, zone: &[u8]) -> bool
    ensures { IsTrue result ↔ (first.now ≡ zone.now) × (second.now ≡ home) }
{
    first.has_bytes(zone) && second.has_bytes(b"home")
}

/// The name of the zone, no bytes before it has one.
pub fn zone_name(tables: &Tables) -> &[u8]
    ensures { result.now ≡ unwrap_or tables.now.zone [] }
{
    match tables.zone() {
        None => &[],
        Some(zone) => zone.as_slice(),
    }
}

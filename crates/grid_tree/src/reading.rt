ghost use Rattle.std.specs.Prelude.{◌≡◌, ◌∷◌, [], find, option_map, IsTrue, IfSome, MatchOption, Some};
ghost use Rattle.std.specs.List.{Contains};
ghost use Rattle.std.specs.Option.{option_copied};
ghost use Rattle.grid_model.specs.Applying.{IsMade};
ghost use Rattle.grid_model.specs.RowGrids.{grid_of, object_of, replica_of, resource_name};
ghost use Rattle.grid_model.specs.Rows.{has_resource, object as object_row, replicas_of, resource};
ghost use Rattle.grid_model.specs.Trees.{candidates};
ghost use Rattle.grid_model.specs.declared.deltas.ObjectRow.{ObjectRow};
ghost use Rattle.grid_tree.specs.Reading.{FirstOf, is_asked, reads, up_by};

use crate::upward::stands_at;
use grid_model::ReplicaRow;
use grid_tables::Tables;

/// The first replica of an object that can be read: on a leaf at or below the asked resource, if one is asked and has such a
/// replica, and else on any leaf. None where no replica can be read. It takes no memory.
pub fn first_candidate<'a>(
    tables: &'a Tables,
    object: u64,
    asked: Option<u32>,
) -> Option<&'a ReplicaRow>
    requires made { IsMade tables.now }
    requires asked { IfSome asked (λ id. IsTrue (has_resource tables.now id)) }
    ensures { (o : ObjectRow) → object_row tables.now object ≡ Some o →
        FirstOf tables.now object (candidates (grid_of tables.now).resources (object_of tables.now o) (option_map (resource_name tables.now) asked))
        (option_copied result) }
{
    match first_read(tables, object, asked) {
        Some(row) => Some(row),
        None => first_read(tables, object, None),
    }
}

// The first replica of an object that can be read on a leaf that is asked.
fn first_read<'a>(tables: &'a Tables, object: u64, asked: Option<u32>) -> Option<&'a ReplicaRow>
    ensures { option_copied result ≡ find (reads tables.now asked) (replicas_of tables.now object) }
{
    tables
        .replicas_of(object)
        .iter()
        .find(|row| reads(tables, asked, row))
}

// Whether a replica can be read on a leaf that is asked.
fn reads(tables: &Tables, asked: Option<u32>, row: &ReplicaRow) -> bool
    ensures { result ≡ reads tables.now asked row.now }
{
    row.good && is_up(tables, row.leaf) && is_asked(tables, asked, row.leaf)
}

// Whether the resource is there and up.
fn is_up(tables: &Tables, id: u32) -> bool
    ensures { result ≡ up_by (resource tables.now id) }
{
    match tables.resource(id) {
        None => false,
        Some(row) => row.up,
    }
}

// Whether a leaf is at or below the asked resource, if one is asked.
fn is_asked(tables: &Tables, asked: Option<u32>, leaf: u32) -> bool
    ensures { result ≡ is_asked tables.now asked leaf }
{
    match asked {
        None => true,
        Some(upper) => stands_at(tables, upper, leaf),
    }
}

ghost use Rattle.std.specs.Prelude.{◌≡◌, map, filter, IsTrue, IfOk};
ghost use Rattle.grid_model.specs.Applying.{IsMade};
ghost use Rattle.grid_model.specs.RowGrids.{grid_of, resource_name};
ghost use Rattle.grid_model.specs.Rows.{has_resource};
ghost use Rattle.grid_model.specs.Trees.{children};
ghost use Rattle.grid_model.specs.declared.deltas.ResourceRow.{ResourceRow};
ghost use Rattle.grid_tree.specs.Names.{AreNamed};
ghost use Rattle.grid_tree.specs.Ordered.{AreByPlace};
ghost use Rattle.grid_tree.specs.Steps.{lies_below};

use grid_tables::Tables;
use std::alloc::{AllocError, Global};

/// A child of a resource: its place, by which the children are in order, and its id.
#[derive(Clone, Copy, Debug)]
pub struct Child {
    pub place: u32,
    pub id: u32,
}

/// The children of a resource in their order, by id. Fails for want of memory alone.
pub(crate) fn children(alloc: Global, tables: &Tables, parent: u32) -> Result<Vec<u32>, AllocError>
    requires made { IsMade tables.now }
    requires there { IsTrue (has_resource tables.now parent) }
    ensures { IfOk result (λ ids. AreNamed tables.now ids.items (children (grid_of tables.now).resources (resource_name tables.now parent))) }
{
    let found = children_in_order(alloc, tables, parent)?;
    ids_of(alloc, found.as_slice())
}

/// The children of a resource in the order of their places. Fails for want of memory alone.
pub fn children_in_order(
    alloc: Global,
    tables: &Tables,
    parent: u32,
) -> Result<Vec<Child>, AllocError>
    ensures { IfOk result (λ kids. AreByPlace tables.now parent kids.items) }
{
    let mut found = found_below(alloc, tables, parent)?;
    found.sort_by_key(|child| child.place)?;
    Ok(found)
}

// The children of a resource, by id in the order of their rows.
fn found_below(alloc: Global, tables: &Tables, parent: u32) -> Result<Vec<Child>, AllocError>
    ensures { IfOk result (λ found. found.items ≡ map (λ (resource : ResourceRow). record { place = resource.place; id = resource.id })
        (filter (lies_below parent) tables.now.resources)) }
{
    tables
        .resources()
        .iter()
        .filter(|row| row.parent != 0 && row.parent == parent)
        .map(|row| Child {
            place: row.place,
            id: row.id,
        })
        .collect(alloc)
}

// Their ids.
fn ids_of(alloc: Global, found: &[Child]) -> Result<Vec<u32>, AllocError>
    ensures { IfOk result (λ ids. ids.items ≡ map (λ child. child.id) found.now) }
{
    found.iter().map(|child| child.id).collect(alloc)
}

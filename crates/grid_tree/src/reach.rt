ghost use Rattle.std.specs.Prelude.{◌≡◌, map, filter, flat_map, length, IsTrue, IfOk};
ghost use Rattle.std.specs.List.{AllByRecursion};
ghost use Rattle.grid_model.specs.Applying.{IsMade, is_leaf};
ghost use Rattle.grid_model.specs.RowGrids.{grid_of, resource_name};
ghost use Rattle.grid_model.specs.Rows.{has_resource};
ghost use Rattle.grid_model.specs.Trees.{is_any, possible, possible_from};
ghost use Rattle.grid_tree.specs.Names.{AreNamed};
ghost use Rattle.grid_tree.specs.Steps.{below, is_open};

use crate::siblings::children;
use grid_model::{Items, ResourceKind};
use grid_tables::{Kind, Tables};
use std::alloc::{AllocError, Global};

/// Leaves by their ids, in the order in which they are written.
pub type Leaves = Items<u32>;

/// The leaves that new data of a resource may go to, for some word each. Fails for want of memory alone.
pub fn possible(alloc: Global, tables: &Tables, resource: u32) -> Result<Leaves, AllocError>
    requires made { IsMade tables.now }
    requires there { IsTrue (has_resource tables.now resource) }
    ensures names { IfOk result (λ ids. AreNamed tables.now ids (possible (grid_of tables.now).resources (resource_name tables.now resource))) }
    ensures leaves { IfOk result (λ ids. AllByRecursion (λ id. IsTrue (is_leaf tables.now id)) ids) }
{
    let mut level = vec![in alloc; resource]?;
    for _step in 0..tables.count(Kind::Resources) {
        level = all_below(alloc, tables, level.as_slice())?;
    }
    Ok(Leaves::from_vec(open_leaves(alloc, tables, level.as_slice())?))
}

/// Whether new data of a resource may go to a leaf. Fails for want of memory alone.
pub fn has_targets(alloc: Global, tables: &Tables, resource: u32) -> Result<bool, AllocError>
    requires made { IsMade tables.now }
    requires there { IsTrue (has_resource tables.now resource) }
    ensures { IfOk result (λ any. any ≡ is_any (possible (grid_of tables.now).resources (resource_name tables.now resource))) }
{
    let leaves = possible(alloc, tables, resource)?;
    Ok(!leaves.as_slice().is_empty())
}

// One step down from each of these.
fn all_below(alloc: Global, tables: &Tables, level: &[u32]) -> Result<Vec<u32>, AllocError>
    requires made { IsMade tables.now }
    requires there { AllByRecursion (λ id. IsTrue (has_resource tables.now id)) level.now }
    ensures { IfOk result (λ it. AreNamed tables.now it.items (flat_map (below (grid_of tables.now).resources) (map (resource_name tables.now) level.now))) }
{
    let mut next = Vec::new(alloc);
    for id in level {
        let more = below(alloc, tables, *id)?;
        next.extend_from_slice(more.as_slice())?;
    }
    Ok(next)
}

// One step down from a resource.
fn below(alloc: Global, tables: &Tables, id: u32) -> Result<Vec<u32>, AllocError>
    requires made { IsMade tables.now }
    requires there { IsTrue (has_resource tables.now id) }
    ensures { IfOk result (λ ids. AreNamed tables.now ids.items (below (grid_of tables.now).resources (resource_name tables.now id))) }
{
    match tables.resource(id) {
        None => unreachable!(),
        Some(row) => match row.kind {
            ResourceKind::Storage => {
                if row.up {
                    return Ok(vec![in alloc; id]?);
                }
                Ok(Vec::new(alloc))
            }
            ResourceKind::Passthru => {
                let mut kids = children(alloc, tables, id)?;
                kids.truncate(1);
                Ok(kids)
            }
            ResourceKind::Random | ResourceKind::Replication => children(alloc, tables, id),
        },
    }
}

// Those of these resources that are leaves and up.
pub(crate) fn open_leaves(
    alloc: Global,
    tables: &Tables,
    level: &[u32],
) -> Result<Vec<u32>, AllocError>
    requires made { IsMade tables.now }
    requires there { AllByRecursion (λ id. IsTrue (has_resource tables.now id)) level.now }
    ensures names { IfOk result
        (λ ids. AreNamed tables.now ids.items (flat_map (possible_from 1 (grid_of tables.now).resources) (map (resource_name tables.now) level.now))) }
    ensures leaves { IfOk result (λ ids. AllByRecursion (λ id. IsTrue (is_leaf tables.now id)) ids.items) }
{
    let mut leaves = Vec::new(alloc);
    for id in level {
        if is_open(tables, *id) {
            leaves.push(*id)?;
        }
    }
    Ok(leaves)
}

// Whether this is a leaf that is up.
fn is_open(tables: &Tables, id: u32) -> bool
    ensures { result ≡ is_open tables.now id }
{
    match tables.resource(id) {
        None => false,
        Some(row) => row.up && matches!(row.kind, ResourceKind::Storage),
    }
}

ghost use Rattle.std.specs.Prelude.{◌≡◌, map, flat_map, IsTrue, IfOk};
ghost use Rattle.std.specs.List.{AllByRecursion};
ghost use Rattle.grid_model.specs.Applying.{IsMade, is_leaf};
ghost use Rattle.grid_model.specs.RowGrids.{grid_of, resource_name};
ghost use Rattle.grid_model.specs.Rows.{has_resource};
ghost use Rattle.grid_model.specs.Trees.{targets};
ghost use Rattle.grid_tree.specs.Names.{AreNamed};
ghost use Rattle.grid_tree.specs.Steps.{open_children, spots};
ghost use Rattle.grid_tree.specs.Spots.{AreSpots, picked_ids, spot_name};

use crate::reach::{Leaves, has_targets, open_leaves};
use crate::siblings::children;
use grid_model::ResourceKind;
use grid_tables::{Kind, Tables};
use std::alloc::{AllocError, Global};

/// A resource, and what is left of the word there.
#[derive(Clone, Copy)]
struct Spot {
    id: u32,
    word: u64,
}

/// The leaves that new data of a resource goes to for this word, in their order. Fails for want of memory alone.
pub fn targets(
    alloc: Global,
    tables: &Tables,
    resource: u32,
    word: u64,
) -> Result<Leaves, AllocError>
    requires made { IsMade tables.now }
    requires there { IsTrue (has_resource tables.now resource) }
    ensures names { IfOk result (λ ids. AreNamed tables.now ids (targets (grid_of tables.now).resources (resource_name tables.now resource) word)) }
    ensures leaves { IfOk result (λ ids. AllByRecursion (λ id. IsTrue (is_leaf tables.now id)) ids) }
{
    let mut level = vec![in alloc; Spot { id: resource, word }]?;
    for _step in 0..tables.count(Kind::Resources) {
        level = all_spots(alloc, tables, level.as_slice())?;
    }
    let ids = ids_of(alloc, level.as_slice())?;
    Ok(Leaves::from_vec(open_leaves(alloc, tables, ids.as_slice())?))
}

// One step down from each of these.
fn all_spots(alloc: Global, tables: &Tables, level: &[Spot]) -> Result<Vec<Spot>, AllocError>
    requires made { IsMade tables.now }
    requires there { AllByRecursion (λ s. IsTrue (has_resource tables.now s.id)) level.now }
    ensures { IfOk result (λ next. AreSpots tables.now next.items (flat_map (spots (grid_of tables.now).resources) (map (spot_name tables.now) level.now))) }
{
    let mut next = Vec::new(alloc);
    for spot in level {
        let more = spots_below(alloc, tables, *spot)?;
        next.extend_from_slice(more.as_slice())?;
    }
    Ok(next)
}

// One step down from a resource for the word there.
fn spots_below(alloc: Global, tables: &Tables, spot: Spot) -> Result<Vec<Spot>, AllocError>
    requires made { IsMade tables.now }
    requires there { IsTrue (has_resource tables.now spot.id) }
    ensures { IfOk result (λ next. AreSpots tables.now next.items (spots (grid_of tables.now).resources (resource_name tables.now spot.id, spot.word))) }
{
    match tables.resource(spot.id) {
        None => unreachable!(),
        Some(row) => match row.kind {
            ResourceKind::Storage => {
                if row.up {
                    return Ok(vec![in alloc; spot]?);
                }
                Ok(Vec::new(alloc))
            }
            ResourceKind::Passthru => {
                let mut kids = children(alloc, tables, spot.id)?;
                kids.truncate(1);
                with_word(alloc, kids.as_slice(), spot.word)
            }
            ResourceKind::Random => {
                let kids = open_children(alloc, tables, spot.id)?;
                picked(alloc, kids.as_slice(), spot.word)
            }
            ResourceKind::Replication => {
                let kids = children(alloc, tables, spot.id)?;
                with_word(alloc, kids.as_slice(), spot.word)
            }
        },
    }
}

// Each of these with the word.
fn with_word(alloc: Global, kids: &[u32], word: u64) -> Result<Vec<Spot>, AllocError>
    ensures { IfOk result (λ spots. spots.items ≡ map (λ id. record { id = id; word = word }) kids.now) }
{
    kids.iter().map(|id| Spot { id: *id, word }).collect(alloc)
}

// Of so many the one that the word's remainder tells, with the word's quotient.
fn picked(alloc: Global, kids: &[u32], word: u64) -> Result<Vec<Spot>, AllocError>
    ensures { IfOk result (λ spots. spots.items ≡ picked_ids kids.now word) }
{
    if kids.is_empty() {
        return Ok(Vec::new(alloc));
    }
    let count = kids.len() as u64;
    let id = kids[(word % count) as usize];
    let word = word / count;
    Ok(vec![in alloc; Spot { id, word }]?)
}

// The children of a resource that new data may go to.
fn open_children(alloc: Global, tables: &Tables, id: u32) -> Result<Vec<u32>, AllocError>
    requires made { IsMade tables.now }
    requires there { IsTrue (has_resource tables.now id) }
    ensures { IfOk result (λ ids. AreNamed tables.now ids.items (open_children (grid_of tables.now).resources (resource_name tables.now id))) }
{
    let kids = children(alloc, tables, id)?;
    let mut open = Vec::new(alloc);
    for kid in &kids {
        if has_targets(alloc, tables, *kid)? {
            open.push(*kid)?;
        }
    }
    Ok(open)
}

// The ids of these.
fn ids_of(alloc: Global, level: &[Spot]) -> Result<Vec<u32>, AllocError>
    ensures { IfOk result (λ ids. ids.items ≡ map (λ s. s.id) level.now) }
{
    level.iter().map(|spot| spot.id).collect(alloc)
}

ghost use Rattle.std.specs.Prelude.{◌≡◌, ◌==◌, IsTrue, IfOk, Some};
ghost use Rattle.std.specs.List.{AllByRecursion, list_any};
ghost use Rattle.grid_model.specs.Applying.{is_leaf};
ghost use Rattle.grid_model.specs.Whole.{leaf_slot};
ghost use Rattle.plan_object.specs.OverPlans.{slot_on};
ghost use Rattle.plan_object.specs.PutPlans.{AreTargets};

use grid_tables::Tables;
use std::alloc::{AllocError, Global};

/// A leaf that is written, and the slot of its store.
#[derive(Clone, Copy)]
pub(crate) struct Target {
    pub(crate) leaf: u32,
    pub(crate) slot: u8,
}

/// The leaves with their slots, each once, in the order in which they come first. Fails for want of memory alone.
pub(crate) fn targets_of(
    alloc: Global,
    tables: &Tables,
    leaves: &[u32],
) -> Result<Vec<Target>, AllocError>
    requires { AllByRecursion (λ id. IsTrue (is_leaf tables.now id)) leaves.now }
    ensures { IfOk result (λ targets. AreTargets tables.now leaves.now targets.items) }
{
    let mut targets = Vec::new(alloc);
    for leaf in leaves {
        if !has_leaf(targets.as_slice(), *leaf) {
            targets.push(target_of(tables, *leaf))?;
        }
    }
    Ok(targets)
}

/// Whether one of these is on the leaf.
pub(crate) fn has_leaf(targets: &[Target], leaf: u32) -> bool
    ensures { result ≡ list_any (λ t. t.leaf == leaf) targets.now }
{
    targets.iter().any(|target| target.leaf == leaf)
}

/// The slot of the one of these that is on the leaf, if there is one.
pub(crate) fn slot_on(targets: &[Target], leaf: u32) -> Option<u8>
    ensures { result ≡ slot_on targets.now leaf }
{
    match targets.iter().find(|target| target.leaf == leaf) {
        None => None,
        Some(target) => Some(target.slot),
    }
}

// A leaf with its slot.
fn target_of(tables: &Tables, leaf: u32) -> Target
    requires { IsTrue (is_leaf tables.now leaf) }
    ensures leaf { result.leaf ≡ leaf }
    ensures slot { leaf_slot tables.now leaf ≡ Some result.slot }
{
    match tables.resource(leaf) {
        None => unreachable!(),
        Some(row) => Target {
            leaf,
            slot: row.slot,
        },
    }
}

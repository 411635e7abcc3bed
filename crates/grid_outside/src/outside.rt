ghost use Rattle.std.specs.Prelude.{◌≡◌, ◌∷◌, ◌++◌, [], OnOk, OnErr};
ghost use Rattle.grid_outside.specs.Device.{EachMember};

use crate::{Moments, Plugin};
use std::alloc::AllocError;

/// The devices that a run works on, with stores of one type, which are boxed ones where nothing else is said. Source
/// and sink are handed in beside it.
#[derive(Drop)]
pub struct Outside<D, A, P = Box<dyn Plugin>> {
    /// The disk that has the catalogue, or the root that says where it stands.
    pub main: D,
    /// The other disk.
    pub spare: D,
    /// A slot is a place in this list, counted from 0.
    pub stores: Vec<P>,
    pub ambient: A,
    pub moments: Moments,
}

/// What has run out for good.
#[derive(Clone, Copy, Debug, PartialEq, Eq)]
pub enum Wear {
    /// The numbers of runs.
    Runs,
    /// The numbers of vault files.
    Vaults,
    /// The room of the catalogue's log.
    Log,
}

/// Puts a store to which no moment was given yet on the next slot.
pub fn add_store(
    stores: &mut Vec<Box<dyn Plugin>>,
    store: Box<dyn Plugin>,
) -> Result<(), AllocError>
    requires fresh { (plugin store).last ≡ 0 }
    requires each { EachMember (λ k member. (plugin member).last ≡ 0) stores.old.items }
    ensures each { EachMember (λ k member. (plugin member).last ≡ 0) stores.new.items }
    ensures added { OnOk result (stores.new.items ≡ stores.old.items ++ store ∷ []) }
    ensures failed { OnErr result (stores.new.items ≡ stores.old.items) }
{
    stores.push(store)?;
    Ok(())
}

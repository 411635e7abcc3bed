ghost use Rattle.std.specs.Prelude.{◌≡◌, IfOk};
ghost use Rattle.std.specs.List.Sorted.{IsStrictlyIncreasing};
ghost use Rattle.grid_tables.specs.Counts.{count_of, ids_of};

use crate::Tables;
use grid_model::Items;
use std::alloc::{AllocError, Global};

/// What rows there are.
#[derive(Clone, Copy, Debug, PartialEq, Eq)]
pub enum Kind {
    /// Users and groups.
    Users,
    Collections,
    Objects,
    Resources,
    Members,
    Triples,
    Entries,
}

/// Ids of rows, in rising order.
pub type Ids = Items<u64>;

impl Tables {
    /// How many rows of this kind there are. It takes no memory.
    pub fn count(&self, kind: Kind) -> u64
        ensures { result ≡ count_of self.now kind }
    {
        let count = match kind {
            Kind::Users => self.users.len(),
            Kind::Collections => self.collections.len(),
            Kind::Objects => self.objects.len(),
            Kind::Resources => self.resources.len(),
            Kind::Members => self.members.len(),
            Kind::Triples => self.triples.len(),
            Kind::Entries => self.entries.len(),
        };
        count as u64
    }

    /// The ids of all rows of this kind, in rising order; none where the rows have no ids, which are members, triples
    /// and entries. Fails for want of memory alone.
    pub fn ids(&self, alloc: Global, kind: Kind) -> Result<Ids, AllocError>
        ensures ids { IfOk result (λ ids. ids ≡ ids_of self.now kind) }
        ensures rising { IfOk result IsStrictlyIncreasing }
    {
        let ids = match kind {
            Kind::Users => self.users.ids(alloc)?,
            Kind::Collections => self.collections.ids(alloc)?,
            Kind::Objects => self.objects.ids(alloc)?,
            Kind::Resources => self.resources.ids(alloc)?,
            Kind::Members | Kind::Triples | Kind::Entries => Vec::new(alloc),
        };
        Ok(Items::from_vec(ids))
    }
}

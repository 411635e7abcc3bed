ghost use Rattle.std.specs.Prelude.{◌≡◌, ◌==◌, ◌≤◌, ◌<◌, length, map};
ghost use Rattle.std.specs.Iterator.{YieldsFirst, item_count};
ghost use Rattle.std.specs.Ordering.{nat_cmp, ordering_then};
ghost use Rattle.grid_model.specs.Names.{text_cmp};
ghost use Rattle.std.proofs.Common.{ap, ◌∙◌};
ghost use Rattle.grid_tables.specs.ChildKeys.{child_cmp, child_total, child_whole, parent_falls, child_falls};
ghost use Rattle.grid_tables.specs.KeyOrders.{number_own};

use crate::index_key::{IndexKey, OwnKey};
use crate::kinds::then_text;
use crate::placed::Placed;
use grid_model::Text;
use sorted_list::{Front, Key, Run};
use std::alloc::{AllocError, Global};
use std::cmp::Ordering;
use std::marker::Model;

/// A collection or an object by its name in the collection that it lies in.
#[derive(Debug, Drop)]
pub(crate) struct ChildKey {
    pub(crate) parent: u64,
    pub(crate) name: Text,
    pub(crate) id: u64,
}

impl Key for ChildKey {
    ghost order = { child_cmp };

    ghost total = { child_total };

    fn order(&self, other: &ChildKey) -> Ordering {
        then_text(self.parent.cmp(&other.parent), &self.name, &other.name).then(
            self.id.cmp(&other.id),
        )
    }
}

impl<T: Placed> IndexKey<T> for ChildKey {
    ghost of = { λ r. record { parent = T.parent r; name = T.name r; id = T.number r } };

    ghost whole = { child_whole };

    fn key_of(alloc: Global, row: &T) -> Result<ChildKey, AllocError> {
        let name = Text::copy_of(alloc, row.name().as_slice())?;
        Ok(ChildKey {
            parent: row.parent(),
            name,
            id: row.number(),
        })
    }

    fn compare_key(row: &T, other: &ChildKey) -> Ordering {
        then_text(row.parent().cmp(&other.parent), row.name(), &other.name).then(
            row.number().cmp(&other.id),
        )
    }
}

impl<T: Placed> OwnKey<T> for ChildKey {
    ghost own = { λ a b same. T.by_number a b ∙ number_own (T.number a) (T.number b) (ap (λ k. k.id) same) };
}

/// By the parent.
impl Front<ChildKey> for u64 {
    ghost side = { λ q k. nat_cmp q k.parent };

    ghost falls = { parent_falls };

    fn side(&self, key: &ChildKey) -> Ordering {
        self.cmp(&key.parent)
    }
}

/// By the parent, and then by the name.
impl Front<ChildKey> for (u64, &Text) {
    ghost side = { λ q k. ordering_then (nat_cmp q.0 k.parent) (text_cmp q.1.now k.name) };

    ghost falls = { λ q a b less. child_falls q.0 q.1.now a b less };

    fn side(&self, key: &ChildKey) -> Ordering {
        then_text(self.0.cmp(&key.parent), self.1, &key.name)
    }
}

/// The ids of what lies in a collection, in the order of the names. It is an iterator over them, and takes no memory.
#[derive(Debug, Drop)]
pub struct ChildIds<'a> {
    keys: Run<'a, ChildKey>,
}

impl<'a> Model for ChildIds<'a> {
    ghost use Rattle.std.specs.Prelude.{List, ℕ, map};

    ghost Value = { List ℕ };

    ghost view = { λ c. map (λ k. k.id) c.keys };
}

impl<'a> ChildIds<'a> {
    /// The ids of these.
    pub(crate) fn of(keys: Run<'a, ChildKey>) -> ChildIds<'a>
        ensures { result ≡ map (λ k. k.id) keys.entry }
    {
        ChildIds { keys }
    }

    /// Whether there is none.
    pub fn is_empty(&self) -> bool
        ensures { result ≡ (length self.now == 0) }
    {
        self.keys.is_empty()
    }

    /// How many there are; the greatest number where there are more.
    pub fn len(&self) -> usize
        ensures low { result ≤ length self.now }
        ensures exact { result < usize.MAX → result ≡ length self.now }
    {
        self.keys.len()
    }
}

impl<'a> Iterator for ChildIds<'a> {
    type Item = u64;

    ghost next_gives = { YieldsFirst (λ c. c) };

    ghost remaining = { item_count (λ c. c) };

    fn next(&mut self) -> Option<u64> {
        match self.keys.next() {
            Some(key) => Some(key.id),
            None => None,
        }
    }
}

ghost use Rattle.std.specs.Prelude.{◌≡◌, true, false, [], find, filter, not, IfOk, OnOk, OnErr};
ghost use Rattle.std.specs.List.{list_any};
ghost use Rattle.std.specs.List.Sorted.{IsStrictlySortedBy};
ghost use Rattle.std.specs.Option.{option_copied};
ghost use Rattle.std.specs.Ordering.{is_eq};
ghost use Rattle.std.specs.BTreeSet.{replace_key};

use crate::blocks::{first_behind, insert, place_of, replace, seek, take_out};
use crate::key::{Front, Key, Whole};
use crate::run::Run;
use std::alloc::{AllocError, Global};
use std::marker::Model;

/// Keys in rising order, in blocks: a key is found in a number of steps that grows as the logarithm of theirs, and where
/// one is put or taken out, at most those of one block are moved.
#[derive(Debug, Drop)]
pub struct SortedList<K: Key> {
    blocks: Vec<Vec<K>>,
    alloc: Global,
}

impl<K: Key> Model for SortedList<K> {
    ghost use Rattle.std.specs.Prelude.{List};
    ghost use Rattle.sorted_list.specs.Blocks.{joined, AreBlocks};

    ghost Value = { List K };

    ghost view = { λ t. joined t.blocks.items };

    ghost invariant = { λ t. AreBlocks K.order t.blocks.items };
}

impl<K: Key> SortedList<K> {
    /// No keys. It takes no memory.
    pub fn new(alloc: Global) -> SortedList<K>
        ensures { result ≡ [] }
    {
        SortedList {
            blocks: Vec::new(alloc),
            alloc,
        }
    }

    /// The keys strictly rise. It does nothing.
    pub fn in_order(&self)
        ensures { IsStrictlySortedBy K.order self.now }
    {
        let _blocks = &self.blocks;
    }

    /// The first key with a front. It takes no memory.
    pub fn find<F: Front<K>>(&self, front: F) -> Option<&K>
        ensures { option_copied result ≡ find (λ k. is_eq (F.side front k)) self.now }
    {
        let blocks = self.blocks.as_slice();
        let place = place_of(blocks, front, false);
        match first_behind(blocks, place) {
            Some(key) => {
                if front.side(key).is_eq() {
                    return Some(key);
                }
                None
            }
            None => None,
        }
    }

    /// The keys with a front, in rising order. It takes no memory.
    pub fn at<F: Front<K>>(&self, front: F) -> Run<'_, K>
        ensures { result ≡ filter (λ k. is_eq (F.side front k)) self.now }
    {
        Run::of(self.blocks.as_slice(), front)
    }
}

impl<K: Key + Drop> SortedList<K> {
    /// Puts a key in the place of the one that it ties with, or where it belongs, and answers whether it tied with none.
    /// Fails for want of memory alone, and then nothing is put.
    pub fn put(&mut self, key: K) -> Result<bool, AllocError>
        ensures put { OnOk result (self.new ≡ replace_key K.order self.old key) }
        ensures new { IfOk result (λ is_new. is_new ≡ not (list_any (λ k. is_eq (K.order key k)) self.old)) }
        ensures failed { OnErr result (self.new ≡ self.old) }
    {
        match seek(self.blocks.as_slice(), &key) {
            Ok(place) => {
                replace(&mut self.blocks, place, key);
                Ok(false)
            }
            Err(place) => {
                insert(self.alloc, &mut self.blocks, place, key)?;
                Ok(true)
            }
        }
    }

    /// Takes out the key with a front, where there is one.
    pub fn remove<F: Whole<K>>(&mut self, front: F)
        ensures { self.new ≡ filter (λ k. not (is_eq (F.side front k))) self.old }
    {
        match seek(self.blocks.as_slice(), front) {
            Ok(place) => take_out(&mut self.blocks, place),
            Err(_) => {}
        }
    }
}

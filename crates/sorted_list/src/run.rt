ghost use Rattle.std.specs.Prelude.{◌≡◌, ◌<◌, ◌≤◌, ◌==◌, ◌++◌, true, filter, length, slice_get};
ghost use Rattle.std.specs.Iterator.{YieldsFirstRef, item_count};
ghost use Rattle.std.specs.Option.{option_copied};
ghost use Rattle.std.specs.List.Sorted.{IsStrictlySortedBy};
ghost use Rattle.std.specs.Ordering.{is_eq};
ghost use Rattle.sorted_list.specs.Blocks.{joined, AreBlocks, IsFrontBy};
ghost use Rattle.sorted_list.specs.Fronts.{is_before};

use crate::blocks::{blocks_before, keys_before, place_of};
use crate::key::{Front, Key};
use std::marker::Model;

/// Keys that stand next to one another in a list, from the first one on. It is an iterator over them.
#[derive(Debug, Drop)]
pub struct Run<'a, K> {
    keys: &'a [K],
    blocks: &'a [Vec<K>],
    last: &'a [K],
}

impl<'a, K> Model for Run<'a, K> {
    ghost use Rattle.std.specs.Prelude.{List, ◌++◌};
    ghost use Rattle.sorted_list.specs.Blocks.{joined, AreFilled};

    ghost Value = { List K };

    ghost view = { λ r. r.keys.now ++ (joined r.blocks.now ++ r.last.now) };

    ghost invariant = { λ r. AreFilled r.blocks.now };
}

impl<'a, K> Run<'a, K> {
    /// The first key.
    pub fn first(&self) -> Option<&'a K>
        ensures { option_copied result ≡ slice_get self.now 0 }
    {
        match self.keys.first() {
            Some(key) => return Some(key),
            None => {}
        }
        match self.blocks.first() {
            Some(block) => block.first(),
            None => self.last.first(),
        }
    }

    /// Whether there is none.
    pub fn is_empty(&self) -> bool
        ensures { result ≡ (length self.now == 0) }
    {
        self.first().is_none()
    }

    /// How many keys there are; the greatest number where there are more.
    pub fn len(&self) -> usize
        ensures low { result ≤ length self.now }
        ensures exact { result < usize.MAX → result ≡ length self.now }
    {
        let mut count = self.keys.len().saturating_add(self.last.len());
        for block in self.blocks {
            count = count.saturating_add(block.len());
        }
        count
    }
}

// The keys from the first one on that do not stand behind those with a front, of some and those of blocks behind them.
fn run_before<'a, K: Key, F: Front<K>>(keys: &'a [K], blocks: &'a [Vec<K>], front: F) -> Run<'a, K>
    requires { AreBlocks K.order blocks.now }
    ensures { IsStrictlySortedBy K.order (keys.now ++ joined blocks.now) → IsFrontBy (λ k. is_before true (F.side front k)) (keys.now ++ joined blocks.now) result }
{
    let count = blocks_before(blocks, front, true);
    if count == 0 {
        let (keys, _) = keys.split_at(keys_before(keys, front, true));
        return Run {
            keys,
            blocks: &[],
            last: &[],
        };
    }
    let (whole, rest) = blocks.split_at(count - 1);
    let last = rest[0].as_slice();
    let (last, _) = last.split_at(keys_before(last, front, true));
    Run {
        keys,
        blocks: whole,
        last,
    }
}

impl<'a, K: Key> Run<'a, K> {
    /// The keys of blocks with a front.
    pub(crate) fn of<F: Front<K>>(blocks: &'a [Vec<K>], front: F) -> Run<'a, K>
        requires { AreBlocks K.order blocks.now }
        ensures { result ≡ filter (λ k. is_eq (F.side front k)) (joined blocks.now) }
    {
        let start = place_of(blocks, front, false);
        match blocks.get(start.block) {
            Some(block) => {
                let (_, keys) = block.as_slice().split_at(start.at);
                let (_, behind) = blocks.split_at(start.block + 1);
                run_before(keys, behind, front)
            }
            None => Run {
                keys: &[],
                blocks: &[],
                last: &[],
            },
        }
    }
}

impl<'a, K> Iterator for Run<'a, K> {
    type Item = &'a K;

    ghost next_gives = { YieldsFirstRef (λ r. r) };

    ghost remaining = { item_count (λ r. r) };

    fn next(&mut self) -> Option<&'a K> {
        if self.keys.is_empty() {
            match self.blocks.split_first() {
                Some((block, blocks)) => {
                    self.keys = block.as_slice();
                    self.blocks = blocks;
                }
                None => {
                    self.keys = self.last;
                    self.last = &[];
                }
            }
        }
        let (key, keys) = self.keys.split_first()?;
        self.keys = keys;
        Some(key)
    }
}

ghost use Rattle.std.specs.Prelude.{◌≡◌, ◌<◌, ◌≤◌, ◌+◌, ◌++◌, ◌∷◌, [], ℕ, Bool, true, false, length, drop, slice_get, IfOk, IfErr, OnOk, OnErr};
ghost use Rattle.std.specs.List.{AllByRecursion, HoldsAt, remove};
ghost use Rattle.std.specs.Option.{option_copied};
ghost use Rattle.std.specs.Ordering.{is_eq};
ghost use Rattle.std.specs.declared.cmp.Ordering.TheVariants.{Less, Greater};
ghost use Rattle.sorted_list.specs.Blocks.{joined, AreFilled, AreBlocks, in_front, behind, begins, IsWithin, IsInside, IsCutBy, IsCutInTwo};
ghost use Rattle.sorted_list.specs.Fronts.{is_before};

use crate::key::{Front, Key, Whole};
use std::alloc::{AllocError, Global};
use std::cmp::Ordering;

// So many keys are moved at most where one is put or taken out.
const BLOCK_KEYS: usize = 128;

/// A place among the keys of blocks: in one of them, behind so many of its keys.
#[derive(Clone, Copy)]
pub(crate) struct Place {
    pub(crate) block: usize,
    pub(crate) at: usize,
}

// Whether a key stands before those with a front, and with the flag, whether it stands before those behind them.
fn is_before(side: Ordering, at: bool) -> bool
    ensures { result ≡ is_before at side }
{
    match side {
        Ordering::Less => false,
        Ordering::Equal => at,
        Ordering::Greater => true,
    }
}

// Whether the first key of a block does.
fn begins_before<K: Key, F: Front<K>>(keys: &[K], front: F, at: bool) -> bool
    ensures { result ≡ begins (λ k. is_before at (F.side front k)) keys.now }
{
    match keys.first() {
        Some(key) => is_before(front.side(key), at),
        None => false,
    }
}

/// How many blocks from the first one on begin with such a key.
pub(crate) fn blocks_before<K: Key, F: Front<K>>(blocks: &[Vec<K>], front: F, at: bool) -> usize
    ensures within { result ≤ length blocks.now }
    ensures cut { IsCutBy (λ b. begins (λ k. is_before at (F.side front k)) b.items) blocks.now result }
{
    blocks.partition_point(|block| begins_before(block.as_slice(), front, at))
}

/// How many keys from the first one on are such.
pub(crate) fn keys_before<K: Key, F: Front<K>>(keys: &[K], front: F, at: bool) -> usize
    ensures within { result ≤ length keys.now }
    ensures cut { IsCutBy (λ k. is_before at (F.side front k)) keys.now result }
{
    keys.partition_point(|key| is_before(front.side(key), at))
}

/// The place behind the keys that stand before those with a front, or with the flag, behind those with the front too.
pub(crate) fn place_of<K: Key, F: Front<K>>(blocks: &[Vec<K>], front: F, at: bool) -> Place
    ensures within { IsWithin blocks.now result.block result.at }
    ensures before { AreBlocks K.order blocks.now → AllByRecursion (λ k. is_before at (F.side front k) ≡ true) (in_front blocks.now result.block result.at) }
    ensures rest { AreBlocks K.order blocks.now → AllByRecursion (λ k. is_before at (F.side front k) ≡ false) (behind blocks.now result.block result.at) }
    ensures first { AreBlocks K.order blocks.now → result.at ≡ 0 → in_front blocks.now result.block result.at ≡ [] }
{
    let count = blocks_before(blocks, front, at);
    if count == 0 {
        return Place { block: 0, at: 0 };
    }
    let block = count - 1;
    let keys = blocks[block].as_slice();
    let at = keys_before(keys, front, at);
    Place { block, at }
}

/// The first key behind a place.
pub(crate) fn first_behind<K: Key>(blocks: &[Vec<K>], place: Place) -> Option<&K>
    requires within { IsWithin blocks.now place.block place.at }
    requires filled { AreFilled blocks.now }
    ensures { option_copied result ≡ slice_get (behind blocks.now place.block place.at) 0 }
{
    match blocks.get(place.block) {
        Some(block) => match block.get(place.at) {
            Some(key) => Some(key),
            None => first_of(blocks, place.block + 1),
        },
        None => None,
    }
}

// The first key of a block.
fn first_of<K: Key>(blocks: &[Vec<K>], block: usize) -> Option<&K>
    requires { AreFilled blocks.now }
    ensures { option_copied result ≡ slice_get (joined (drop block blocks.now)) 0 }
{
    match blocks.get(block) {
        Some(block) => block.first(),
        None => None,
    }
}

// Whether the key at a place has a front.
fn is_at<K: Key, F: Front<K>>(blocks: &[Vec<K>], place: Place, front: F) -> bool
    requires block { place.block < length blocks.now }
    requires inside { IsInside blocks.now place.block place.at }
    ensures { result ≡ begins (λ k. is_eq (F.side front k)) (behind blocks.now place.block place.at) }
{
    let keys = blocks[place.block].as_slice();
    front.side(&keys[place.at]).is_eq()
}

/// Where the key with a front is, or where it belongs.
pub(crate) fn seek<K: Key, F: Whole<K>>(blocks: &[Vec<K>], front: F) -> Result<Place, Place>
    ensures inside { IfOk result (λ p. IsInside blocks.now p.block p.at) }
    ensures within { IfErr result (λ p. IsWithin blocks.now p.block p.at) }
    ensures found { AreBlocks K.order blocks.now → IfOk result (λ p. begins (λ k. is_eq (F.side front k)) (behind blocks.now p.block p.at) ≡ true) }
    ensures before { AreBlocks K.order blocks.now → IfErr result (λ p. AllByRecursion (λ k. F.side front k ≡ Greater) (in_front blocks.now p.block p.at)) }
    ensures rest { AreBlocks K.order blocks.now → IfErr result (λ p. AllByRecursion (λ k. F.side front k ≡ Less) (behind blocks.now p.block p.at)) }
{
    let place = place_of(blocks, front, true);
    if place.at == 0 {
        return Err(place);
    }
    let last = Place {
        block: place.block,
        at: place.at - 1,
    };
    if is_at(blocks, last, front) {
        return Ok(last);
    }
    Err(place)
}

/// Puts a key in the place of the one at a place.
pub(crate) fn replace<K: Key + Drop>(blocks: &mut Vec<Vec<K>>, place: Place, key: K)
    requires { IsInside blocks.old.items place.block place.at }
    ensures keys { joined blocks.new.items ≡ in_front blocks.old.items place.block place.at ++ key ∷ drop 1 (behind blocks.old.items place.block place.at) }
    ensures filled { AreFilled blocks.old.items → AreFilled blocks.new.items }
{
    let block = &mut blocks[place.block];
    block[place.at] = key;
}

// Takes the key at a place out of a block of several.
fn take_one<K: Key + Drop>(block: &mut Vec<K>, at: usize)
    requires { at < length block.old.items }
    ensures { block.new.items ≡ remove block.old.items at }
{
    block.remove(at);
}

/// Takes the key at a place out, and its block with its last one.
pub(crate) fn take_out<K: Key + Drop>(blocks: &mut Vec<Vec<K>>, place: Place)
    requires { IsInside blocks.old.items place.block place.at }
    ensures keys { joined blocks.new.items ≡ in_front blocks.old.items place.block place.at ++ drop 1 (behind blocks.old.items place.block place.at) }
    ensures filled { AreFilled blocks.old.items → AreFilled blocks.new.items }
{
    if blocks[place.block].len() == 1 {
        blocks.remove(place.block);
        return;
    }
    let block = &mut blocks[place.block];
    take_one(block, place.at);
}

// Puts a key at a place of a block. Fails for want of memory alone, and then nothing is put.
fn put_in<K: Key + Drop>(blocks: &mut Vec<Vec<K>>, place: Place, key: K) -> Result<(), AllocError>
    requires some { 0 < length blocks.old.items }
    requires within { IsWithin blocks.old.items place.block place.at }
    ensures put { OnOk result (joined blocks.new.items ≡ in_front blocks.old.items place.block place.at ++ key ∷ behind blocks.old.items place.block place.at) }
    ensures failed { OnErr result (joined blocks.new.items ≡ joined blocks.old.items) }
    ensures filled { AreFilled blocks.old.items → AreFilled blocks.new.items }
{
    let block = &mut blocks[place.block];
    block.insert(place.at, key)?;
    Ok(())
}

// Where a full block is cut in two: in its middle, and at the end of all blocks before its last key, so that blocks are
// full where keys are put in order.
fn middle(count: usize, is_last: bool) -> usize
    requires { 1 < count }
    ensures some { 0 < result }
    ensures rest { result < count }
{
    if is_last { count - 1 } else { count / 2 }
}

// Cuts a block in two. Fails for want of memory alone, and then all stays.
fn cut<K: Key + Drop>(
    blocks: &mut Vec<Vec<K>>,
    block: usize,
    middle: usize,
) -> Result<(), AllocError>
    requires within { block < length blocks.old.items }
    requires middle { HoldsAt (λ b. middle ≤ length b.items) blocks.old.items block }
    ensures cut { OnOk result (IsCutInTwo blocks.old.items block middle blocks.new.items) }
    ensures failed { OnErr result (blocks.new.items ≡ blocks.old.items) }
{
    blocks.reserve(1)?;
    let first = &mut blocks[block];
    let back = first.split_off(middle)?;
    let _ = blocks.insert(block + 1, back);
    Ok(())
}

// A place with the same keys in front of it and behind it, in a block that is not full. Fails for want of memory alone.
fn make_room<K: Key + Drop>(blocks: &mut Vec<Vec<K>>, place: Place) -> Result<Place, AllocError>
    requires some { 0 < length blocks.old.items }
    requires within { IsWithin blocks.old.items place.block place.at }
    ensures some { 0 < length blocks.new.items }
    ensures within { IfOk result (λ p. IsWithin blocks.new.items p.block p.at) }
    ensures front { IfOk result (λ p. in_front blocks.new.items p.block p.at ≡ in_front blocks.old.items place.block place.at) }
    ensures behind { IfOk result (λ p. behind blocks.new.items p.block p.at ≡ behind blocks.old.items place.block place.at) }
    ensures failed { OnErr result (joined blocks.new.items ≡ joined blocks.old.items) }
    ensures filled { AreFilled blocks.old.items → AreFilled blocks.new.items }
{
    let count = blocks[place.block].len();
    if count < BLOCK_KEYS {
        return Ok(place);
    }
    let is_last = place.at == count && place.block + 1 == blocks.len();
    let middle = middle(count, is_last);
    cut(blocks, place.block, middle)?;
    if place.at <= middle {
        return Ok(place);
    }
    Ok(Place {
        block: place.block + 1,
        at: place.at - middle,
    })
}

// Puts a key in a first block. Fails for want of memory alone, and then nothing is put.
fn begin<K: Key + Drop>(alloc: Global, blocks: &mut Vec<Vec<K>>, key: K) -> Result<(), AllocError>
    requires { blocks.old.items ≡ [] }
    ensures put { OnOk result (joined blocks.new.items ≡ key ∷ []) }
    ensures failed { OnErr result (blocks.new.items ≡ blocks.old.items) }
    ensures filled { AreFilled blocks.new.items }
{
    let mut block = Vec::new(alloc);
    block.push(key)?;
    blocks.push(block)?;
    Ok(())
}

/// Puts a key at a place. Fails for want of memory alone, and then nothing is put.
pub(crate) fn insert<K: Key + Drop>(
    alloc: Global,
    blocks: &mut Vec<Vec<K>>,
    place: Place,
    key: K,
) -> Result<(), AllocError>
    requires { IsWithin blocks.old.items place.block place.at }
    ensures put { OnOk result (joined blocks.new.items ≡ in_front blocks.old.items place.block place.at ++ key ∷ behind blocks.old.items place.block place.at) }
    ensures failed { OnErr result (joined blocks.new.items ≡ joined blocks.old.items) }
    ensures filled { AreFilled blocks.old.items → AreFilled blocks.new.items }
{
    if blocks.is_empty() {
        return begin(alloc, blocks, key);
    }
    let place = make_room(blocks, place)?;
    put_in(blocks, place, key)
}

ghost use Rattle.std.specs.Prelude.{◌≡◌, ◌==◌, ◌<◌, ◌^◌, length, map, find, option_map, IfOk, OnOk};
ghost use Rattle.std.specs.List.{list_any};
ghost use Rattle.plan_object.specs.LeafNumbers.{above_all, first_gap, fresh_number, leaf_number_of, leaf_number_on, more_taken};

use grid_model::ReplicaRow;
use std::alloc::{AllocError, Global};

/// The number that an object's replica on a leaf has.
#[derive(Clone, Copy)]
pub(crate) struct LeafNumber {
    pub(crate) leaf: u32,
    pub(crate) number: u32,
}

/// The numbers of these replicas on their leaves. Fails for want of memory alone.
pub(crate) fn leaf_numbers(
    alloc: Global,
    rows: &[ReplicaRow],
) -> Result<Vec<LeafNumber>, AllocError>
    ensures { IfOk result (λ taken. taken.items ≡ map leaf_number_of rows.now) }
{
    let mut taken = Vec::new(alloc);
    for row in rows {
        taken.push(LeafNumber {
            leaf: row.leaf,
            number: row.number,
        })?;
    }
    Ok(taken)
}

/// The number of the replica on a leaf: the one that it has, or the next one, which is then taken. Fails for want of memory
/// alone.
pub(crate) fn number_on(taken: &mut Vec<LeafNumber>, leaf: u32) -> Result<u32, AllocError>
    requires { length taken.old.items < 2 ^ 32 }
    ensures number { IfOk result (λ n. n ≡ (leaf_number_on taken.old.items leaf).number) }
    ensures taken { OnOk result (taken.new.items ≡ more_taken taken.old.items leaf) }
{
    match number_there(taken.as_slice(), leaf) {
        Some(number) => Ok(number),
        None => {
            let number = fresh_number(taken.as_slice());
            taken.push(LeafNumber { leaf, number })?;
            Ok(number)
        }
    }
}

// The number that the replica on a leaf has, if there is one.
fn number_there(taken: &[LeafNumber], leaf: u32) -> Option<u32>
    ensures { result ≡ option_map (λ n. n.number) (find (λ n. n.leaf == leaf) taken.now) }
{
    match taken.iter().find(|there| there.leaf == leaf) {
        None => None,
        Some(there) => Some(there.number),
    }
}

// One more than the greatest number, and where that has no 32 bits the least that is not taken.
fn fresh_number(taken: &[LeafNumber]) -> u32
    requires { length taken.now < 2 ^ 32 }
    ensures { result ≡ fresh_number taken.now }
{
    let above = above_all(taken);
    if above > u64::from(u32::MAX) {
        return first_gap(taken);
    }
    above as u32
}

// One more than the greatest number, and 0 without any.
fn above_all(taken: &[LeafNumber]) -> u64
    ensures { result ≡ above_all taken.now }
{
    let mut above = 0;
    for there in taken {
        above = above.max(u64::from(there.number) + 1);
    }
    above
}

// The least number that is not taken.
fn first_gap(taken: &[LeafNumber]) -> u32
    requires { length taken.now < 2 ^ 32 }
    ensures { result ≡ first_gap (length taken.now) taken.now 0 }
{
    let count = taken.len() as u32;
    for number in 0..count {
        if !number_is_taken(taken, number) {
            return number;
        }
    }
    count
}

// Whether a number is taken.
fn number_is_taken(taken: &[LeafNumber], number: u32) -> bool
    ensures { result ≡ list_any (λ n. n.number == number) taken.now }
{
    taken.iter().any(|there| there.number == number)
}

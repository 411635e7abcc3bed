ghost use Rattle.std.specs.Prelude.{◌≡◌, ℕ, List, Result, ◌++◌, OnOk};
ghost use Rattle.std.specs.List.{flat_map};
ghost use Rattle.grid_model.specs.Deltas.{Part, joined, each};
ghost use Rattle.row_codec.specs.Reading.{Gives, list_at, many_at};

use crate::fields::u64_of;
use crate::putting::put_u64;
use crate::stop::Stop;
use grid_model::Items;
use std::alloc::{AllocError, Global};

/// A member of a list.
pub trait Entry: Drop {
    ghost read_at: { List ℕ → Result (Self × List ℕ) ℕ };

    ghost parts: { Self → List Part };

    /// The member at the front, and the bytes behind it.
    fn read(alloc: Global, bytes: &[u8]) -> Result<(Self, &[u8]), Stop>
        ensures { Gives (λ x. (x.0, x.1.now)) result (read_at bytes.now) };

    /// Adds the member.
    fn put(&self, out: &mut Vec<u8>) -> Result<(), AllocError>
        ensures { OnOk result (out.new.items ≡ out.old.items ++ joined (parts self.now)) };
}

/// The list at the front, behind the number of its members, and the bytes behind it.
#[tactic(auto, unfolding(crate::specs::Reading::list_at, crate::specs::Reading::and_then))]
pub fn list<T: Entry>(alloc: Global, bytes: &[u8]) -> Result<(Items<T>, &[u8]), Stop>
    ensures { Gives (λ x. (x.0, x.1.now)) result (list_at T.read_at bytes.now) }
{
    let (count, rest) = u64_of(bytes)?;
    members(alloc, count, rest)
}

/// So many members, and the bytes behind them. Memory is taken for each as it is read.
fn members<T: Entry>(alloc: Global, count: u64, bytes: &[u8]) -> Result<(Items<T>, &[u8]), Stop>
    ensures { Gives (λ x. (x.0, x.1.now)) result (many_at T.read_at count bytes.now) }
{
    let mut members = Vec::new(alloc);
    let mut rest = bytes;
    for _ in 0..count {
        let (member, behind) = T::read(alloc, rest)?;
        members.push(member)?;
        rest = behind;
    }
    Ok((Items::from_vec(members), rest))
}

/// Adds a list behind the number of its members.
pub fn put_list<T: Entry>(out: &mut Vec<u8>, list: &Items<T>) -> Result<(), AllocError>
    ensures { OnOk result (out.new.items ≡ out.old.items ++ (each T.parts list.now).bytes) }
{
    let members = list.as_slice();
    put_u64(out, members.len() as u64)?;
    put_members(out, members)
}

/// Adds the members, one behind the other.
fn put_members<T: Entry>(out: &mut Vec<u8>, members: &[T]) -> Result<(), AllocError>
    ensures { OnOk result (out.new.items ≡ out.old.items ++ flat_map (λ x. joined (T.parts x)) members.now) }
{
    for member in members {
        member.put(out)?;
    }
    Ok(())
}

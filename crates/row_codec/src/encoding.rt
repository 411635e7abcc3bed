ghost use Rattle.std.specs.Prelude.{ℕ, ◌-◌, ◌^◌, ◌≤◌, length, IsTrue, IfOk};
ghost use Rattle.std.specs.List.{list_all};
ghost use Rattle.grid_model.specs.Deltas.{delta_fits, SpellsDeltas};

use crate::put_deltas::put_delta;
use crate::room::room_for;
use grid_model::{Bytes, Deltas};
use std::alloc::{AllocError, Global};

/// How many bytes an answer has at most.
const LONGEST: usize = (1 << 62) - 16;

/// The one spelling of the changes, which have one: no text has a byte below 0x20 or 0x7F, but that of the rules may
/// have newlines; an entry is at an object or a collection and gives some level.
///
/// Fails for want of memory alone, which is also the answer where it would have more than 2^62 - 16 bytes.
pub fn encode(alloc: Global, deltas: &Deltas) -> Result<Bytes, AllocError>
    requires { IsTrue (list_all delta_fits deltas.now) }
    ensures spells { IfOk result (λ bytes. SpellsDeltas bytes deltas.now) }
    ensures short { IfOk result (λ bytes. length bytes ≤ 2 ^ 62 - 16) }
{
    let deltas = deltas.as_slice();
    let mut out = Vec::with_capacity(alloc, room_for(deltas))?;
    for delta in deltas {
        put_delta(&mut out, delta)?;
    }
    if out.len() > LONGEST {
        return Err(AllocError);
    }
    Ok(Bytes::from_vec(out))
}

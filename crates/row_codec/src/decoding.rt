ghost use Rattle.std.specs.Prelude.{◌≡◌, ℕ, List, IfOk, IfErr};
ghost use Rattle.grid_model.specs.Places.{IsRefusedAt};
ghost use Rattle.grid_model.specs.Deltas.{SpellsDeltas};
ghost use Rattle.grid_model.specs.declared.deltas.Delta.{Delta};
ghost use Rattle.row_codec.specs.declared.error.CodecError.TheVariants.{BadRecord};

use crate::deltas::delta;
use crate::error::CodecError;
use grid_model::Deltas;
use std::alloc::Global;

/// The changes that the bytes spell, all of the bytes. Bytes that spell none are refused with `BadRecord`.
///
/// It takes memory in line with the bytes, whatever numbers they hold.
pub fn decode(alloc: Global, bytes: &[u8]) -> Result<Deltas, CodecError>
    ensures spells { IfOk result (λ deltas. SpellsDeltas bytes.now deltas) }
    ensures only { IfOk result (λ deltas. (others : List Delta) → SpellsDeltas bytes.now others → others ≡ deltas) }
    ensures refused { IfErr result (λ error. (at : ℕ) → error ≡ BadRecord at → IsRefusedAt SpellsDeltas bytes.now at) }
{
    let mut deltas = Vec::new(alloc);
    let mut rest = bytes;
    while !rest.is_empty() {
        match delta(alloc, rest) {
            Ok((delta, behind)) => {
                deltas.push(delta)?;
                rest = behind;
            }
            Err(stop) => return Err(stop.refusal(bytes.len())),
        }
    }
    Ok(Deltas::from_vec(deltas))
}

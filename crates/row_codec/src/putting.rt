ghost use Rattle.std.specs.Prelude.{◌≡◌, [], ◌∷◌, ◌++◌, OnOk};
ghost use Rattle.grid_model.specs.Deltas.{four_bytes, eight_bytes, text as text_part};

use crate::codes::Coded;
use grid_model::{Digest, Text};
use std::alloc::AllocError;

/// Adds a byte.
pub fn put_byte(out: &mut Vec<u8>, byte: u8) -> Result<(), AllocError>
    ensures { OnOk result (out.new.items ≡ out.old.items ++ byte ∷ []) }
{
    out.push(byte)?;
    Ok(())
}

/// Adds the byte that the value has.
pub fn put_code<T: Coded>(out: &mut Vec<u8>, value: T) -> Result<(), AllocError>
    ensures { OnOk result (out.new.items ≡ out.old.items ++ T.number value ∷ []) }
{
    put_byte(out, value.code())
}

/// Adds a number, its greatest byte first.
#[tactic(auto, unfolding(grid_model::specs::Deltas::four_bytes))]
pub fn put_u32(out: &mut Vec<u8>, number: u32) -> Result<(), AllocError>
    ensures { OnOk result (out.new.items ≡ out.old.items ++ four_bytes number) }
{
    out.extend_from_slice(&number.to_be_bytes())
}

/// Adds a number, its greatest byte first.
#[tactic(auto, unfolding(grid_model::specs::Deltas::eight_bytes))]
pub fn put_u64(out: &mut Vec<u8>, number: u64) -> Result<(), AllocError>
    ensures { OnOk result (out.new.items ≡ out.old.items ++ eight_bytes number) }
{
    out.extend_from_slice(&number.to_be_bytes())
}

/// Adds the 32 bytes of a digest.
pub fn put_digest(out: &mut Vec<u8>, digest: Digest) -> Result<(), AllocError>
    ensures { OnOk result (out.new.items ≡ out.old.items ++ digest) }
{
    out.extend_from_slice(&digest.to_bytes())
}

/// Adds a text behind its length.
pub fn put_text(out: &mut Vec<u8>, text: &Text) -> Result<(), AllocError>
    ensures { OnOk result (out.new.items ≡ out.old.items ++ (text_part text.now).bytes) }
{
    let bytes = text.as_slice();
    put_u64(out, bytes.len() as u64)?;
    out.extend_from_slice(bytes)
}

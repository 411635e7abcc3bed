ghost use Rattle.std.specs.Prelude.{◌≡◌, [], ◌∷◌, ◌++◌, IfOk};
ghost use Rattle.frame_log.specs.Log.{frame};

use std::alloc::{AllocError, Global};

/// The gate of a record that counts.
pub const OPEN: u8 = 1;

/// The gate that ends a log, as it is written. Any gate that is not open ends one.
pub const CLOSED: u8 = 0;

/// The bytes of a length.
pub const SIZE: usize = 8;

/// The bytes of a gate and a length.
pub const HEADER: u64 = 9;

/// A record behind its open gate, and a closed gate behind it.
pub fn framed(alloc: Global, body: &[u8]) -> Result<Vec<u8>, AllocError>
    ensures { IfOk result (λ bytes. bytes.items ≡ frame body.now ++ 0 ∷ []) }
{
    let mut bytes = vec![in alloc; OPEN]?;
    bytes.extend_from_slice(&(body.len() as u64).to_be_bytes())?;
    bytes.extend_from_slice(body)?;
    bytes.push(CLOSED)?;
    Ok(bytes)
}

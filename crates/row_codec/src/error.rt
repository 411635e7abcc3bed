ghost use Rattle.std.specs.Prelude.{◌≡◌};
ghost use Rattle.row_codec.specs.declared.error.CodecError.TheVariants.{Memory};

use std::alloc::AllocFailed;
use thiserror::Error;

/// Why changes were not read.
#[derive(Clone, Copy, Debug, PartialEq, Eq, Error)]
pub enum CodecError {
    /// The bytes spell no list of changes. `at` is the length of their longest first part that begins one.
    #[error("no list of changes, from byte {at} on")]
    BadRecord { at: u64 },
    /// Memory ran out.
    #[error("out of memory")]
    Memory,
}

impl<T: Drop> From<AllocFailed<T>> for CodecError {
    ghost from_gives = { λ _ error. error ≡ Memory };

    fn from(_error: AllocFailed<T>) -> CodecError {
        CodecError::Memory
    }
}

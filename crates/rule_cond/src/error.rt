ghost use Rattle.rule_cond.specs.declared.error.ComputeError.TheVariants.{Memory};
ghost use Rattle.std.specs.Prelude.{◌≡◌};

use std::alloc::{AllocError, AllocFailed};
use thiserror::Error;

/// Why the arguments of a call are not computed.
#[derive(Clone, Copy, Debug, PartialEq, Eq, Error)]
pub enum ComputeError {
    /// One of them has more than 4,096 bytes.
    #[error("an argument is too long")]
    LongText,
    /// There was no memory.
    #[error("out of memory")]
    Memory,
}

impl From<AllocError> for ComputeError {
    ghost from_gives = { λ _ e. e ≡ Memory };

    fn from(_: AllocError) -> Self {
        ComputeError::Memory
    }
}

impl<T: Drop> From<AllocFailed<T>> for ComputeError {
    ghost from_gives = { λ _ e. e ≡ Memory };

    fn from(_: AllocFailed<T>) -> Self {
        ComputeError::Memory
    }
}

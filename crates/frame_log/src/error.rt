ghost use Rattle.std.specs.Prelude.{◌≡◌};
ghost use Rattle.frame_log.specs.declared.error.LogError.TheVariants.{Memory, DiskFault as Fault};

use grid_outside::{DiskFault, Wear};
use std::alloc::{AllocError, AllocFailed};
use thiserror::Error;

/// What a call on a log is refused for.
#[derive(Clone, Copy, Debug, PartialEq, Eq, Error)]
pub enum LogError {
    /// There was no memory.
    #[error("out of memory")]
    Memory,
    /// The disk failed, and its count of faults rose.
    #[error("the disk failed")]
    DiskFault,
    /// The room of the log has run out. `at` is the place of its closing gate, which is past 2^62.
    #[error("no room behind the gate at {at}")]
    Worn { what: Wear, at: u64 },
    /// There is no log from the base on. `at` is the place where that shows.
    #[error("no log: broken at {at}")]
    NotALog { at: u64 },
}

impl From<AllocError> for LogError {
    ghost from_gives = { λ _ e. e ≡ Memory };

    fn from(_: AllocError) -> Self {
        LogError::Memory
    }
}

impl<T: Drop> From<AllocFailed<T>> for LogError {
    ghost from_gives = { λ _ e. e ≡ Memory };

    fn from(_: AllocFailed<T>) -> Self {
        LogError::Memory
    }
}

impl From<DiskFault> for LogError {
    ghost from_gives = { λ _ e. e ≡ Fault };

    fn from(_: DiskFault) -> Self {
        LogError::DiskFault
    }
}

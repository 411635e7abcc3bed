ghost use Rattle.std.specs.Prelude.{◌≡◌};
ghost use Rattle.grid_journal.specs.Errors.{error_of};
ghost use Rattle.grid_journal.specs.declared.error.JournalError.TheVariants.{Memory, DiskFault as Fault};

use frame_log::LogError;
use grid_model::Side;
use grid_outside::{DiskFault, Wear};
use std::alloc::AllocError;
use thiserror::Error;

/// What a call on a kept catalogue is refused for.
#[derive(Clone, Copy, Debug, PartialEq, Eq, Error)]
pub enum JournalError {
    /// There was no memory. No disk was changed.
    #[error("out of memory")]
    Memory,
    /// A disk failed, and its count of faults rose.
    #[error("a disk failed")]
    DiskFault,
    /// A grid is to begin on a disk that has so many bytes, at least one.
    #[error("the disk {side:?} has {len} bytes")]
    NotEmpty { side: Side, len: u64 },
    /// The disks stand for no catalogue. `at` is the place where that shows.
    #[error("no catalogue: wrong at {at} of the disk {side:?}")]
    NotACatalogue { side: Side, at: u64 },
    /// The room of the log has run out. `at` is the place of its closing gate, which is past 2^62.
    #[error("no room behind the gate at {at}")]
    Worn { what: Wear, at: u64 },
}

impl From<AllocError> for JournalError {
    ghost from_gives = { λ _ e. e ≡ Memory };

    fn from(_: AllocError) -> Self {
        JournalError::Memory
    }
}

impl From<DiskFault> for JournalError {
    ghost from_gives = { λ _ e. e ≡ Fault };

    fn from(_: DiskFault) -> Self {
        JournalError::DiskFault
    }
}

impl From<LogError> for JournalError {
    ghost from_gives = { λ log e. e ≡ error_of log };

    fn from(error: LogError) -> Self {
        match error {
            LogError::Memory => JournalError::Memory,
            LogError::DiskFault => JournalError::DiskFault,
            LogError::Worn { what, at } => JournalError::Worn { what, at },
            LogError::NotALog { at } => JournalError::NotACatalogue {
                side: Side::Main,
                at,
            },
        }
    }
}

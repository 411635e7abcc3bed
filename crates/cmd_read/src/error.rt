ghost use Rattle.std.specs.Prelude.{◌≡◌};
ghost use Rattle.cmd_read.specs.declared.error.ReadError.TheVariants.{Memory};

use std::alloc::AllocError;
use thiserror::Error;

/// Why words are no request. Words count from 0, the session's.
#[derive(Debug, Clone, Copy, PartialEq, Eq, Error)]
pub enum ReadError {
    /// The word of this number is not of the form that the verb asks for there, or is missing, or is one too many.
    #[error("bad word {index}")]
    BadWord { index: u64 },
    /// The second word is no verb.
    #[error("no such command")]
    UnknownCommand,
    /// A word that is to be a path is none. `at` is the length of its longest first part that begins a path.
    #[error("no path, from byte {at} on")]
    BadPath { at: u64 },
    /// A word that is to be the name of a new user, group or resource is no name. `at` is the length of its longest
    /// first part that begins a name.
    #[error("no name, from byte {at} on")]
    BadName { at: u64 },
    /// Memory ran out.
    #[error("out of memory")]
    Memory,
}

impl From<AllocError> for ReadError {
    ghost from_gives = { λ _ error. error ≡ Memory };

    fn from(_error: AllocError) -> ReadError {
        ReadError::Memory
    }
}

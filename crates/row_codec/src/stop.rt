ghost use Rattle.std.specs.Prelude.{◌≡◌};
ghost use Rattle.row_codec.specs.Stopping.{IsWithin, codec_error_of};
ghost use Rattle.row_codec.specs.declared.stop.Stop.TheVariants.{Memory};

use crate::error::CodecError;
use std::alloc::{AllocError, AllocFailed};

/// Why reading stopped.
#[derive(Clone, Copy, Debug, PartialEq, Eq)]
pub enum Stop {
    Memory,
    /// No spelling goes on from the place that so many bytes are left from.
    Broken { left: u64 },
}

impl Stop {
    /// The same of bytes that are so many.
    pub fn refusal(self, len: usize) -> CodecError
        requires { IsWithin self len }
        ensures { result ≡ codec_error_of self len }
    {
        match self {
            Stop::Memory => CodecError::Memory,
            Stop::Broken { left } => CodecError::BadRecord {
                at: len as u64 - left,
            },
        }
    }
}

impl From<AllocError> for Stop {
    ghost from_gives = { λ _ e. e ≡ Memory };

    fn from(_error: AllocError) -> Stop {
        Stop::Memory
    }
}

impl<T: Drop> From<AllocFailed<T>> for Stop {
    ghost from_gives = { λ _ e. e ≡ Memory };

    fn from(_error: AllocFailed<T>) -> Stop {
        Stop::Memory
    }
}

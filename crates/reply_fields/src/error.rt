ghost use Rattle.std.specs.Prelude.{◌≡◌};
ghost use Rattle.reply_fields.specs.declared.error.ReplyError.TheVariants.{Memory};

use std::alloc::AllocError;
use thiserror::Error;

/// Why a reply was not read.
#[derive(Clone, Copy, Debug, PartialEq, Eq, Error)]
pub enum ReplyError {
    /// It is no reply. `at` is the length of its longest first part that begins one.
    #[error("no reply, from byte {at} on")]
    BadReply { at: u64 },
    /// Memory ran out.
    #[error("out of memory")]
    Memory,
}

impl From<AllocError> for ReplyError {
    ghost from_gives = { λ _ error. error ≡ Memory };

    fn from(_error: AllocError) -> ReplyError {
        ReplyError::Memory
    }
}

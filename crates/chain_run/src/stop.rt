ghost use Rattle.chain_run.specs.declared.stop.RunStop.TheVariants.{Memory};
ghost use Rattle.std.specs.Prelude.{◌≡◌};

use std::alloc::AllocError;
use std::fmt::Debug;
use thiserror::Error;

/// Why a run was given up.
#[derive(Debug, Drop, PartialEq, Eq, Error)]
#[error_bound(S: Debug + Drop)]
pub enum RunStop<S> {
    /// The doer answered this in place of doing a call, or of telling a size.
    #[error("a call was stopped")]
    Stopped(S),
    /// There was no memory.
    #[error("out of memory")]
    Memory,
}

impl<S> From<AllocError> for RunStop<S> {
    ghost from_gives = { λ _ e. e ≡ Memory };

    fn from(_: AllocError) -> Self {
        RunStop::Memory
    }
}

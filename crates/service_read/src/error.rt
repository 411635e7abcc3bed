ghost use Rattle.std.specs.Prelude.{◌≡◌};
ghost use Rattle.service_read.specs.declared.error.ServiceError.TheVariants.{Memory};

use std::alloc::AllocError;
use thiserror::Error;

/// Why a call asks for no operation.
#[derive(Debug, Clone, Copy, Error)]
pub(crate) enum ServiceError {
    /// There is no micro-service of this name that takes such arguments.
    #[error("no such micro-service")]
    NoService,
    /// An argument that is to be a path is none. `at` is the length of its longest first part that begins a path.
    #[error("no path, from byte {at} on")]
    NoPath { at: u64 },
    /// Memory ran out.
    #[error("out of memory")]
    Memory,
}

impl From<AllocError> for ServiceError {
    ghost from_gives = { λ _ error. error ≡ Memory };

    fn from(_error: AllocError) -> ServiceError {
        ServiceError::Memory
    }
}

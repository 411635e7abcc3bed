ghost use Rattle.query_parse.specs.declared.error.QueryError.TheVariants.{Memory};
ghost use Rattle.std.specs.Prelude.{◌≡◌};

use std::alloc::{AllocError, AllocFailed};
use thiserror::Error;

/// Why a text gives no query.
#[derive(Clone, Copy, Debug, PartialEq, Eq, Error)]
pub enum QueryError {
    /// The text spells no query. `at` is the place of the first token with which the tokens so far begin none, or the
    /// text's length where they begin one.
    #[error("no query goes on so at byte {at}")]
    BadQuery {
        /// From 0 to the length of the text.
        at: usize,
    },
    /// There was no memory for the query.
    #[error("out of memory")]
    Memory,
}

impl From<AllocError> for QueryError {
    ghost from_gives = { λ _ e. e ≡ Memory };

    fn from(_: AllocError) -> Self {
        QueryError::Memory
    }
}

impl<T: Drop> From<AllocFailed<T>> for QueryError {
    ghost from_gives = { λ _ e. e ≡ Memory };

    fn from(_: AllocFailed<T>) -> Self {
        QueryError::Memory
    }
}

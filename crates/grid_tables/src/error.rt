ghost use Rattle.std.specs.Prelude.{◌≡◌};
ghost use Rattle.grid_tables.specs.declared.error.TableError.TheVariants.{Memory};

use std::alloc::AllocError;
use thiserror::Error;

/// Why a delta was not applied. The tables are then as they were.
#[derive(Clone, Copy, Debug, PartialEq, Eq, Error)]
pub enum TableError {
    /// The delta does not fit the rows that are there. `cause` is the number of its kind, from 1 to 21.
    #[error("a delta of kind {cause} does not fit")]
    BadDelta { cause: u8 },
    /// Memory ran out.
    #[error("out of memory")]
    Memory,
}

impl From<AllocError> for TableError {
    ghost from_gives = { λ _ error. error ≡ Memory };

    fn from(_: AllocError) -> TableError {
        TableError::Memory
    }
}

ghost use Rattle.std.specs.Prelude.{◌≡◌};
ghost use Rattle.service_run.specs.Errors.{IsOfCommit, ending_of};

use grid_journal::JournalError;
use grid_outside::Wear;

/// Why a call of a command was not done, or not to its end. Nothing more can be done over these devices then.
#[derive(Clone, Copy, Debug, PartialEq, Eq)]
pub enum Ending {
    /// A disk failed.
    Disk,
    /// The sink failed.
    Sink,
    /// Memory ran out.
    Memory,
    /// The numbers of vault files or the room behind the catalogue's log have run out, at this number or place.
    Worn { what: Wear, at: u64 },
}

/// How a call ends whose commit failed so.
pub(crate) fn ending_of(error: JournalError) -> Ending
    requires { IsOfCommit error }
    ensures { result ≡ ending_of error }
{
    match error {
        JournalError::Memory => Ending::Memory,
        JournalError::DiskFault => Ending::Disk,
        JournalError::Worn { what, at } => Ending::Worn { what, at },
        JournalError::NotEmpty { side: _, len: _ } => unreachable!(),
        JournalError::NotACatalogue { side: _, at: _ } => unreachable!(),
    }
}

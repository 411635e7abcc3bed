ghost use Rattle.std.specs.Prelude.{◌≡◌};
ghost use Rattle.run_open.specs.Errors.{error_by, error_of};
ghost use Rattle.service_run.specs.Errors.{IsOfCommit};

use grid_journal::JournalError;
use grid_outside::Wear;
use service_run::Ending;

/// Why no run was opened.
#[derive(Clone, Copy, Debug, PartialEq, Eq)]
pub enum OpenError {
    /// No run has a greater number than the last one.
    Runs { at: u64 },
    /// The numbers of vault files have run out in a recovery, at this one.
    Vaults { at: u64 },
    /// The closing gate of the catalogue's log stands here, too far for one more record.
    Log { at: u64 },
    /// A disk failed.
    Disk,
    /// The sink failed: the report was cut short.
    Sink,
    /// Memory ran out.
    Memory,
}

/// Why no run was opened whose recoveries ended so.
pub(crate) fn error_by(ending: Ending) -> OpenError
    ensures { result ≡ error_by ending }
{
    match ending {
        Ending::Disk => OpenError::Disk,
        Ending::Sink => OpenError::Sink,
        Ending::Memory => OpenError::Memory,
        Ending::Worn {
            what: Wear::Runs,
            at,
        } => OpenError::Runs { at },
        Ending::Worn {
            what: Wear::Vaults,
            at,
        } => OpenError::Vaults { at },
        Ending::Worn {
            what: Wear::Log,
            at,
        } => OpenError::Log { at },
    }
}

/// Why no run was opened whose commit failed so.
pub(crate) fn error_of(error: JournalError) -> OpenError
    requires { IsOfCommit error }
    ensures { result ≡ error_of error }
{
    match error {
        JournalError::Memory => OpenError::Memory,
        JournalError::DiskFault => OpenError::Disk,
        JournalError::Worn { what: _, at } => OpenError::Log { at },
        JournalError::NotEmpty { side: _, len: _ } => unreachable!(),
        JournalError::NotACatalogue { side: _, at: _ } => unreachable!(),
    }
}

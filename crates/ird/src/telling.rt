ghost use Rattle.std.specs.Prelude.{◌≡◌, ◌≢◌, ◌↔◌, IfOk, IsSome};

use grid_file::reason;
use grid_model::Side;
use grid_outside::Wear;
use grid_server::Status;
use std::alloc::{AllocError, Global};
use std::io;

/// The file that is the disk on this side.
pub fn file_of(side: Side) -> &'static str {
    match side {
        Side::Main => "catalogue.a",
        Side::Spare => "catalogue.b",
    }
}

/// Why the last calls that failed did, of each device but the stores. It is none where no call failed.
#[derive(Clone, Copy)]
pub struct Failures {
    pub main: Option<io::Error>,
    pub spare: Option<io::Error>,
    pub source: Option<io::Error>,
    pub sink: Option<io::Error>,
}

impl Failures {
    /// No call failed.
    pub fn none() -> Failures {
        Failures {
            main: None,
            spare: None,
            source: None,
            sink: None,
        }
    }
}

/// What people are told of a run that ended so, in one line: what failed, and why. A run that is done has no line. The
/// only error is want of memory.
pub fn complaint(
    alloc: Global,
    status: Status,
    failures: &Failures,
) -> Result<Option<String>, AllocError>
    ensures { IfOk result (λ line. IsSome line ↔ status ≢ Status.Done) }
{
    let main = file_of(Side::Main);
    let line = match status {
        Status::Done => return Ok(None),
        Status::Usage => format!(in alloc; "wrong arguments, or a command that is not built")?,
        Status::NotACatalogue { side, at } => {
            format!(in alloc; "{}: no catalogue, as byte {at} shows", file_of(side))?
        }
        Status::NotEmpty { side, len } => {
            format!(in alloc; "{}: not empty, it has {len} bytes", file_of(side))?
        }
        Status::Stores { kept, given } => {
            format!(in alloc; "{main}: made for {kept} stores, and there are {given}")?
        }
        Status::DiskFault => disk_failure(alloc, failures)?,
        Status::SourceFault => failure(alloc, "standard input", failures.source)?,
        Status::SinkFault => failure(alloc, "standard output", failures.sink)?,
        Status::Memory => format!(in alloc; "out of memory")?,
        Status::Long { taken: _ } => format!(in alloc; "standard input: more than 2^48 bytes")?,
        Status::Worn { what, at: _ } => format!(in alloc; "{main}: {}", end_of(what))?,
    };
    Ok(Some(line))
}

// Which disk failed, and why. A run ends at the first call of main that fails.
fn disk_failure(alloc: Global, failures: &Failures) -> Result<String, AllocError> {
    match failures.main {
        Some(error) => failure(alloc, file_of(Side::Main), Some(error)),
        None => failure(alloc, file_of(Side::Spare), failures.spare),
    }
}

// What failed, and why.
fn failure(alloc: Global, what: &str, error: Option<io::Error>) -> Result<String, AllocError> {
    match error {
        Some(error) => {
            let words = reason(alloc, &error)?;
            format!(in alloc; "{what}: {words}")
        }
        None => format!(in alloc; "{what}: failed"),
    }
}

// What has run out for good.
fn end_of(what: Wear) -> &'static str {
    match what {
        Wear::Runs => "no number is left for a run",
        Wear::Vaults => "no number is left for a file",
        Wear::Log => "no room is left in its log",
    }
}

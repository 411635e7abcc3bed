ghost use Rattle.std.specs.Prelude.{◌≡◌, ◌<◌, ◌^◌, IsTrue};
ghost use Rattle.grid_model.specs.Deltas.{text};
ghost use Rattle.grid_model.specs.Writable.{is_word};
ghost use Rattle.cmd_run.specs.Calls.{begun_command, ended_by, ending_by};

use crate::{Ending, Server};
use grid_model::{Marks, Passeds, Text};
use service_run::{Command, Ending as CallEnding};
use std::alloc::Global;

impl Server {
    /// The command of this number and line, for this user, none of whose calls was made yet. It takes no memory.
    pub(crate) fn begin(&self, alloc: Global, number: u64, user: u32, line: Text) -> Command
        requires line { IsTrue (is_word line) }
        ensures is { result ≡ begun_command self.now.store.cat.numbers.run number user line }
        ensures fits { IsTrue (text result.line).fits }
    {
        word_is_text(line.as_slice());
        Command {
            run: self.store.tables().numbers().run,
            number,
            user,
            line,
            marks: Marks::from_vec(Vec::new(alloc)),
            passed: Passeds::from_vec(Vec::new(alloc)),
            untold: Text::from_vec(Vec::new(alloc)),
        }
    }
}

/// How a request ends whose calls ended so.
pub(crate) fn ended_by(ran: Result<(), CallEnding>) -> Result<(), Ending>
    ensures { result ≡ ended_by ran }
{
    match ran {
        Ok(()) => Ok(()),
        Err(ending) => Err(ending_by(ending)),
    }
}

fn ending_by(ending: CallEnding) -> Ending
    ensures { result ≡ ending_by ending }
{
    match ending {
        CallEnding::Disk => Ending::Disk,
        CallEnding::Sink => Ending::Sink,
        CallEnding::Memory => Ending::Memory,
        CallEnding::Worn { what, at } => Ending::Worn { what, at },
    }
}

// A word may stand in the catalogue. It does nothing.
fn word_is_text(word: &[u8])
    ensures { IsTrue (is_word word.now) → IsTrue (text word.now).fits }
{
    is_size(word.len());
}

/// A number of bytes in memory is below 2^64. It does nothing.
pub(crate) fn is_size(len: usize)
    ensures { len < 2 ^ 64 }
{}

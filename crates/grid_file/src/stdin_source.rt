ghost use Rattle.std.specs.Prelude.{◌≡◌, ◌≤◌, length, IfOk};
ghost use Rattle.grid_file.specs.Untold.{untold_source};

use grid_outside::{Source, SourceFault};
use std::io::{self, ErrorKind, Read};
use std::rt::Stdin;

/// Standard input as a source.
#[derive(Drop)]
pub struct StdinSource {
    stdin: Stdin,
    faults: u64,
    failure: Option<io::Error>,
}

impl StdinSource {
    /// Nothing is read yet.
    pub fn new(rt: HostRuntime) -> StdinSource
        ensures { result.faults ≡ 0 }
    {
        StdinSource {
            stdin: rt.stdin(),
            faults: 0,
            failure: None,
        }
    }

    /// Why the last read failed that did, or `None` where none has.
    pub fn failure(&self) -> Option<io::Error>
        ensures { result ≡ self.now.failure }
    {
        self.failure
    }
}

impl Source for StdinSource {
    ghost use Rattle.grid_outside.specs.Fault.{HasCause};

    ghost source = { λ s. untold_source s.faults };

    fn read(&mut self, buf: &mut [u8]) -> Result<usize, SourceFault> {
        match read_once(&mut self.stdin, buf) {
            Ok(count) => Ok(count),
            Err(failure) => {
                self.failure = Some(failure);
                self.faults = self.faults.saturating_add(1);
                Err(SourceFault)
            }
        }
    }
}

// One read, which is tried again where a signal interrupts it.
pub(crate) fn read_once(reader: &mut impl Read, buf: &mut [u8]) -> io::Result<usize>
    ensures { IfOk result (λ n. n ≤ length buf.new) }
{
    for _ in 0..u64::MAX {
        match reader.read(buf) {
            Ok(count) => return Ok(count),
            Err(error) if error.kind() == ErrorKind::Interrupted => {}
            Err(error) => return Err(error),
        }
    }
    Err(io::Error::from(ErrorKind::Interrupted))
}

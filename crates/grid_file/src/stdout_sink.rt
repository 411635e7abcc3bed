ghost use Rattle.std.specs.Prelude.{◌≡◌};
ghost use Rattle.grid_file.specs.Untold.{untold_sink};

use grid_outside::{Sink, SinkFault};
use std::io::{self, Write};
use std::rt::Stdout;

/// Standard output as a sink. Nothing is kept back.
#[derive(Drop)]
pub struct StdoutSink {
    stdout: Stdout,
    last: u128,
    faults: u64,
    failure: Option<io::Error>,
}

impl StdoutSink {
    /// No moment was given to it yet.
    pub fn new(rt: HostRuntime) -> StdoutSink
        ensures last { result.last ≡ 0 }
        ensures faults { result.faults ≡ 0 }
    {
        StdoutSink {
            stdout: rt.stdout(),
            last: 0,
            faults: 0,
            failure: None,
        }
    }

    /// Why the last put failed that did, or `None` where none has.
    pub fn failure(&self) -> Option<io::Error>
        ensures { result ≡ self.now.failure }
    {
        self.failure
    }
}

impl Sink for StdoutSink {
    ghost use Rattle.grid_outside.specs.Fault.{HasCause};

    ghost sink = { λ s. untold_sink s.faults s.last };

    fn put(&mut self, moment: u128, bytes: &[u8]) -> Result<(), SinkFault> {
        self.last = moment;
        match self.stdout.write_all(bytes) {
            Ok(()) => Ok(()),
            Err(failure) => {
                self.failure = Some(failure);
                self.faults = self.faults.saturating_add(1);
                Err(SinkFault)
            }
        }
    }
}

// The input of a run.
ghost use Rattle.std.specs.Prelude.{false, []};
ghost use Rattle.grid_mem.specs.MemSource.{source_of};

use grid_mem::MemSource;
use grid_outside::{Source, SourceFault};

/// A source in memory that gives at most so many bytes at once. What is left of it is not told.
#[derive(Drop)]
pub(crate) struct Feed {
    pub(crate) source: MemSource,
    pub(crate) most: usize,
}

impl Source for Feed {
    ghost source = { λ s. record { faults = (source_of s.source).faults; tells = false; left = [] } };

    fn read(&mut self, buf: &mut [u8]) -> Result<usize, SourceFault> {
        let room = buf.len().min(self.most);
        self.source.read(&mut buf[..room])
    }
}

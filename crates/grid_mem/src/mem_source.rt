ghost use Rattle.std.specs.Prelude.{◌≡◌, ℕ, ◌≤◌, length, min, IsTrue, IfOk, OnErr};

use crate::Schedule;
use grid_outside::{Source, SourceFault};

/// A source in memory. It is made from contents and the numbers of the calls that are to fail.
#[derive(Drop)]
pub struct MemSource {
    bytes: Vec<u8>,
    taken: usize,
    faults: u64,
    schedule: Schedule,
    ghost within: { taken ≤ length bytes.items },
}

impl MemSource {
    ghost use Rattle.grid_mem.specs.MemSource.{source_of, source_schedule};
    ghost use Rattle.grid_mem.specs.Schedule.{IsFresh};

    /// A source that gives these bytes. Its calls of these numbers, from 1, are to fail.
    pub fn new(bytes: Vec<u8>, fails: Vec<u64>) -> MemSource
        ensures tells { IsTrue (source_of result).tells }
        ensures left { (source_of result).left ≡ bytes.items }
        ensures faults { (source_of result).faults ≡ 0 }
        ensures schedule { IsFresh fails.items (source_schedule result) }
    {
        MemSource {
            bytes,
            taken: 0,
            faults: 0,
            schedule: Schedule { fails, made: 0 },
        }
    }
}

impl Source for MemSource {
    ghost use Rattle.grid_outside.specs.Fault.{HasCause};
    ghost use Rattle.grid_outside.specs.Source.{TakesFront};
    ghost use Rattle.grid_mem.specs.MemSource.{source_of, source_schedule};
    ghost use Rattle.grid_mem.specs.Schedule.{CountsFaults, FailsAsListed};

    ghost source = { source_of };

    /// Fills the buffer as far as its bytes go. Fails only where its number is listed.
    fn read(&mut self, buf: &mut [u8]) -> Result<usize, SourceFault>
        ensures count { IfOk result (λ n. n ≤ length buf.new) }
        ensures tells { (source_of self.new).tells ≡ (source_of self.old).tells }
        ensures takes { IfOk result (λ n. IsTrue (source_of self.old).tells →
            TakesFront (source_of self.old).left n buf.new (source_of self.new).left) }
        ensures failed { OnErr result (IsTrue (source_of self.old).tells →
            (source_of self.new).left ≡ (source_of self.old).left) }
        ensures cause { HasCause (source_of self.old).faults (source_of self.new).faults result }
        ensures faults { CountsFaults (source_of self.old).faults (source_of self.new).faults result }
        ensures fills { IfOk result (λ n. n ≡ min (length buf.new) (length (source_of self.old).left)) }
        ensures listed { FailsAsListed (source_schedule self.old) (source_schedule self.new) result }
    {
        if !self.schedule.admits_next() {
            self.faults = self.faults.saturating_add(1);
            return Err(SourceFault);
        }
        let rest = &self.bytes[self.taken..];
        let count = rest.len().min(buf.len());
        buf[..count].copy_from_slice(&rest[..count]);
        self.taken += count;
        Ok(count)
    }
}

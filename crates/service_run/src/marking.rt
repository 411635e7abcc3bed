ghost use Rattle.std.specs.Prelude.{◌≡◌, ◌^◌, ◌<◌, OnOk, IsTrue, length};
ghost use Rattle.std.specs.List.{list_all};
ghost use Rattle.grid_model.specs.Deltas.{all_fit, bad_replica as bad_parts};
ghost use Rattle.service_run.specs.Changes.{mark_fits, with_mark};

use crate::Command;
use cmd_reply::mark_line;
use grid_model::{BadReplica, BadReplicas, Digest, Mark, Marks, Text};
use plan_base::digest_is_kept;
use std::alloc::{AllocError, Global};
use std::mem::replace;

impl Command {
    /// Takes a mark, whose line is still to be told. Fails for want of memory alone, and then marks or lines may be lost. Each mark may
    /// be kept.
    pub(crate) fn take_mark(&mut self, alloc: Global, mark: Mark) -> Result<(), AllocError>
        ensures taken { OnOk result (self.new ≡ with_mark self.old mark) }
        ensures kept { IsTrue (mark_fits mark) }
    {
        mark_is_kept(&mark);
        let line = mark_line(alloc, self.number, &mark)?;
        let mut marks = replace(&mut self.marks, Marks::from_vec(Vec::new(alloc))).into_vec();
        marks.push(mark)?;
        self.marks = Marks::from_vec(marks);
        let mut untold = replace(&mut self.untold, Text::from_vec(Vec::new(alloc))).into_vec();
        untold.extend_from_slice(line.as_slice())?;
        self.untold = Text::from_vec(untold);
        Ok(())
    }
}

// A mark may stand in the catalogue. It does nothing.
fn mark_is_kept(mark: &Mark)
    ensures { IsTrue (mark_fits mark.now) }
{
    match mark {
        Mark::Ran { word, now, bad } => ran_is_kept(*word, *now, bad),
        Mark::Fault { slot, parts } => fault_is_kept(*slot, *parts),
        Mark::Bad {
            slot,
            len,
            found,
            parts,
        } => bad_is_kept(*slot, *len, *found, *parts),
        Mark::Stop => {}
    }
}

// The mark of a deed that was done may stand in the catalogue. It does nothing.
fn ran_is_kept(word: u64, now: u64, bad: &BadReplicas)
    ensures { IsTrue (mark_fits (Mark.Ran word now bad.now)) }
{
    are_kept(bad.as_slice());
}

// The mark of a fault may stand in the catalogue. It does nothing.
fn fault_is_kept(slot: u8, parts: u64)
    ensures { IsTrue (mark_fits (Mark.Fault slot parts)) }
{}

// The mark of bytes that are not what is recorded may stand in the catalogue. It does nothing.
fn bad_is_kept(slot: u8, len: u64, found: Digest, parts: u64)
    ensures { IsTrue (mark_fits (Mark.Bad slot len found parts)) }
{
    digest_is_kept(found);
}

// Bad replicas may stand in the catalogue, and there are not too many of them. It does nothing.
fn are_kept(bad: &[BadReplica])
    ensures all { IsTrue (list_all (λ b. all_fit (bad_parts b)) bad.now) }
    ensures few { length bad.now < 2 ^ 64 }
{
    is_size(bad.len());
    for replica in bad {
        replica_is_kept(replica.number, replica.len, replica.found);
    }
}

// A bad replica may stand in the catalogue. It does nothing.
fn replica_is_kept(number: u32, len: u64, found: Digest)
    ensures { IsTrue (all_fit (bad_parts (record { number = number; len = len; found = found }))) }
{
    digest_is_kept(found);
}

// A number of replicas in memory is below 2^64. It does nothing.
fn is_size(len: usize)
    ensures { len < 2 ^ 64 }
{}

ghost use Rattle.std.specs.Prelude.{◌≡◌, [], ◌∷◌, ◌++◌, OnOk, IsTrue};
ghost use Rattle.service_run.specs.Changes.{mark_fits, with_mark};
ghost use Rattle.deed_run.specs.Written.{written_mark, written_ran};

use cmd_reply::mark_line;
use grid_model::{BadReplicas, Failure, Mark, Marks, Refusal, Text};
use grid_vault::Fault;
use service_run::Command;
use std::alloc::{AllocError, Global};
use std::mem::replace;

/// Has the command take the mark of files that were written so, of this word and this time, whose line is still to be told. Fails for want
/// of memory alone, and then marks or lines may be lost.
pub(crate) fn take_written(
    alloc: Global,
    command: &mut Command,
    word: u64,
    now: u64,
    fault: &Option<Fault>,
) -> Result<(), AllocError>
    ensures taken { OnOk result (command.new ≡ with_mark command.old (written_mark word now fault.now)) }
{
    let mark = written_mark(alloc, word, now, fault);
    take_mark(alloc, command, mark)
}

/// Has the command take a mark, whose line is still to be told. Fails for want of memory alone, and then marks or lines may be lost.
pub(crate) fn take_mark(alloc: Global, command: &mut Command, mark: Mark) -> Result<(), AllocError>
    ensures taken { OnOk result (command.new ≡ with_mark command.old mark) }
{
    let line = mark_line(alloc, command.number, &mark)?;
    let mut marks = replace(&mut command.marks, Marks::from_vec(Vec::new(alloc))).into_vec();
    marks.push(mark)?;
    command.marks = Marks::from_vec(marks);
    let mut untold = replace(&mut command.untold, Text::from_vec(Vec::new(alloc))).into_vec();
    untold.extend_from_slice(line.as_slice())?;
    command.untold = Text::from_vec(untold);
    Ok(())
}

// The mark of files that were written so. It takes no memory.
fn written_mark(alloc: Global, word: u64, now: u64, fault: &Option<Fault>) -> Mark
    ensures { result ≡ written_mark word now fault.now }
{
    match fault {
        None => Mark::Ran {
            word,
            now,
            bad: BadReplicas::from_vec(Vec::new(alloc)),
        },
        Some(fault) => Mark::Fault {
            slot: fault.slot,
            parts: 0,
        },
    }
}

/// Whether it was done, or why it was refused.
pub(crate) fn written_ran(fault: &Option<Fault>) -> Result<(), Failure>
    ensures { result ≡ written_ran fault.now }
{
    match fault {
        None => Ok(()),
        Some(fault) => Err(Failure::Refused(Refusal::Fault { slot: fault.slot })),
    }
}

/// The mark of files that were written so may stand in the catalogue. It does nothing.
pub(crate) fn written_is_kept(word: u64, now: u64, fault: &Option<Fault>)
    ensures { IsTrue (mark_fits (written_mark word now fault.now)) }
{
    match fault {
        None => ran_is_kept(word, now),
        Some(fault) => fault_is_kept(fault.slot, 0),
    }
}

/// The mark of a deed that was done may stand in the catalogue. It does nothing.
pub(crate) fn ran_is_kept(word: u64, now: u64)
    ensures { IsTrue (mark_fits (Mark.Ran word now [])) }
{}

/// The mark of a fault may stand in the catalogue. It does nothing.
pub(crate) fn fault_is_kept(slot: u8, parts: u64)
    ensures { IsTrue (mark_fits (Mark.Fault slot parts)) }
{}

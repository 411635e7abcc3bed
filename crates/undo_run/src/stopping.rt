ghost use Rattle.std.specs.Prelude.{◌≡◌, IfOk};
ghost use Rattle.undo_run.specs.Undoing.{stopped_command};

use grid_model::{Calls, Mark, Marks, Pending, Text};
use service_run::{Command, copy_calls, copy_marks, copy_passeds};
use std::alloc::{AllocError, Global};

/// The command that was stopped, and the list of its recoveries. Fails for want of memory alone.
pub fn stopped(alloc: Global, pending: &Pending) -> Result<(Command, Calls), AllocError>
    ensures command { IfOk result (λ both. both.0 ≡ stopped_command pending.now) }
    ensures undo { IfOk result (λ both. both.1 ≡ pending.now.undo) }
{
    let line = Text::copy_of(alloc, pending.line.as_slice())?;
    let mut marks = copy_marks(alloc, &pending.marks)?.into_vec();
    marks.push(Mark::Stop)?;
    let passed = copy_passeds(alloc, &pending.passed)?;
    let undo = copy_calls(alloc, &pending.undo)?;
    let command = Command {
        run: pending.run,
        number: pending.number,
        user: pending.user,
        line,
        marks: Marks::from_vec(marks),
        passed,
        untold: Text::from_vec(Vec::new(alloc)),
    };
    Ok((command, undo))
}

// What is told first over a catalogue in which a command is pending.
use super::catalogues::Kept;
use grid_model::{Calls, Mark};
use std::alloc::{AllocError, Global};

// The lines of these marks of the command with this number.
pub(crate) fn lines_of(alloc: Global, number: u64, marks: &[Mark]) -> Result<Vec<u8>, AllocError> {
    let mut lines = Vec::new(alloc);
    for mark in marks {
        let line = match mark {
            Mark::Ran { word, now, bad: _ } => {
                format!(in alloc; "{number} mark ran {word} {now}\n")?
            }
            Mark::Stop => format!(in alloc; "{number} mark stop\n")?,
            other => format!(in alloc; "{other:?}\n")?,
        };
        lines.extend_from_slice(line.as_bytes())?;
    }
    Ok(lines)
}

// How many of these calls make a file.
pub(crate) fn count_making(calls: &Calls) -> usize {
    let mut count: usize = 0;
    for call in calls.as_slice() {
        let name = call.name.as_slice();
        if name == b"msiDataObjRepl".as_slice() || name == b"msiDataObjCopy".as_slice() {
            count = count.saturating_add(1);
        }
    }
    count
}

// The report of the command that is pending, if there is one: its marks, that it was stopped, a mark for each recovery that makes a
// file, and these lines of recoveries that are refused.
pub(crate) fn report_of(alloc: Global, kept: &Kept, passed: &[u8]) -> Result<Vec<u8>, AllocError> {
    let mut report = Vec::new(alloc);
    if kept.pending == 0 {
        return Ok(report);
    }
    let Kept { run, pending, .. } = kept;
    let first = format!(in alloc; "stopped {run} {pending}\n")?;
    report.extend_from_slice(first.as_bytes())?;
    report.extend_from_slice(&kept.marks)?;
    let stop = format!(in alloc; "{pending} mark stop\n")?;
    report.extend_from_slice(stop.as_bytes())?;
    let ran = format!(in alloc; "{pending} mark ran 0 1000\n")?;
    for _ in 0..kept.making {
        report.extend_from_slice(ran.as_bytes())?;
    }
    report.extend_from_slice(passed)?;
    let end = format!(in alloc; "{pending} err Stopped\n")?;
    report.extend_from_slice(end.as_bytes())?;
    Ok(report)
}

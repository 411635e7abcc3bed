ghost use Rattle.std.specs.Prelude.{◌≡◌, [], ◌∷◌, ◌++◌, OnOk, IfOk, flat_map};
ghost use Rattle.grid_model.specs.Replies.{mark_line as mark_text};
ghost use Rattle.grid_model.specs.ReplyTexts.{report_lines, report_rest};

use crate::ends::push_end_line;
use crate::marks::mark_line;
use crate::parts::push_counted;
use crate::writing::push_passed_lines;
use grid_model::{End, Mark, Passed, Text};
use std::alloc::{AllocError, Global};

/// The first lines of the report of a command that was stopped: the run that it was of and its number there, its marks, and
/// that it was stopped. Fails for want of memory alone.
pub fn report_begun(
    alloc: Global,
    run: u64,
    number: u64,
    marks: &[Mark],
) -> Result<Text, AllocError>
    ensures { IfOk result (λ text. text ≡ flat_map (λ line. line) (report_lines run number (marks.now ++ Mark.Stop ∷ []))) }
{
    let mut text = Vec::new(alloc);
    push_counted(&mut text, b"stopped", &[run, number])?;
    text.push(b'\n')?;
    push_mark_lines(&mut text, alloc, number, marks)?;
    let stop = mark_line(alloc, number, &Mark::Stop)?;
    text.extend_from_slice(stop.as_slice())?;
    Ok(Text::from_vec(text))
}

/// The other lines of that report: the recoveries that were refused, and the end. Fails for want of memory alone.
pub fn report_rest(alloc: Global, number: u64, passed: &[Passed]) -> Result<Text, AllocError>
    ensures { IfOk result (λ text. text ≡ report_rest number passed.now) }
{
    let mut text = Vec::new(alloc);
    push_passed_lines(&mut text, number, passed)?;
    push_end_line(&mut text, number, &End::Stopped)?;
    Ok(Text::from_vec(text))
}

fn push_mark_lines(
    text: &mut Vec<u8>,
    alloc: Global,
    number: u64,
    marks: &[Mark],
) -> Result<(), AllocError>
    ensures { OnOk result (text.new.items ≡ text.old.items ++ flat_map (mark_text number) marks.now) }
{
    for mark in marks {
        let line = mark_line(alloc, number, mark)?;
        text.extend_from_slice(line.as_slice())?;
    }
    Ok(())
}

ghost use Rattle.std.specs.Prelude.{◌≡◌, ◌<◌, ◌≤◌, length};
ghost use Rattle.reply_fields.specs.Fronts.{ReadsFrom};
ghost use Rattle.reply_reader.specs.Lines.{IsKindIn, IsReplyLine, IsRest, phase_behind, skipped};

use crate::ends::error_end;
use crate::mark_fields::mark;
use crate::word_fields::{recovery, words_behind};
use grid_model::{Bytes, End, Mark, Passed, Texts};
use reply_fields::ReplyError;
use reply_fields::counted::data_part;
use reply_fields::names::one_of;
use std::alloc::Global;

/// How many bytes a full data line has.
const PART_SIZE: usize = 65_536;

/// What a line is, as its first word says.
#[derive(Clone, Copy, Debug, PartialEq, Eq)]
pub enum Kind {
    Data,
    Mark,
    Passed,
    Row,
    Good,
    Error,
}

/// Which lines may come next: these and those of the later phases.
#[derive(Clone, Copy, Debug, PartialEq, Eq)]
pub enum Phase {
    Data,
    Marks,
    Passed,
    Rows,
}

/// A line behind the number of its request.
#[derive(Debug, Drop)]
pub enum Line {
    Data(Bytes),
    Mark(Mark),
    Passed(Passed),
    Row(Texts),
    End(End),
}

/// The kinds of lines, in the order of the phases.
const KINDS: [Kind; 6] = [
    Kind::Data,
    Kind::Mark,
    Kind::Passed,
    Kind::Row,
    Kind::Good,
    Kind::Error,
];

/// Their names, and the space behind those that have fields.
const NAMES: [&[u8]; 6] = [b"data ", b"mark ", b"passed ", b"row", b"ok", b"err "];

/// Reads a line that may come in this phase. It begins with the bytes `first`.
pub fn next_line(
    alloc: Global,
    text: &[u8],
    at: usize,
    first: &[u8],
    phase: Phase,
) -> Result<(Line, usize), ReplyError>
    requires { at ≤ length text.now }
    ensures { ReadsFrom (IsReplyLine first.now phase) text.now at result }
{
    let (_, next) = match one_of(text, at, &[first]) {
        Ok(read) => read,
        Err(error) => return Err(error),
    };
    let (kind, fields) = match next_kind(text, next, phase) {
        Ok(read) => read,
        Err(error) => return Err(error),
    };
    rest_of_line(alloc, text, fields, kind)
}

/// Reads the kind of a line that may come in this phase.
fn next_kind(text: &[u8], at: usize, phase: Phase) -> Result<(Kind, usize), ReplyError>
    requires { at ≤ length text.now }
    ensures { ReadsFrom (IsKindIn phase) text.now at result }
{
    let first = skipped(phase);
    match one_of(text, at, &NAMES[first..]) {
        Ok((index, next)) => Ok((KINDS[first + index], next)),
        Err(error) => Err(error),
    }
}

/// How many kinds may no longer come.
fn skipped(phase: Phase) -> usize
    ensures { result ≡ skipped phase }
{
    match phase {
        Phase::Data => 0,
        Phase::Marks => 1,
        Phase::Passed => 2,
        Phase::Rows => 3,
    }
}

/// Reads the rest of a line of this kind.
fn rest_of_line(
    alloc: Global,
    text: &[u8],
    at: usize,
    kind: Kind,
) -> Result<(Line, usize), ReplyError>
    requires { at ≤ length text.now }
    ensures { ReadsFrom (IsRest kind) text.now at result }
{
    match kind {
        Kind::Data => data(alloc, text, at),
        Kind::Mark => match mark(alloc, text, at) {
            Ok((mark, next)) => Ok((Line::Mark(mark), next)),
            Err(error) => Err(error),
        },
        Kind::Passed => match recovery(alloc, text, at) {
            Ok((passed, next)) => Ok((Line::Passed(passed), next)),
            Err(error) => Err(error),
        },
        Kind::Row => match words_behind(alloc, text, at) {
            Ok((words, next)) => Ok((Line::Row(words), next)),
            Err(error) => Err(error),
        },
        Kind::Good => match words_behind(alloc, text, at) {
            Ok((words, next)) => Ok((Line::End(End::Done(words)), next)),
            Err(error) => Err(error),
        },
        Kind::Error => match error_end(alloc, text, at) {
            Ok((end, next)) => Ok((Line::End(end), next)),
            Err(error) => Err(error),
        },
    }
}

fn data(alloc: Global, text: &[u8], at: usize) -> Result<(Line, usize), ReplyError>
    requires { at ≤ length text.now }
    ensures { ReadsFrom (IsRest Kind.Data) text.now at result }
{
    match data_part(text, at) {
        Ok((from, to)) => Ok((Line::Data(Bytes::copy_of(alloc, &text[from..to])?), to + 1)),
        Err(error) => Err(error),
    }
}

/// The phase behind a line. A data line that is not full is the last one before a mark, or before what follows the marks.
pub fn phase_behind(line: &Line) -> Phase
    ensures { result ≡ phase_behind line.now }
{
    match line {
        Line::Data(bytes) if bytes.as_slice().len() == PART_SIZE => Phase::Data,
        Line::Data(_) => Phase::Marks,
        Line::Mark(_) => Phase::Data,
        Line::Passed(_) => Phase::Passed,
        Line::Row(_) | Line::End(_) => Phase::Rows,
    }
}

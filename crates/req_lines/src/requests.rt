ghost use Rattle.std.specs.Prelude.{◌≡◌, ◌+◌, ◌^◌, ◌<◌, ◌≤◌, [], ◌∷◌, ◌++◌, false, true, length, IfOk, IfSome, IfNone, IsErrOf};
ghost use Rattle.grid_outside.specs.Fault.{Rose};
ghost use Rattle.grid_model.specs.Names.{Text as TextOf};
ghost use Rattle.grid_model.specs.Inputs.{Asked, Takes, HasBody};
ghost use Rattle.req_lines.specs.Reading.{input};
ghost use Rattle.req_lines.specs.Hearing.{Finds, BreaksOff, Skips, Stops};
ghost use Rattle.req_lines.specs.Heads.{IsHead, is_held, FindsBehind, BreaksOffBehind, IsLast};

use crate::head::{Head, read_head};
use crate::line_reader::{Ended, HELD, LineReader, Passed};
use crate::lines::is_request;
use grid_model::{Bytes, Refusal, Request, Text};
use grid_outside::{Source, SourceFault};
use std::alloc::{AllocError, Global};
use std::marker::Model;
use thiserror::Error;

/// Why no request was read.
#[derive(Clone, Copy, Debug, PartialEq, Eq, Error)]
pub enum ReadError {
    /// The source failed.
    #[error("the input was not read")]
    Source,
    /// Memory ran out.
    #[error("out of memory")]
    Memory,
}

impl From<SourceFault> for ReadError {
    ghost use Rattle.std.specs.Prelude.{◌≡◌};
    ghost use Rattle.req_lines.specs.declared.requests.ReadError.TheVariants.{Source as Fault};

    ghost from_gives = { λ _ e. e ≡ Fault };

    fn from(_: SourceFault) -> Self {
        ReadError::Source
    }
}

impl From<AllocError> for ReadError {
    ghost use Rattle.std.specs.Prelude.{◌≡◌};
    ghost use Rattle.req_lines.specs.declared.requests.ReadError.TheVariants.{Memory as NoMemory};

    ghost from_gives = { λ _ e. e ≡ NoMemory };

    fn from(_: AllocError) -> Self {
        ReadError::Memory
    }
}

/// A request of the input.
#[derive(Debug, Drop)]
pub struct Heard {
    /// What its words make, or why it is refused whatever the state is: its line is too long or no line of words, its words
    /// are no request, or the input ended within its body.
    pub asked: Result<Request, Refusal>,
    /// The line of the request, without its newline; empty where the request is refused.
    pub line: Text,
    /// Its body: at most 16,777,216 bytes. It is empty where the request is refused, or has more bytes than these.
    pub body: Bytes,
    /// Whether the input has ended with it.
    pub ends: bool,
}

/// What comes next in an input.
#[derive(Debug, Drop)]
pub enum Next {
    Request(Heard),
    /// The input has ended, without a request more.
    End,
    /// The input goes on past its first 2^48 bytes, and no request ends within what is left of these.
    Long,
}

/// Reads the requests of a source. Bytes are taken from the source in blocks, and no block is taken while a whole request
/// is left of the last one. Contracts see the bytes of the block that are left, and how many were taken in all.
#[derive(Drop)]
pub struct Requests {
    reader: LineReader,
    line: Vec<u8>,
}

impl Model for Requests {
    ghost use Rattle.req_lines.specs.Reading.{Reader};

    ghost Value = { Reader };

    ghost view = { λ r. r.reader };
}

impl Requests {
    /// Nothing is read yet. It takes the memory of one block and one line.
    pub fn new(alloc: Global) -> Result<Requests, AllocError>
        ensures unread { IfOk result (λ requests. requests.unread ≡ []) }
        ensures taken { IfOk result (λ requests. requests.taken ≡ 0) }
    {
        Ok(Requests {
            reader: LineReader::new(alloc)?,
            line: Vec::with_capacity(alloc, HELD)?,
        })
    }

    /// Reads the next request with its body, or finds that there is none. Lines without words are skipped. A body that is
    /// not held is passed over block by block. Where a whole request is left of the block the source is not asked. At
    /// most 2^48 + 1 bytes are taken in all. `Source` comes only where the source failed; after an error nothing is said
    /// of what is read.
    pub fn next<S: Source>(&mut self, alloc: Global, source: &mut S) -> Result<Next, ReadError>
        requires most { self.old.taken ≤ 2 ^ 48 }
        ensures finds { IfOk result (λ next. Finds (input self.old (S.source source.old)) (input self.new (S.source source.new)) next) }
        ensures failed { IsErrOf result ReadError.Source → BreaksOff (input self.old (S.source source.old)) (S.source source.new) }
        ensures stopped { IsErrOf result ReadError.Memory → Stops (input self.old (S.source source.old)) (S.source source.new) }
        ensures at_once { (asked : Asked) (left : TextOf) → Takes self.old.unread (asked ∷ []) left → source.new ≡ source.old }
        ensures tells { (S.source source.new).tells ≡ (S.source source.old).tells }
        ensures later { (S.source source.old).faults ≤ (S.source source.new).faults }
        ensures cause { IsErrOf result ReadError.Source → Rose (S.source source.old).faults (S.source source.new).faults }
    {
        next_request(alloc, &mut self.reader, &mut self.line, source)
    }
}

// The same, with a place for a line.
fn next_request<S: Source>(
    alloc: Global,
    reader: &mut LineReader,
    line: &mut Vec<u8>,
    source: &mut S,
) -> Result<Next, ReadError>
    requires most { reader.old.taken ≤ 2 ^ 48 }
    ensures finds { IfOk result (λ next. Finds (input reader.old (S.source source.old)) (input reader.new (S.source source.new)) next) }
    ensures failed { IsErrOf result ReadError.Source → BreaksOff (input reader.old (S.source source.old)) (S.source source.new) }
    ensures stopped { IsErrOf result ReadError.Memory → Stops (input reader.old (S.source source.old)) (S.source source.new) }
    ensures at_once { (asked : Asked) (left : TextOf) → Takes reader.old.unread (asked ∷ []) left → source.new ≡ source.old }
    ensures tells { (S.source source.new).tells ≡ (S.source source.old).tells }
    ensures later { (S.source source.old).faults ≤ (S.source source.new).faults }
    ensures cause { IsErrOf result ReadError.Source → Rose (S.source source.old).faults (S.source source.new).faults }
{
    'lines: loop {
        match request_or_blank(alloc, reader, line, source) {
            Ok(None) => {}
            Ok(Some(next)) => return Ok(next),
            Err(error) => return Err(error),
        }
    }
}

// Reads the next request with its body, or a line without words, for which it answers none.
fn request_or_blank<S: Source>(
    alloc: Global,
    reader: &mut LineReader,
    line: &mut Vec<u8>,
    source: &mut S,
) -> Result<Option<Next>, ReadError>
    requires most { reader.old.taken ≤ 2 ^ 48 }
    ensures finds { IfOk result (λ found. IfSome found (λ next. Finds (input reader.old (S.source source.old)) (input reader.new (S.source source.new)) next)) }
    ensures skips { IfOk result (λ found. IfNone found (Skips (input reader.old (S.source source.old)) (input reader.new (S.source source.new)))) }
    ensures goes_ahead { IfOk result (λ found. IfNone found (reader.old.taken + length reader.new.unread < reader.new.taken + length reader.old.unread)) }
    ensures failed { IsErrOf result ReadError.Source → BreaksOff (input reader.old (S.source source.old)) (S.source source.new) }
    ensures stopped { IsErrOf result ReadError.Memory → Stops (input reader.old (S.source source.old)) (S.source source.new) }
    ensures at_once { (asked : Asked) (left : TextOf) → Takes reader.old.unread (asked ∷ []) left → source.new ≡ source.old }
    ensures more_at_once { (asked : Asked) (left : TextOf) → Takes reader.old.unread (asked ∷ []) left →
        IfOk result (λ found. IfNone found (Takes reader.new.unread (asked ∷ []) left)) }
    ensures tells { (S.source source.new).tells ≡ (S.source source.old).tells }
    ensures later { (S.source source.old).faults ≤ (S.source source.new).faults }
    ensures cause { IsErrOf result ReadError.Source → Rose (S.source source.old).faults (S.source source.new).faults }
{
    match reader.read_line(source, line) {
        Ok(Ended::Line) => {
            if !is_request(line) {
                return Ok(None);
            }
            match behind_line(alloc, reader, line, source) {
                Ok(next) => Ok(Some(next)),
                Err(error) => Err(error),
            }
        }
        Ok(Ended::End) => match last_line(alloc, line) {
            Ok(next) => Ok(Some(next)),
            Err(AllocError) => Err(ReadError::Memory),
        },
        Ok(Ended::Long) => Ok(Some(Next::Long)),
        Err(error) => Err(error),
    }
}

// What the last line of the input is, behind which nothing of a body comes. Fails for want of memory alone.
fn last_line(alloc: Global, line: &[u8]) -> Result<Next, AllocError>
    ensures { IfOk result (λ next. IsLast line.now next) }
{
    if !is_request(line) {
        return Ok(Next::End);
    }
    let head = read_head(alloc, line)?;
    Ok(Next::Request(head.heard(alloc, 0, Vec::new(alloc), true)))
}

// Reads the body of the request of this line.
fn behind_line<S: Source>(
    alloc: Global,
    reader: &mut LineReader,
    line: &[u8],
    source: &mut S,
) -> Result<Next, ReadError>
    requires most { reader.old.taken ≤ 2 ^ 48 }
    ensures finds { IfOk result (λ next. FindsBehind line.now (input reader.old (S.source source.old)) (input reader.new (S.source source.new)) next) }
    ensures failed { IsErrOf result ReadError.Source → BreaksOffBehind line.now (input reader.old (S.source source.old)) (S.source source.new) }
    ensures stopped { IsErrOf result ReadError.Memory → Stops (input reader.old (S.source source.old)) (S.source source.new) }
    ensures at_once { (body more : TextOf) → HasBody line.now (length body) → reader.old.unread ≡ body ++ more → source.new ≡ source.old }
    ensures tells { (S.source source.new).tells ≡ (S.source source.old).tells }
    ensures later { (S.source source.old).faults ≤ (S.source source.new).faults }
    ensures cause { IsErrOf result ReadError.Source → Rose (S.source source.old).faults (S.source source.new).faults }
{
    match read_head(alloc, line) {
        Ok(head) => {
            if head.is_held() {
                return hold_body(alloc, reader, head, source);
            }
            pass_body(alloc, reader, head, source)
        }
        Err(AllocError) => Err(ReadError::Memory),
    }
}

// Reads a body that is held.
fn hold_body<S: Source>(
    alloc: Global,
    reader: &mut LineReader,
    head: Head,
    source: &mut S,
) -> Result<Next, ReadError>
    requires most { reader.old.taken ≤ 2 ^ 48 }
    requires held { is_held head.asked head.count ≡ true }
    ensures finds { (line : TextOf) → IsHead line head →
        IfOk result (λ next. FindsBehind line (input reader.old (S.source source.old)) (input reader.new (S.source source.new)) next) }
    ensures failed { (line : TextOf) → IsHead line head →
        IsErrOf result ReadError.Source → BreaksOffBehind line (input reader.old (S.source source.old)) (S.source source.new) }
    ensures stopped { IsErrOf result ReadError.Memory → Stops (input reader.old (S.source source.old)) (S.source source.new) }
    ensures at_once { head.count ≤ length reader.old.unread → source.new ≡ source.old }
    ensures tells { (S.source source.new).tells ≡ (S.source source.old).tells }
    ensures later { (S.source source.old).faults ≤ (S.source source.new).faults }
    ensures cause { IsErrOf result ReadError.Source → Rose (S.source source.old).faults (S.source source.new).faults }
{
    let mut body = Vec::new(alloc);
    match reader.read_body(source, head.count, &mut body) {
        Ok(Passed::Whole) => {
            let have = head.count;
            Ok(Next::Request(head.heard(alloc, have, body, false)))
        }
        Ok(Passed::Short { have }) => Ok(Next::Request(head.heard(alloc, have, body, true))),
        Ok(Passed::Long) => {
            drop(head);
            drop(body);
            Ok(Next::Long)
        }
        Err(error) => {
            drop(head);
            drop(body);
            Err(error)
        }
    }
}

// Passes over a body that is not held.
fn pass_body<S: Source>(
    alloc: Global,
    reader: &mut LineReader,
    head: Head,
    source: &mut S,
) -> Result<Next, ReadError>
    requires most { reader.old.taken ≤ 2 ^ 48 }
    requires not_held { is_held head.asked head.count ≡ false }
    ensures finds { (line : TextOf) → IsHead line head →
        IfOk result (λ next. FindsBehind line (input reader.old (S.source source.old)) (input reader.new (S.source source.new)) next) }
    ensures failed { (line : TextOf) → IsHead line head →
        IsErrOf result ReadError.Source → BreaksOffBehind line (input reader.old (S.source source.old)) (S.source source.new) }
    ensures stopped { IsErrOf result ReadError.Memory → Stops (input reader.old (S.source source.old)) (S.source source.new) }
    ensures at_once { head.count ≤ length reader.old.unread → source.new ≡ source.old }
    ensures tells { (S.source source.new).tells ≡ (S.source source.old).tells }
    ensures later { (S.source source.old).faults ≤ (S.source source.new).faults }
    ensures cause { IsErrOf result ReadError.Source → Rose (S.source source.old).faults (S.source source.new).faults }
{
    match reader.pass(source, head.count) {
        Ok(Passed::Whole) => {
            let have = head.count;
            Ok(Next::Request(head.heard(alloc, have, Vec::new(alloc), false)))
        }
        Ok(Passed::Short { have }) => {
            Ok(Next::Request(head.heard(alloc, have, Vec::new(alloc), true)))
        }
        Ok(Passed::Long) => {
            drop(head);
            Ok(Next::Long)
        }
        Err(SourceFault) => {
            drop(head);
            Err(ReadError::Source)
        }
    }
}

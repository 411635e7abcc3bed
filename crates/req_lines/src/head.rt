ghost use Rattle.std.specs.Prelude.{◌≡◌, ℕ, List, [], Err, IfOk, length, MatchResult};
ghost use Rattle.req_lines.specs.Hearing.{KeepsLine};
ghost use Rattle.req_lines.specs.Heads.{AreRead, IsHead, asked_with, is_held};

use crate::requests::Heard;
use cmd_read::{ReadError, body_count};
use grid_model::{Refusal, Request, Text, Texts};
use req_words::{WordError, words};
use std::alloc::{AllocError, Global};

/// How many bytes an object has at most where it is put.
pub(crate) const OBJECT_SIZE: u64 = 16_777_216;

/// The line of a request as it was read: what it asks for where its body comes whole, or why it is refused whatever comes,
/// how many bytes behind it belong to it, and the line itself, which is left out where it is refused.
#[derive(Debug, Drop)]
pub(crate) struct Head {
    pub(crate) asked: Result<Request, Refusal>,
    pub(crate) count: u64,
    pub(crate) line: Text,
}

impl Head {
    /// Whether its body is held: it is asked for, and has no more bytes than an object may have.
    pub(crate) fn is_held(&self) -> bool
        ensures { result ≡ is_held self.now.asked self.now.count }
    {
        match &self.asked {
            Ok(_) => self.count <= OBJECT_SIZE,
            Err(_) => false,
        }
    }

    /// The request with a body of so many bytes, of which this is held, and with which the input has ended or not.
    pub(crate) fn heard(self, alloc: Global, have: u64, held: Vec<u8>, ends: bool) -> Heard
        ensures asked { (body : List ℕ) → length body ≡ have → result.asked ≡ asked_with self.asked self.count body }
        ensures body { MatchResult result.asked (λ _. result.body ≡ held.items) (λ _. result.body ≡ []) }
        ensures ends { result.ends ≡ ends }
        ensures keeps { KeepsLine result.asked result.line self.line }
    {
        let Head { asked, count, line } = self;
        match asked {
            Ok(request) => {
                if have < count {
                    drop(request);
                    drop(line);
                    drop(held);
                    let asked = Err(Refusal::Truncated { have, want: count });
                    return with_nothing(alloc, asked, ends);
                }
                let body = Text::from_vec(held);
                Heard {
                    asked: Ok(request),
                    line,
                    body,
                    ends,
                }
            }
            Err(refusal) => {
                drop(line);
                drop(held);
                with_nothing(alloc, Err(refusal), ends)
            }
        }
    }
}

// The request without its line and its body.
fn with_nothing(alloc: Global, asked: Result<Request, Refusal>, ends: bool) -> Heard
    ensures asked { result.asked ≡ asked }
    ensures line { result.line ≡ [] }
    ensures body { result.body ≡ [] }
    ensures ends { result.ends ≡ ends }
{
    Heard {
        asked,
        line: Text::from_vec(Vec::new(alloc)),
        body: Text::from_vec(Vec::new(alloc)),
        ends,
    }
}

/// Reads the line of a request. Fails for want of memory alone.
pub(crate) fn read_head(alloc: Global, line: &[u8]) -> Result<Head, AllocError>
    ensures { IfOk result (λ head. IsHead line.now head) }
{
    match words(alloc, line) {
        Ok(words) => {
            let count = body_count(&words).unwrap_or(0);
            let asked = read_words(alloc, &words)?;
            match kept_line(alloc, &asked, line) {
                Ok(line) => Ok(Head { asked, count, line }),
                Err(AllocError) => {
                    drop(asked);
                    Err(AllocError)
                }
            }
        }
        Err(WordError::TooLong) => Ok(refused(alloc, Refusal::TooLong)),
        Err(WordError::Syntax { at }) => Ok(refused(alloc, Refusal::Syntax { at })),
        Err(WordError::Memory) => Err(AllocError),
    }
}

// A line without words, and so without a body.
fn refused(alloc: Global, refusal: Refusal) -> Head
    ensures asked { result.asked ≡ Err refusal }
    ensures count { result.count ≡ 0 }
    ensures line { result.line ≡ [] }
{
    Head {
        asked: Err(refusal),
        count: 0,
        line: Text::from_vec(Vec::new(alloc)),
    }
}

// What is kept of a line of words. Fails for want of memory alone.
fn kept_line(
    alloc: Global,
    asked: &Result<Request, Refusal>,
    line: &[u8],
) -> Result<Text, AllocError>
    ensures { IfOk result (λ text. KeepsLine asked.now text line.now) }
{
    match asked {
        Ok(_) => Text::copy_of(alloc, line),
        Err(_) => Ok(Text::from_vec(Vec::new(alloc))),
    }
}

// The request that the words make, or why they are refused. Fails for want of memory alone.
fn read_words(alloc: Global, words: &Texts) -> Result<Result<Request, Refusal>, AllocError>
    ensures { IfOk result (λ asked. AreRead words.now asked) }
{
    match cmd_read::read_request(alloc, words) {
        Ok(request) => Ok(Ok(request)),
        Err(ReadError::BadWord { index }) => Ok(Err(Refusal::BadWord { index })),
        Err(ReadError::UnknownCommand) => Ok(Err(Refusal::UnknownCommand)),
        Err(ReadError::BadPath { at }) => Ok(Err(Refusal::BadPath { at })),
        Err(ReadError::BadName { at }) => Ok(Err(Refusal::BadName { at })),
        Err(ReadError::Memory) => Err(AllocError),
    }
}

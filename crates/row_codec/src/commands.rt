//! What a command has that is not done: marks, calls and refused recoveries, read and added.

ghost use Rattle.std.specs.Prelude.{◌≡◌, [], ◌∷◌, ◌++◌, OnOk};
ghost use Rattle.grid_model.specs.Deltas.{joined, text as text_part, bad_replica, call, passed, mark, running_call as running_part, pending as pending_row};
ghost use Rattle.row_codec.specs.Reading.{Gives};
ghost use Rattle.row_codec.specs.declared.fields.Alphabet.TheVariants.{Shown};
ghost use Rattle.row_codec.specs.Reading.{text_at};
ghost use Rattle.row_codec.specs.Rows.{call_at, bad_at, ran_at, fault_at, bad_read_at, mark_of, mark_at, passed_at, running_if, running_at, pending_at};

use crate::entry::{Entry, list, put_list};
use crate::fields::{Alphabet, byte, coded, hash_of, text, u32_of, u64_of};
use crate::putting::{put_byte, put_code, put_digest, put_text, put_u32, put_u64};
use crate::stop::Stop;
use crate::tags::MarkTag;
use grid_model::{BadReplica, Call, Digest, Mark, Passed, Pending, Text};
use std::alloc::{AllocError, Global};

impl Entry for Text {
    ghost read_at = { text_at Shown };

    ghost parts = { λ t. text_part t ∷ [] };

    fn read(alloc: Global, bytes: &[u8]) -> Result<(Text, &[u8]), Stop> {
        text(alloc, Alphabet::Shown, bytes)
    }

    fn put(&self, out: &mut Vec<u8>) -> Result<(), AllocError> {
        put_text(out, self)
    }
}

impl Entry for BadReplica {
    ghost read_at = { bad_at };

    ghost parts = { bad_replica };

    #[tactic(auto, unfolding(crate::specs::Rows::bad_at, crate::specs::Reading::and_then, crate::specs::Reading::give))]
    fn read(_alloc: Global, bytes: &[u8]) -> Result<(BadReplica, &[u8]), Stop> {
        let (number, rest) = u32_of(bytes)?;
        let (len, rest) = u64_of(rest)?;
        let (hash, rest) = hash_of(rest)?;
        let bad = BadReplica {
            number,
            len,
            found: Digest::from_bytes(*hash),
        };
        Ok((bad, rest))
    }

    fn put(&self, out: &mut Vec<u8>) -> Result<(), AllocError> {
        put_u32(out, self.number)?;
        put_u64(out, self.len)?;
        put_digest(out, self.found)
    }
}

impl Entry for Call {
    ghost read_at = { call_at };

    ghost parts = { call };

    #[tactic(auto, unfolding(crate::specs::Rows::call_at, crate::specs::Reading::and_then, crate::specs::Reading::give))]
    fn read(alloc: Global, bytes: &[u8]) -> Result<(Call, &[u8]), Stop> {
        let (name, rest) = text(alloc, Alphabet::Shown, bytes)?;
        let (args, rest) = list(alloc, rest)?;
        Ok((Call { name, args }, rest))
    }

    fn put(&self, out: &mut Vec<u8>) -> Result<(), AllocError> {
        put_text(out, &self.name)?;
        put_list(out, &self.args)
    }
}

impl Entry for Passed {
    ghost read_at = { passed_at };

    ghost parts = { passed };

    #[tactic(auto, unfolding(crate::specs::Rows::passed_at, crate::specs::Reading::and_then, crate::specs::Reading::give))]
    fn read(alloc: Global, bytes: &[u8]) -> Result<(Passed, &[u8]), Stop> {
        let (call, rest) = Call::read(alloc, bytes)?;
        let (failure, rest) = text(alloc, Alphabet::Shown, rest)?;
        Ok((Passed { call, failure }, rest))
    }

    fn put(&self, out: &mut Vec<u8>) -> Result<(), AllocError> {
        self.call.put(out)?;
        put_text(out, &self.failure)
    }
}

impl Entry for Mark {
    ghost read_at = { mark_at };

    ghost parts = { mark };

    #[tactic(auto, unfolding(crate::specs::Rows::mark_at, crate::specs::Reading::and_then))]
    fn read(alloc: Global, bytes: &[u8]) -> Result<(Mark, &[u8]), Stop> {
        let (tag, rest) = coded(bytes)?;
        mark(alloc, tag, rest)
    }

    fn put(&self, out: &mut Vec<u8>) -> Result<(), AllocError> {
        match self {
            Mark::Ran { word, now, bad } => {
                put_code(out, MarkTag::Ran)?;
                put_u64(out, *word)?;
                put_u64(out, *now)?;
                put_list(out, bad)
            }
            Mark::Fault { slot, parts } => {
                put_code(out, MarkTag::Fault)?;
                put_byte(out, *slot)?;
                put_u64(out, *parts)
            }
            Mark::Bad {
                slot,
                len,
                found,
                parts,
            } => {
                put_code(out, MarkTag::Bad)?;
                put_byte(out, *slot)?;
                put_u64(out, *len)?;
                put_digest(out, *found)?;
                put_u64(out, *parts)
            }
            Mark::Stop => put_code(out, MarkTag::Stop),
        }
    }
}

/// A mark behind its tag.
#[tactic(auto, unfolding(crate::specs::Rows::mark_of, crate::specs::Rows::ran_at, crate::specs::Rows::fault_at, crate::specs::Rows::bad_read_at, crate::specs::Reading::and_then, crate::specs::Reading::give))]
fn mark(alloc: Global, tag: MarkTag, bytes: &[u8]) -> Result<(Mark, &[u8]), Stop>
    ensures { Gives (λ x. (x.0, x.1.now)) result (mark_of tag bytes.now) }
{
    match tag {
        MarkTag::Ran => {
            let (word, rest) = u64_of(bytes)?;
            let (now, rest) = u64_of(rest)?;
            let (bad, rest) = list(alloc, rest)?;
            Ok((Mark::Ran { word, now, bad }, rest))
        }
        MarkTag::Fault => {
            let (slot, rest) = byte(bytes)?;
            let (parts, rest) = u64_of(rest)?;
            Ok((Mark::Fault { slot, parts }, rest))
        }
        MarkTag::Bad => {
            let (slot, rest) = byte(bytes)?;
            let (len, rest) = u64_of(rest)?;
            let (hash, rest) = hash_of(rest)?;
            let (parts, rest) = u64_of(rest)?;
            let found = Digest::from_bytes(*hash);
            Ok((
                Mark::Bad {
                    slot,
                    len,
                    found,
                    parts,
                },
                rest,
            ))
        }
        MarkTag::Stop => Ok((Mark::Stop, bytes)),
    }
}

/// A flag, and the call where there is one.
#[tactic(auto, unfolding(crate::specs::Rows::running_at, crate::specs::Rows::running_if, crate::specs::Reading::and_then, crate::specs::Reading::give))]
fn running(alloc: Global, bytes: &[u8]) -> Result<(Option<Call>, &[u8]), Stop>
    ensures { Gives (λ x. (x.0, x.1.now)) result (running_at bytes.now) }
{
    let (is_running, rest) = coded(bytes)?;
    if is_running {
        let (call, rest) = Call::read(alloc, rest)?;
        Ok((Some(call), rest))
    } else {
        Ok((None, rest))
    }
}

/// The command at the front that is not done, and the bytes behind it.
#[tactic(auto, unfolding(crate::specs::Rows::pending_at, crate::specs::Reading::and_then, crate::specs::Reading::give))]
pub fn pending(alloc: Global, bytes: &[u8]) -> Result<(Pending, &[u8]), Stop>
    ensures { Gives (λ x. (x.0, x.1.now)) result (pending_at bytes.now) }
{
    let (run, rest) = u64_of(bytes)?;
    let (number, rest) = u64_of(rest)?;
    let (user, rest) = u32_of(rest)?;
    let (line, rest) = text(alloc, Alphabet::Shown, rest)?;
    let (marks, rest) = list(alloc, rest)?;
    let (passed, rest) = list(alloc, rest)?;
    let (running, rest) = running(alloc, rest)?;
    let (undo, rest) = list(alloc, rest)?;
    let pending = Pending {
        run,
        number,
        user,
        line,
        marks,
        passed,
        running,
        undo,
    };
    Ok((pending, rest))
}

/// Adds a flag, and the call where there is one.
fn put_running(out: &mut Vec<u8>, running: &Option<Call>) -> Result<(), AllocError>
    ensures { OnOk result (out.new.items ≡ out.old.items ++ (running_part running.now).bytes) }
{
    put_code(out, running.is_some())?;
    match running {
        Some(call) => call.put(out),
        None => Ok(()),
    }
}

/// Adds a command that is not done.
pub fn put_pending(out: &mut Vec<u8>, row: &Pending) -> Result<(), AllocError>
    ensures { OnOk result (out.new.items ≡ out.old.items ++ joined (pending_row row.now)) }
{
    put_u64(out, row.run)?;
    put_u64(out, row.number)?;
    put_u32(out, row.user)?;
    put_text(out, &row.line)?;
    put_list(out, &row.marks)?;
    put_list(out, &row.passed)?;
    put_running(out, &row.running)?;
    put_list(out, &row.undo)
}

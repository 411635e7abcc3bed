ghost use Rattle.std.specs.Prelude.{◌≤◌, length};
ghost use Rattle.reply_fields.specs.Fronts.{ReadsFrom};
ghost use Rattle.reply_reader.specs.MarkFields.{IsBadMark, IsFault, IsMark, IsRan};

use crate::bad_replicas::bad_list;
use crate::fields::{digest_field, number_field};
use grid_model::Mark;
use reply_fields::ReplyError;
use reply_fields::names::one_of;
use reply_fields::numbers::number;
use std::alloc::Global;

/// How marks begin, with the byte behind it.
const NAMES: [&[u8]; 4] = [b"ran ", b"fault ", b"bad ", b"stop\n"];

/// Reads a mark and a newline, from behind the name of its line on.
pub fn mark(alloc: Global, text: &[u8], at: usize) -> Result<(Mark, usize), ReplyError>
    requires { at ≤ length text.now }
    ensures { ReadsFrom IsMark text.now at result }
{
    let (index, next) = match one_of(text, at, &NAMES) {
        Ok(read) => read,
        Err(error) => return Err(error),
    };
    if index == 0 {
        return ran(alloc, text, next);
    }
    if index == 1 {
        return fault(text, next);
    }
    if index == 2 {
        return bad(alloc, text, next);
    }
    Ok((Mark::Stop, next))
}

fn ran(alloc: Global, text: &[u8], at: usize) -> Result<(Mark, usize), ReplyError>
    requires { at ≤ length text.now }
    ensures { ReadsFrom IsRan text.now at result }
{
    let (word, next) = match number_field(text, at, u64::MAX, b' ') {
        Ok(read) => read,
        Err(error) => return Err(error),
    };
    let ((now, end), after_now) = match number(text, next, 0, u64::MAX, b" \n") {
        Ok(read) => read,
        Err(error) => return Err(error),
    };
    match bad_list(alloc, text, after_now, end) {
        Ok((bad, last)) => Ok((Mark::Ran { word, now, bad }, last)),
        Err(error) => Err(error),
    }
}

fn fault(text: &[u8], at: usize) -> Result<(Mark, usize), ReplyError>
    requires { at ≤ length text.now }
    ensures { ReadsFrom IsFault text.now at result }
{
    let (slot, next) = match number_field(text, at, 255, b' ') {
        Ok(read) => read,
        Err(error) => return Err(error),
    };
    match number_field(text, next, u64::MAX, b'\n') {
        Ok((parts, last)) => Ok((
            Mark::Fault {
                slot: slot as u8,
                parts,
            },
            last,
        )),
        Err(error) => Err(error),
    }
}

fn bad(alloc: Global, text: &[u8], at: usize) -> Result<(Mark, usize), ReplyError>
    requires { at ≤ length text.now }
    ensures { ReadsFrom IsBadMark text.now at result }
{
    let (slot, next) = match number_field(text, at, 255, b' ') {
        Ok(read) => read,
        Err(error) => return Err(error),
    };
    let (len, after_len) = match number_field(text, next, u64::MAX, b' ') {
        Ok(read) => read,
        Err(error) => return Err(error),
    };
    let (found, after_found) = match digest_field(alloc, text, after_len, b' ') {
        Ok(read) => read,
        Err(error) => return Err(error),
    };
    match number_field(text, after_found, u64::MAX, b'\n') {
        Ok((parts, last)) => {
            let mark = Mark::Bad {
                slot: slot as u8,
                len,
                found,
                parts,
            };
            Ok((mark, last))
        }
        Err(error) => Err(error),
    }
}

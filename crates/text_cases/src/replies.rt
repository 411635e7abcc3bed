// Replies, read and written again.
use crate::playing::unknown;
use crate::words::in_brackets;
use cmd_reply::{mark_line, rest};
use grid_model::Reply;
use reply_reader::read_reply;
use std::alloc::{AllocError, Global};

pub(crate) fn play(alloc: Global, call: &str, text: &[u8]) -> Result<String, AllocError> {
    match call {
        "whole" => whole(alloc, text),
        "mark" => mark(alloc, text),
        "again" => again(alloc, text),
        _ => unknown(alloc),
    }
}

// How a reply ends, and whether it is written again as it was.
fn again(alloc: Global, text: &[u8]) -> Result<String, AllocError> {
    match read_reply(alloc, text) {
        Ok((number, reply)) => {
            let written = rest(alloc, number, &reply)?;
            format!(in alloc; "{:?} {}", reply.end, written.has_bytes(text))
        }
        Err(error) => format!(in alloc; "{error:?}"),
    }
}

// The parts of a reply.
fn whole(alloc: Global, text: &[u8]) -> Result<String, AllocError> {
    match read_reply(alloc, text) {
        Ok((number, reply)) => parts(alloc, number, &reply),
        Err(error) => format!(in alloc; "{error:?}"),
    }
}

fn parts(alloc: Global, number: u64, reply: &Reply) -> Result<String, AllocError> {
    let shown = reply.shown.as_slice().len();
    let mut parts = format!(in alloc; "{number} data {shown}")?;
    for passed in reply.passed.as_slice() {
        let args = in_brackets(alloc, passed.call.args.as_slice())?;
        let name = passed.call.name.as_slice().escape_ascii();
        let failure = passed.failure.as_slice().escape_ascii();
        parts.push_str(format!(in alloc; " passed {name} {args} {failure}")?.as_str())?;
    }
    for row in reply.rows.as_slice() {
        parts.push_str(" row ")?;
        parts.push_str(in_brackets(alloc, row.as_slice())?.as_str())?;
    }
    Ok(parts)
}

// The line of the first mark, written again, and the bytes that are shown.
fn mark(alloc: Global, text: &[u8]) -> Result<String, AllocError> {
    let (number, reply) = match read_reply(alloc, text) {
        Ok(read) => read,
        Err(error) => return format!(in alloc; "{error:?}"),
    };
    match reply.marks.as_slice().first() {
        Some(mark) => {
            let line = mark_line(alloc, number, mark)?;
            let line = line.as_slice().escape_ascii();
            format!(in alloc; "{mark:?} {line} {}", reply.shown.as_slice().escape_ascii())
        }
        None => String::from_str(alloc, "no mark"),
    }
}

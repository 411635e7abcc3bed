ghost use Rattle.std.specs.Prelude.{◌≡◌, ◌≤◌, ◌⊎◌, length};
ghost use Rattle.reply_fields.specs.Fronts.{ReadsFrom};
ghost use Rattle.reply_reader.specs.MarkFields.{IsBadList, IsBadReplica};

use crate::fields::number_field;
use grid_model::{BadReplica, BadReplicas, Items};
use reply_fields::ReplyError;
use reply_fields::digests::digest;
use reply_fields::names::one_of;
use std::alloc::{AllocError, Global};

/// What may stand behind a bad replica.
const BEHIND: [&[u8]; 2] = [b" ", b"\n"];

/// The greatest number of a replica.
const MOST_NUMBER: u64 = 4_294_967_295;

/// Reads the bad replicas of a mark behind the byte `before`: none behind a newline, and behind a space one or more.
pub fn bad_list(
    alloc: Global,
    text: &[u8],
    at: usize,
    before: u8,
) -> Result<(BadReplicas, usize), ReplyError>
    requires place { at ≤ length text.now }
    requires before { (before ≡ 0x0A) ⊎ (before ≡ 0x20) }
    ensures { ReadsFrom (IsBadList before) text.now at result }
{
    let mut found = Vec::new(alloc);
    let mut place = at;
    let mut end = before;
    while end == b' ' {
        let ((bad, last), next) = match bad_replica(alloc, text, place) {
            Ok(read) => read,
            Err(error) => return Err(error),
        };
        found.push(bad).map_err(AllocError::from)?;
        end = last;
        place = next;
    }
    Ok((Items::from_vec(found), place))
}

/// Reads a bad replica, and the space or the newline behind it.
fn bad_replica(
    alloc: Global,
    text: &[u8],
    at: usize,
) -> Result<((BadReplica, u8), usize), ReplyError>
    requires { at ≤ length text.now }
    ensures { ReadsFrom IsBadReplica text.now at result }
{
    let (_, next) = match one_of(text, at, &[b"bad "]) {
        Ok(read) => read,
        Err(error) => return Err(error),
    };
    let (number, after_number) = match number_field(text, next, MOST_NUMBER, b' ') {
        Ok(read) => read,
        Err(error) => return Err(error),
    };
    let (len, after_len) = match number_field(text, after_number, u64::MAX, b' ') {
        Ok(read) => read,
        Err(error) => return Err(error),
    };
    let (found, after_found) = match digest(alloc, text, after_len) {
        Ok(read) => read,
        Err(error) => return Err(error),
    };
    let (index, last) = match one_of(text, after_found, &BEHIND) {
        Ok(read) => read,
        Err(error) => return Err(error),
    };
    let bad = BadReplica {
        number: number as u32,
        len,
        found,
    };
    if index == 0 {
        return Ok(((bad, b' '), last));
    }
    Ok(((bad, b'\n'), last))
}

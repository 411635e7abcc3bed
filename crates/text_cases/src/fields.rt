// The fields of reply lines, and where they stop.
ghost use Rattle.std.specs.Prelude.{◌≤◌};

use crate::playing::unknown;
use crate::words::in_brackets;
use grid_model::Digest;
use reply_fields::counted::data_part;
use reply_fields::digests::digest;
use reply_fields::lists;
use reply_fields::names::one_of;
use reply_fields::numbers::number;
use reply_fields::signed::signed;
use reply_fields::words::word;
use std::alloc::{AllocError, Global};

pub(crate) fn play(
    alloc: Global,
    call: &str,
    text: &[u8],
    most: &[u8],
) -> Result<String, AllocError> {
    match call {
        "from_zero" => format!(in alloc; "{:?}", number(text, 0, 0, most_of(most), b" \n")),
        "from_one" => format!(in alloc; "{:?}", number(text, 0, 1, most_of(most), b" \n")),
        "name" => format!(in alloc;
            "{:?}",
            one_of(text, 0, &[b"NoRule\n", b"NoReplica\n", b"Code "])
        ),
        "word" => one_word(alloc, text),
        "words" => words(alloc, text),
        "digest" => one_digest(alloc, text, most),
        "part" => format!(in alloc; "{:?}", data_part(text, 0)),
        "signed" => format!(in alloc; "{:?}", signed(text, 0)),
        _ => unknown(alloc),
    }
}

// The greatest number that is read: 9, 65,536 or the greatest of all.
fn most_of(digits: &[u8]) -> u64
    ensures { 1 ≤ result }
{
    match digits.len() {
        1 => 9,
        5 => 65_536,
        _ => u64::MAX,
    }
}

// A word, the byte behind it, and the place behind that.
fn one_word(alloc: Global, text: &[u8]) -> Result<String, AllocError> {
    match word(alloc, text, 0, b" \n") {
        Ok(((word, end), next)) => format!(in alloc;
            "{} {end} {next}",
            word.as_slice().escape_ascii()
        ),
        Err(error) => format!(in alloc; "{error:?}"),
    }
}

// The words of a list from its fourth byte on, and the place behind it.
fn words(alloc: Global, text: &[u8]) -> Result<String, AllocError> {
    match lists::words(alloc, text, 3.min(text.len())) {
        Ok((words, next)) => {
            let shown = in_brackets(alloc, words.as_slice())?;
            format!(in alloc; "{shown} {next}")
        }
        Err(error) => format!(in alloc; "{error:?}"),
    }
}

// Whether it is the digest of these bytes, and the place behind it.
fn one_digest(alloc: Global, text: &[u8], bytes: &[u8]) -> Result<String, AllocError> {
    match digest(alloc, text, 0) {
        Ok((read, next)) => format!(in alloc; "{} {next}", read == Digest::of(bytes)),
        Err(error) => format!(in alloc; "{error:?}"),
    }
}

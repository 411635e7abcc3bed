ghost use Rattle.std.specs.Prelude.{◌≡◌, ◌≢◌, ◌<◌, ◌≤◌, IsTrue, length, slice_index, MatchResult};
ghost use Rattle.std.specs.List.{list_all};
ghost use Rattle.grid_model.specs.Words.{is_escaped};
ghost use Rattle.reply_fields.specs.Fronts.{ReadsFrom};
ghost use Rattle.reply_fields.specs.Spelled.{IsEndedWord, IsInnerByte, IsNoInnerByte, HasBareFront, is_word_end};

use crate::error::ReplyError;
use grid_model::Text;
use req_words::{is_bare, is_bare_byte, is_word_byte};
use std::alloc::{AllocError, Global};

/// Reads a word as it is written and the byte that ends it, which is one of `ends`.
pub fn word(
    alloc: Global,
    text: &[u8],
    at: usize,
    ends: &[u8],
) -> Result<((Text, u8), usize), ReplyError>
    requires place { at ≤ length text.now }
    requires some { 0 < length ends.now }
    requires blank { IsTrue (list_all is_word_end ends.now) }
    ensures { ReadsFrom (IsEndedWord ends.now) text.now at result }
{
    if at < text.len() && text[at] == b'"' {
        quoted_word(alloc, text, at, ends)
    } else {
        bare_word(alloc, text, at, ends)
    }
}

/// Reads what does not begin with a quote.
fn bare_word(
    alloc: Global,
    text: &[u8],
    at: usize,
    ends: &[u8],
) -> Result<((Text, u8), usize), ReplyError>
    requires place { at ≤ length text.now }
    requires no_quote { at < length text.now → slice_index text.now at ≢ 0x22 }
    requires some { 0 < length ends.now }
    requires blank { IsTrue (list_all is_word_end ends.now) }
    ensures { ReadsFrom (IsEndedWord ends.now) text.now at result }
{
    let rest = &text[at..];
    let len = bare_len(rest);
    if len == 0 || len == rest.len() || !ends.contains(&rest[len]) {
        return Err(ReplyError::BadReply {
            at: (at + len) as u64,
        });
    }
    let word = Text::copy_of(alloc, &rest[..len])?;
    Ok(((word, rest[len]), at + len + 1))
}

/// How many bytes at the front may stand in a word without quotes.
fn bare_len(rest: &[u8]) -> usize
    ensures { HasBareFront rest.now result }
{
    let mut len = 0;
    while len < rest.len() && is_bare_byte(rest[len]) {
        len += 1;
    }
    len
}

/// Reads what begins with a quote.
fn quoted_word(
    alloc: Global,
    text: &[u8],
    at: usize,
    ends: &[u8],
) -> Result<((Text, u8), usize), ReplyError>
    requires place { at < length text.now }
    requires quote { slice_index text.now at ≡ 0x22 }
    requires some { 0 < length ends.now }
    requires blank { IsTrue (list_all is_word_end ends.now) }
    ensures { ReadsFrom (IsEndedWord ends.now) text.now at result }
{
    let rest = &text[at..];
    let mut word = Vec::new(alloc);
    let mut len = 1;
    while len < rest.len() && rest[len] != b'"' {
        match inner_byte(rest, len) {
            Ok((byte, next)) => {
                word.push(byte).map_err(AllocError::from)?;
                len = next;
            }
            Err(place) => return Err(ReplyError::BadReply {
                at: (at + place) as u64,
            }),
        }
    }
    if len == rest.len() {
        return Err(ReplyError::BadReply {
            at: (at + len) as u64,
        });
    }
    if is_bare(word.as_slice()) {
        return Err(ReplyError::BadReply {
            at: (at + len) as u64,
        });
    }
    let end = len + 1;
    if end == rest.len() || !ends.contains(&rest[end]) {
        return Err(ReplyError::BadReply {
            at: (at + end) as u64,
        });
    }
    Ok(((Text::from_vec(word), rest[end]), at + end + 1))
}

/// Reads a byte between quotes: the byte and the place behind it, or the place of what may not stand there.
fn inner_byte(rest: &[u8], len: usize) -> Result<(u8, usize), usize>
    requires place { len < length rest.now }
    requires no_quote { slice_index rest.now len ≢ 0x22 }
    ensures { MatchResult result (λ read. IsInnerByte rest.now len read.0 read.1) (λ place. IsNoInnerByte rest.now len place) }
{
    if rest[len] != b'\\' {
        return if is_word_byte(rest[len]) {
            Ok((rest[len], len + 1))
        } else {
            Err(len)
        };
    }
    if len + 1 < rest.len() && is_escaped(rest[len + 1]) {
        Ok((rest[len + 1], len + 2))
    } else {
        Err(len + 1)
    }
}

fn is_escaped(byte: u8) -> bool
    ensures { result ≡ is_escaped byte }
{
    byte == b'"' || byte == b'\\'
}

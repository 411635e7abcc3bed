// Patterns, also against a plain search by every way.
ghost use Rattle.std.specs.Prelude.{◌≤◌};

use crate::playing::unknown;
use rule_like::{like_sql, like_star};
use std::alloc::{AllocError, Global};

pub(crate) fn play(
    alloc: Global,
    call: &str,
    text: &[u8],
    pattern: &[u8],
) -> Result<String, AllocError> {
    match call {
        "star" => format!(in alloc; "{}", like_star(text, pattern)),
        "sql" => format!(in alloc; "{}", like_sql(text, pattern)),
        "ways" => format!(in alloc; "{} of {}", agreeing(), 341 * 341),
        _ => unknown(alloc),
    }
}

// Whether the text matches, by every way that each wildcard can go.
fn plain(text: &[u8], pattern: &[u8], any: u8, one: Option<u8>) -> bool {
    if pattern.is_empty() {
        return text.is_empty();
    }
    let after = &pattern[1..];
    if pattern[0] == any && plain(text, after, any, one) {
        return true;
    }
    if text.is_empty() {
        return false;
    }
    if pattern[0] == any {
        return plain(&text[1..], pattern, any, one);
    }
    (Some(pattern[0]) == one || pattern[0] == text[0]) && plain(&text[1..], after, any, one)
}

// One of the 341 words of up to four of these letters, and its length.
fn word(number: usize, letters: [u8; 4]) -> ([u8; 4], usize)
    ensures { result.1 ≤ 4 }
{
    let mut letters_left = number;
    let mut bytes = [0; 4];
    for length in 0..4 {
        if letters_left == 0 {
            return (bytes, length);
        }
        bytes[length] = letters[(letters_left - 1) % 4];
        letters_left = (letters_left - 1) / 4;
    }
    (bytes, 4)
}

// For how many pairs of such words both searches agree with the plain one.
fn agreeing() -> u32 {
    let mut count: u32 = 0;
    for number in 0..341 {
        let (text, text_len) = word(number, *b"a*_%");
        let text = &text[..text_len];
        for pattern_number in 0..341 {
            let (pattern, pattern_len) = word(pattern_number, *b"a*_%");
            if agrees(text, &pattern[..pattern_len]) {
                count = count.saturating_add(1);
            }
        }
    }
    count
}

fn agrees(text: &[u8], pattern: &[u8]) -> bool {
    let by_stars = like_star(text, pattern) == plain(text, pattern, b'*', None);
    by_stars && like_sql(text, pattern) == plain(text, pattern, b'%', Some(b'_'))
}

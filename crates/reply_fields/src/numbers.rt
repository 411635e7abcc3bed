ghost use Rattle.std.specs.Prelude.{◌≡◌, ◌+◌, ◌*◌, ◌<◌, ◌≤◌, IsTrue, length, SomeIff};
ghost use Rattle.std.specs.List.{list_all};
ghost use Rattle.reply_fields.specs.Fronts.{ReadsFrom};
ghost use Rattle.reply_fields.specs.Spelled.{IsNumber, is_no_digit};

use crate::error::ReplyError;

/// Reads a number in decimal and the byte that ends it, which is one of `ends`. The number is from `least` to `most`.
pub fn number(
    text: &[u8],
    at: usize,
    least: u64,
    most: u64,
    ends: &[u8],
) -> Result<((u64, u8), usize), ReplyError>
    requires place { at ≤ length text.now }
    requires least { least ≤ 1 }
    requires most { 1 ≤ most }
    requires some { 0 < length ends.now }
    requires no_digits { IsTrue (list_all is_no_digit ends.now) }
    ensures { ReadsFrom (IsNumber least most ends.now) text.now at result }
{
    let rest = &text[at..];
    let mut value = 0;
    let mut len = 0;
    while len < rest.len() && rest[len].is_ascii_digit() {
        let first = if len == 0 { least } else { 10 };
        match with_digit(value, rest[len] - b'0', first, most) {
            Some(more) => value = more,
            None => return Err(ReplyError::BadReply {
                at: (at + len) as u64,
            }),
        }
        len += 1;
    }
    if len == 0 || len == rest.len() || !ends.contains(&rest[len]) {
        return Err(ReplyError::BadReply {
            at: (at + len) as u64,
        });
    }
    Ok(((value, rest[len]), at + len + 1))
}

/// The number with a digit more, where it is from `least` to `most`.
fn with_digit(value: u64, digit: u8, least: u64, most: u64) -> Option<u64>
    requires { digit < 10 }
    ensures { SomeIff result ((least ≤ value * 10 + digit) × (value * 10 + digit ≤ most)) (value * 10 + digit) }
{
    let more = u128::from(value) * 10 + u128::from(digit);
    if more < u128::from(least) || u128::from(most) < more {
        return None;
    }
    Some(more as u64)
}

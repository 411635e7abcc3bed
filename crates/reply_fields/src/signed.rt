ghost use Rattle.std.specs.Prelude.{◌≡◌, ◌^◌, ◌+◌, ◌-◌, ◌<◌, ◌≤◌, length, negsuc, pos, slice_index};
ghost use Rattle.reply_fields.specs.Fronts.{ReadsFrom};
ghost use Rattle.reply_fields.specs.SignedLines.{IsSignedLine};

use crate::error::ReplyError;
use crate::numbers::number;

/// Reads a number that may be negative and the newline behind it.
pub fn signed(text: &[u8], at: usize) -> Result<(i64, usize), ReplyError>
    requires { at ≤ length text.now }
    ensures { ReadsFrom IsSignedLine text.now at result }
{
    if at < text.len() && text[at] == b'-' {
        return negative(text, at);
    }
    match number(text, at, 0, (1 << 63) - 1, b"\n") {
        Ok(((value, _), next)) => Ok((positive(value), next)),
        Err(error) => Err(error),
    }
}

/// Reads what begins with `-`.
fn negative(text: &[u8], at: usize) -> Result<(i64, usize), ReplyError>
    requires place { at < length text.now }
    requires minus { slice_index text.now at ≡ 0x2D }
    ensures { ReadsFrom IsSignedLine text.now at result }
{
    match number(text, at + 1, 1, 1 << 63, b"\n") {
        Ok(((value, _), next)) => Ok((negated(value), next)),
        Err(error) => Err(error),
    }
}

fn positive(value: u64) -> i64
    requires { value < 2 ^ 63 }
    ensures { result ≡ pos value }
{
    value as i64
}

fn negated(value: u64) -> i64
    requires some { 1 ≤ value }
    requires most { value ≤ 2 ^ 63 }
    ensures { result ≡ negsuc (value - 1) }
{
    (-i128::from(value)) as i64
}

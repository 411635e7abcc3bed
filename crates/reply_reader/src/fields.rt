ghost use Rattle.std.specs.Prelude.{◌≤◌, IsTrue, length};
ghost use Rattle.reply_fields.specs.Fronts.{ReadsFrom};
ghost use Rattle.reply_fields.specs.Spelled.{is_no_digit};
ghost use Rattle.reply_reader.specs.Fields.{IsDigestField, IsField};

use grid_model::Digest;
use reply_fields::ReplyError;
use reply_fields::digests::digest;
use reply_fields::names::one_of;
use reply_fields::numbers::number;
use std::alloc::Global;

/// Reads a number in decimal, which is at most `most`, and the byte behind it.
pub fn number_field(text: &[u8], at: usize, most: u64, end: u8) -> Result<(u64, usize), ReplyError>
    requires place { at ≤ length text.now }
    requires most { 1 ≤ most }
    requires no_digit { IsTrue (is_no_digit end) }
    ensures { ReadsFrom (IsField most end) text.now at result }
{
    match number(text, at, 0, most, &[end]) {
        Ok(((value, _), next)) => Ok((value, next)),
        Err(error) => Err(error),
    }
}

/// Reads a digest as it is printed, and the byte behind it.
pub fn digest_field(
    alloc: Global,
    text: &[u8],
    at: usize,
    end: u8,
) -> Result<(Digest, usize), ReplyError>
    requires { at ≤ length text.now }
    ensures { ReadsFrom (IsDigestField end) text.now at result }
{
    let (digest, next) = match digest(alloc, text, at) {
        Ok(read) => read,
        Err(error) => return Err(error),
    };
    match one_of(text, next, &[&[end]]) {
        Ok((_, last)) => Ok((digest, last)),
        Err(error) => Err(error),
    }
}

ghost use Rattle.std.specs.Prelude.{◌≤◌, length};
ghost use Rattle.reply_fields.specs.Counted.{IsCounted, IsDataPart, bytes_read};
ghost use Rattle.reply_fields.specs.Fronts.{ReadsFrom};

use crate::error::ReplyError;
use crate::numbers::number;

/// How many bytes a data line has at most.
const PART_SIZE: u64 = 65_536;

/// Reads a data line from its count on: where its bytes begin and end. A newline stands behind them.
pub fn data_part(text: &[u8], at: usize) -> Result<(usize, usize), ReplyError>
    requires { at ≤ length text.now }
    ensures { ReadsFrom IsDataPart text.now at (bytes_read text.now result) }
{
    let ((count, _), start) = match number(text, at, 1, PART_SIZE, b"\n") {
        Ok(read) => read,
        Err(error) => return Err(error),
    };
    counted(text, start, count as usize)
}

/// Reads so many bytes and the newline behind them: where the bytes begin and end.
fn counted(text: &[u8], start: usize, count: usize) -> Result<(usize, usize), ReplyError>
    requires { start ≤ length text.now }
    ensures { ReadsFrom (IsCounted count) text.now start (bytes_read text.now result) }
{
    if text.len() - start < count {
        return Err(ReplyError::BadReply {
            at: text.len() as u64,
        });
    }
    let end = start + count;
    if end == text.len() || text[end] != b'\n' {
        return Err(ReplyError::BadReply { at: end as u64 });
    }
    Ok((start, end))
}

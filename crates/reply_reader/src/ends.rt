ghost use Rattle.std.specs.Prelude.{◌≡◌, ◌≤◌, length};
ghost use Rattle.reply_fields.specs.Fronts.{ReadsFrom};
ghost use Rattle.reply_reader.specs.Ends.{IsErrorEnd, end_of_failure};

use crate::failures::{behind_head, failure};
use crate::heads::{NAMES, head_at};
use grid_model::{End, Failure};
use reply_fields::ReplyError;
use reply_fields::names::one_of;
use std::alloc::Global;

/// Reads what stands behind `err`, and a newline.
pub fn error_end(alloc: Global, text: &[u8], at: usize) -> Result<(End, usize), ReplyError>
    requires { at ≤ length text.now }
    ensures { ReadsFrom IsErrorEnd text.now at result }
{
    let (index, next) = match one_of(text, at, &NAMES) {
        Ok(read) => read,
        Err(error) => return Err(error),
    };
    if index == 0 {
        return match failure(alloc, text, next) {
            Ok((failure, last)) => Ok((End::PreFailed(failure), last)),
            Err(error) => Err(error),
        };
    }
    if index == 1 {
        return match failure(alloc, text, next) {
            Ok((failure, last)) => Ok((End::PostFailed(failure), last)),
            Err(error) => Err(error),
        };
    }
    match behind_head(alloc, text, next, &head_at(index - 2)) {
        Ok((failure, last)) => Ok((end_of(failure), last)),
        Err(error) => Err(error),
    }
}

/// The end of the name of a failure that stands alone.
fn end_of(failure: Failure) -> End
    ensures { result ≡ end_of_failure failure }
{
    match failure {
        Failure::Refused(refusal) => End::Refused(refusal),
        Failure::Stopped => End::Stopped,
        _ => End::Failed(failure),
    }
}

ghost use Rattle.std.specs.Prelude.{◌≡◌, ◌++◌, OnOk};
ghost use Rattle.grid_model.specs.Printing.{spaced};
ghost use Rattle.grid_model.specs.Replies.{end_line, end_words};

use crate::parts::{push_next_words, push_number};
use crate::refusals::{push_failure, push_refusal};
use grid_model::{End, Texts};
use std::alloc::AllocError;

/// Adds the last line of a reply.
pub fn push_end_line(text: &mut Vec<u8>, number: u64, end: &End) -> Result<(), AllocError>
    ensures { OnOk result (text.new.items ≡ text.old.items ++ end_line number end.now) }
{
    push_number(text, number)?;
    text.push(b' ')?;
    push_end(text, end)?;
    text.push(b'\n')?;
    Ok(())
}

fn push_end(text: &mut Vec<u8>, end: &End) -> Result<(), AllocError>
    ensures { OnOk result (text.new.items ≡ text.old.items ++ spaced (end_words end.now)) }
{
    match end {
        End::Done(words) => push_done(text, words),
        End::Refused(refusal) => {
            text.extend_from_slice(b"err ")?;
            push_refusal(text, refusal)
        }
        End::PreFailed(failure) => {
            text.extend_from_slice(b"err PreFailed ")?;
            push_failure(text, failure)
        }
        End::PostFailed(failure) => {
            text.extend_from_slice(b"err PostFailed ")?;
            push_failure(text, failure)
        }
        End::Failed(failure) => {
            text.extend_from_slice(b"err ")?;
            push_failure(text, failure)
        }
        End::Stopped => text.extend_from_slice(b"err Stopped"),
    }
}

fn push_done(text: &mut Vec<u8>, words: &Texts) -> Result<(), AllocError>
    ensures { OnOk result (text.new.items ≡ text.old.items ++ spaced (end_words (End.Done words.now))) }
{
    text.extend_from_slice(b"ok")?;
    push_next_words(text, words.as_slice())
}

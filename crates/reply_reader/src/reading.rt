ghost use Rattle.std.specs.Prelude.{◌≡◌, ℕ, [], ◌∷◌, ◌++◌, IfOk, decimal};
ghost use Rattle.grid_model.specs.Places.{IsRefusedAt};
ghost use Rattle.grid_model.specs.ReplySpelling.{SpellsReply};
ghost use Rattle.grid_model.specs.declared.replies.Reply.{Reply as reply_type};
ghost use Rattle.reply_fields.specs.Fronts.{ReadsFrom};
ghost use Rattle.reply_reader.specs.Lines.{IsReplyTo};

use crate::lines::{Line, Phase, next_line, phase_behind};
use crate::parts::Parts;
use grid_model::Reply;
use reply_fields::ReplyError;
use reply_fields::numbers::number;
use std::alloc::Global;

/// Reads a whole reply, and the number of the request that it answers. Data lines that a mark follows are those of a get
/// and are read over; the bytes of the other ones, joined, are what is shown. Fails with `BadReply` where the text is no
/// reply, at the length of its longest first part that begins one, and for want of memory.
pub fn read_reply(alloc: Global, text: &[u8]) -> Result<(u64, Reply), ReplyError>
    ensures spelled { IfOk result (SpellsReply text.now) }
    ensures only { IfOk result (λ read. (other : ℕ × reply_type) → SpellsReply text.now other → other ≡ read) }
    ensures refused { (place : ℕ) → result ≡ Err (ReplyError.BadReply place) → IsRefusedAt SpellsReply text.now place }
{
    let ((number, _), start) = match number(text, 0, 0, u64::MAX, b" ") {
        Ok(read) => read,
        Err(error) => return Err(error),
    };
    let (reply, end) = match reply_to(alloc, text, number, &text[..start]) {
        Ok(read) => read,
        Err(error) => return Err(error),
    };
    if end < text.len() {
        return Err(ReplyError::BadReply { at: end as u64 });
    }
    Ok((number, reply))
}

/// Reads a reply whose lines begin with `first`, which is the number of the request and a space.
fn reply_to(
    alloc: Global,
    text: &[u8],
    number: u64,
    first: &[u8],
) -> Result<(Reply, usize), ReplyError>
    requires { first.now ≡ decimal number ++ 0x20 ∷ [] }
    ensures { ReadsFrom (IsReplyTo number) text.now 0 result }
{
    let mut parts = Parts::new(alloc);
    let mut phase = Phase::Data;
    let mut place = 0;
    'lines: loop {
        let (line, next) = match next_line(alloc, text, place, first, phase) {
            Ok(read) => read,
            Err(error) => return Err(error),
        };
        match line {
            Line::End(end) => return Ok((parts.into_reply(end), next)),
            other => {
                phase = phase_behind(&other);
                place = next;
                parts.add(other)?;
            }
        }
    }
}

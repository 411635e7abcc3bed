ghost use Rattle.std.specs.Prelude.{◌≡◌, ◌++◌, OnOk, IfOk, flat_map};
ghost use Rattle.grid_model.specs.Printing.{spaced};
ghost use Rattle.grid_model.specs.Replies.{bad_words, mark_line, mark_words};
ghost use Rattle.cmd_reply.specs.Spaced.{after_space};

use crate::parts::{push_counted, push_next_digest, push_next_number, push_number};
use grid_model::{BadReplica, Mark, Text};
use std::alloc::{AllocError, Global};

/// The line of a mark in the reply to the request of this number. Fails for want of memory alone.
pub fn mark_line(alloc: Global, number: u64, mark: &Mark) -> Result<Text, AllocError>
    ensures { IfOk result (λ text. text ≡ mark_line number mark.now) }
{
    let mut text = Vec::new(alloc);
    push_number(&mut text, number)?;
    text.extend_from_slice(b" mark ")?;
    push_mark(&mut text, mark)?;
    text.push(b'\n')?;
    Ok(Text::from_vec(text))
}

fn push_mark(text: &mut Vec<u8>, mark: &Mark) -> Result<(), AllocError>
    ensures { OnOk result (text.new.items ≡ text.old.items ++ spaced (mark_words mark.now)) }
{
    match mark {
        Mark::Ran { word, now, bad } => {
            push_counted(text, b"ran", &[*word, *now])?;
            push_bad_replicas(text, bad.as_slice())
        }
        Mark::Fault { slot, parts } => push_counted(text, b"fault", &[u64::from(*slot), *parts]),
        Mark::Bad {
            slot,
            len,
            found,
            parts,
        } => {
            push_counted(text, b"bad", &[u64::from(*slot), *len])?;
            push_next_digest(text, found)?;
            push_next_number(text, *parts)
        }
        Mark::Stop => text.extend_from_slice(b"stop"),
    }
}

fn push_bad_replicas(text: &mut Vec<u8>, replicas: &[BadReplica]) -> Result<(), AllocError>
    ensures { OnOk result (text.new.items ≡ text.old.items ++ flat_map after_space (flat_map bad_words replicas.now)) }
{
    for replica in replicas {
        push_bad_replica(text, replica)?;
    }
    Ok(())
}

fn push_bad_replica(text: &mut Vec<u8>, replica: &BadReplica) -> Result<(), AllocError>
    ensures { OnOk result (text.new.items ≡ text.old.items ++ flat_map after_space (bad_words replica.now)) }
{
    push_counted(text, b" bad", &[u64::from(replica.number), replica.len])?;
    push_next_digest(text, &replica.found)
}

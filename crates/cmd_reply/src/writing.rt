ghost use Rattle.std.specs.Prelude.{◌≡◌, ◌++◌, OnOk, IfOk, IsTrue, flat_map};
ghost use Rattle.grid_model.specs.Replies.{passed_line, rest_lines, row_line};
ghost use Rattle.grid_model.specs.Writable.{is_writable};

use crate::data::push_data_lines;
use crate::ends::push_end_line;
use crate::parts::{push_next_word, push_next_words, push_number};
use grid_model::{Passed, Reply, Text, Texts};
use std::alloc::{AllocError, Global};

/// All lines of the reply to the request of this number that follow its marks, with those of what is shown first. No
/// text of the reply but what is shown has a byte below 0x20 or 0x7F, and where a called rule failed the failure is
/// neither a refusal nor a stop. Fails for want of memory alone.
pub fn rest(alloc: Global, number: u64, reply: &Reply) -> Result<Text, AllocError>
    requires { IsTrue (is_writable reply.now) }
    ensures { IfOk result (λ text. text ≡ rest_lines number reply.now) }
{
    let mut text = Vec::new(alloc);
    push_data_lines(&mut text, number, reply.shown.as_slice())?;
    push_passed_lines(&mut text, number, reply.passed.as_slice())?;
    push_rows(&mut text, number, reply.rows.as_slice())?;
    push_end_line(&mut text, number, &reply.end)?;
    Ok(Text::from_vec(text))
}

/// Adds a line for each recovery that was refused.
pub fn push_passed_lines(
    text: &mut Vec<u8>,
    number: u64,
    passed: &[Passed],
) -> Result<(), AllocError>
    ensures { OnOk result (text.new.items ≡ text.old.items ++ flat_map (passed_line number) passed.now) }
{
    for recovery in passed {
        push_passed_line(text, number, recovery)?;
    }
    Ok(())
}

fn push_passed_line(text: &mut Vec<u8>, number: u64, recovery: &Passed) -> Result<(), AllocError>
    ensures { OnOk result (text.new.items ≡ text.old.items ++ passed_line number recovery.now) }
{
    push_number(text, number)?;
    text.extend_from_slice(b" passed")?;
    push_next_word(text, &recovery.call.name)?;
    push_next_words(text, recovery.call.args.as_slice())?;
    push_next_word(text, &recovery.failure)?;
    text.push(b'\n')?;
    Ok(())
}

fn push_rows(text: &mut Vec<u8>, number: u64, rows: &[Texts]) -> Result<(), AllocError>
    ensures { OnOk result (text.new.items ≡ text.old.items ++ flat_map (row_line number) rows.now) }
{
    for row in rows {
        push_row(text, number, row)?;
    }
    Ok(())
}

fn push_row(text: &mut Vec<u8>, number: u64, row: &Texts) -> Result<(), AllocError>
    ensures { OnOk result (text.new.items ≡ text.old.items ++ row_line number row.now) }
{
    push_number(text, number)?;
    text.extend_from_slice(b" row")?;
    push_next_words(text, row.as_slice())?;
    text.push(b'\n')?;
    Ok(())
}

ghost use Rattle.std.specs.Prelude.{◌≡◌, ◌+◌, ◌^◌, ◌<◌, ◌≤◌, [], IfOk, IsTrue};
ghost use Rattle.grid_model.specs.Replies.{end_line};
ghost use Rattle.std.specs.List.{list_all};
ghost use Rattle.grid_model.specs.Writable.{is_word, is_writable_end};
ghost use Rattle.cmd_run.specs.Answers.{IsTextPut, PutEnds, said_lines, shown_lines, unmarked};

use crate::Ending;
use cmd_reply::rest;
use grid_model::{End, Marks, Passeds, Reply, Rows, Text, Texts};
use grid_outside::{Moments, Sink, SinkFault};
use std::alloc::{AllocError, Global};

/// Puts a text on the sink. `Sink` is the only error, and comes only where the sink failed.
pub(crate) fn put_text<K: Sink>(
    moments: &mut Moments,
    sink: &mut K,
    text: &[u8],
) -> Result<(), Ending>
    requires sink_last { (K.sink sink.old).last ≤ moments.old }
    requires room { moments.old + 1 < 2 ^ 128 }
    ensures put { IsTextPut text.now moments.old (K.sink sink.old) (K.sink sink.new) }
    ensures ends { PutEnds text.now (K.sink sink.old) (K.sink sink.new) result }
    ensures drawn { moments.new ≡ moments.old + 1 }
    ensures last { (K.sink sink.new).last ≤ moments.new }
{
    match sink.put(moments.next(), text) {
        Ok(()) => Ok(()),
        Err(SinkFault) => Err(Ending::Sink),
    }
}

/// The last line of the reply to the request of this number. Fails for want of memory alone.
pub(crate) fn end_text(alloc: Global, number: u64, end: End) -> Result<Text, AllocError>
    requires { IsTrue (is_writable_end end) }
    ensures { IfOk result (λ text. text ≡ end_line number end) }
{
    let shown = Text::from_vec(Vec::new(alloc));
    let rows = Rows::from_vec(Vec::new(alloc));
    rest(alloc, number, &unmarked(alloc, shown, rows, end))
}

/// Rows, and ok behind them. Fails for want of memory alone.
pub(crate) fn rows_text(alloc: Global, number: u64, rows: Rows) -> Result<Text, AllocError>
    requires { IsTrue (list_all (list_all is_word) rows) }
    ensures { IfOk result (λ text. text ≡ shown_lines number rows (End.Done [])) }
{
    let shown = Text::from_vec(Vec::new(alloc));
    rest(alloc, number, &unmarked(alloc, shown, rows, well(alloc)))
}

/// A text as data lines, and ok behind them. Fails for want of memory alone.
pub(crate) fn text_shown(alloc: Global, number: u64, shown: Text) -> Result<Text, AllocError>
    ensures { IfOk result (λ text. text ≡ said_lines number shown [] (End.Done [])) }
{
    let rows = Rows::from_vec(Vec::new(alloc));
    rest(alloc, number, &unmarked(alloc, shown, rows, well(alloc)))
}

/// Ok, and nothing to say.
pub(crate) fn well(alloc: Global) -> End
    ensures is { result ≡ End.Done [] }
    ensures writable { IsTrue (is_writable_end result) }
{
    End::Done(Texts::from_vec(Vec::new(alloc)))
}

// A reply without marks that has nothing but a text, rows and its end.
fn unmarked(alloc: Global, shown: Text, rows: Rows, end: End) -> Reply
    ensures { result ≡ unmarked shown rows end }
{
    Reply {
        marks: Marks::from_vec(Vec::new(alloc)),
        shown,
        passed: Passeds::from_vec(Vec::new(alloc)),
        rows,
        end,
    }
}

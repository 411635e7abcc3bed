//! The end of a command whose calls were made: one last commit, and the rest of its reply.
ghost use Rattle.std.specs.Prelude.{◌≡◌, ◌↔◌, ◌+◌, ◌++◌, ◌^◌, ◌<◌, ◌≤◌, [], IfOk, IsErrOf, IsTrue, OnErr, OnOk, is_some};
ghost use Rattle.std.specs.List.{list_all};
ghost use Rattle.grid_outside.specs.Device.{Between, IsSettled};
ghost use Rattle.grid_outside.specs.Fault.{Rose};
ghost use Rattle.grid_outside.specs.Sink.{AddsPart};
ghost use Rattle.grid_model.specs.Replies.{rest_lines};
ghost use Rattle.grid_model.specs.Rows.{Cat};
ghost use Rattle.grid_model.specs.Words.{is_word_byte};
ghost use Rattle.grid_model.specs.Writable.{is_word, is_writable, is_writable_end, is_writable_passed};
ghost use Rattle.grid_journal.specs.Journal.{can_be_kept};
ghost use Rattle.grid_deed.specs.Held.{IsHeld};
ghost use Rattle.grid_deed.specs.Safe.{KeepBothWhole};
ghost use Rattle.run_laws.specs.Passes.{AreReady, CallsPass};
ghost use Rattle.service_run.specs.declared.ending.Ending.{Ending};
ghost use Rattle.rule_run.specs.Finishing.{Finishes, HasNothing, end_deltas, rest_text};

use cmd_reply::rest;
use grid_journal::Store;
use grid_model::{Delta, Deltas, End, Marks, Numbers, Passed, Passeds, Reply, Rows, Text};
use grid_outside::{Ambient, Disk, Moments, Outside, Plugin, Sink, SinkFault};
use grid_tables::Tables;
use service_run::{Command, Ending, note};
use std::alloc::{AllocError, Global};

/// Ends a command: one commit keeps what is staged, has the command's number and clears what is pending, and then lines of marks that were
/// not told and the rest of the reply are told in one put. Where nothing is staged or pending and the command has no mark, only the sink is
/// called.
///
/// `Disk` and `Sink` come only where that device failed, and `Worn` where the room behind the log has run out; `Memory` may come at any
/// time, and comes where a text of a recovery that was passed over has bytes that are not shown, which none that is read has. Draws at most
/// 5 moments.
pub fn finish<D: Disk, K: Sink, A: Ambient, P: Plugin>(
    alloc: Global,
    store: &mut Store,
    outside: &mut Outside<D, A, P>,
    sink: &mut K,
    command: Command,
    rows: Rows,
    end: End,
) -> Result<(), Ending>
    requires held { (kept : Cat) × IsHeld kept (D.disk outside.old.main) store.old }
    requires writable { IsTrue (is_writable_end end) }
    requires rows { IsTrue (list_all (list_all is_word) rows) }
    requires ready { AreReady D.disk P.plugin K.sink 5 (record { outside = outside.old; sink = sink.old }) }
    ensures finishes { (kept : Cat) → IsHeld kept (D.disk outside.old.main) store.old →
        Finishes (D.disk outside.old.main) (D.disk outside.new.main) (K.sink sink.old) (K.sink sink.new) kept outside.old.moments
        command.number store.old command (command.untold ++ rest_text command.number command.passed rows end) result store.new }
    ensures whole { (kept : Cat) → IsHeld kept (D.disk outside.old.main) store.old →
        KeepBothWhole P.plugin outside.old.moments kept store.old.cat (D.disk outside.old.main) (D.disk outside.new.main)
        outside.old.stores.items outside.new.stores.items }
    ensures idle { HasNothing store.old command → outside.new.main ≡ outside.old.main }
    ensures passes { CallsPass D.disk P.plugin K.sink (IsErrOf result Ending.Disk) (IsErrOf result Ending.Sink)
        (record { outside = outside.old; sink = sink.old }) (record { outside = outside.new; sink = sink.new }) }
    ensures stores { outside.new.stores ≡ outside.old.stores }
    ensures ambient { outside.new.ambient ≡ outside.old.ambient }
    ensures drawn { outside.new.moments ≤ outside.old.moments + 5 }
{
    let number = command.number;
    let nothing = has_nothing(store, &command);
    let mut command = match with_rest(alloc, command, rows, end) {
        Ok(command) => command,
        Err(AllocError) => return Err(Ending::Memory),
    };
    if nothing {
        match tell(&mut outside.moments, sink, command.untold.as_slice()) {
            Ok(()) => {
                drop(command);
                return Ok(());
            }
            Err(SinkFault) => {
                drop(command);
                return Err(Ending::Sink);
            }
        }
    }
    let deltas = match last_deltas(alloc, store.tables(), number) {
        Ok(deltas) => deltas,
        Err(AllocError) => {
            drop(command);
            return Err(Ending::Memory);
        }
    };
    let noted = note(alloc, store, outside, sink, &mut command, deltas);
    drop(command);
    noted
}

// Whether nothing is to be kept of the command.
fn has_nothing(store: &Store, command: &Command) -> bool
    ensures { IsTrue result ↔ HasNothing store.now command.now }
{
    store.staged().as_slice().is_empty()
        && !has_pending(store.tables())
        && command.marks.as_slice().is_empty()
}

// Whether a command is pending.
fn has_pending(tables: &Tables) -> bool
    ensures { result ≡ is_some tables.now.pending }
{
    tables.pending().is_some()
}

// The changes that end the command of this number. Fails for want of memory alone.
fn last_deltas(alloc: Global, tables: &Tables, number: u64) -> Result<Deltas, AllocError>
    ensures is { IfOk result (λ deltas. deltas ≡ end_deltas (is_some tables.now.pending) (record tables.now.numbers { last = number })) }
    ensures spelled { IfOk result (λ deltas. IsTrue (list_all can_be_kept deltas)) }
{
    let numbers = tables.numbers();
    let last = Numbers {
        next_vault: numbers.next_vault,
        run: numbers.run,
        last: number,
    };
    end_deltas(alloc, has_pending(tables), last)
}

// The changes that end a command, where one is pending or not, with these numbers behind them. Fails for want of memory alone.
fn end_deltas(alloc: Global, is_pending: bool, numbers: Numbers) -> Result<Deltas, AllocError>
    ensures is { IfOk result (λ deltas. deltas ≡ end_deltas is_pending numbers) }
    ensures spelled { IfOk result (λ deltas. IsTrue (list_all can_be_kept deltas)) }
{
    let mut deltas = Vec::new(alloc);
    if is_pending {
        deltas.push(Delta::NoPending)?;
    }
    deltas.push(Delta::Numbers(numbers))?;
    Ok(Deltas::from_vec(deltas))
}

// The command with the rest of its reply behind what is still to be told. Fails for want of memory, and where a text of a recovery that was
// passed over is no word.
fn with_rest(alloc: Global, command: Command, rows: Rows, end: End) -> Result<Command, AllocError>
    requires end { IsTrue (is_writable_end end) }
    requires rows { IsTrue (list_all (list_all is_word) rows) }
    ensures { IfOk result (λ told. told ≡ record command {
      passed = [];
      untold = command.untold ++ rest_text command.number command.passed rows end;
    }) }
{
    if !are_words(command.passed.as_slice()) {
        drop(command);
        drop(rows);
        drop(end);
        return Err(AllocError);
    }
    let Command {
        run,
        number,
        user,
        line,
        marks,
        passed,
        untold,
    } = command;
    let reply = reply_of(alloc, passed, rows, end);
    match with_reply(alloc, untold, number, &reply) {
        Ok(untold) => {
            drop(reply);
            Ok(Command {
                run,
                number,
                user,
                line,
                marks,
                passed: Passeds::from_vec(Vec::new(alloc)),
                untold,
            })
        }
        Err(AllocError) => {
            drop(reply);
            drop(line);
            drop(marks);
            Err(AllocError)
        }
    }
}

// The text with the rest of the reply of the command of this number behind it. Fails for want of memory alone.
fn with_reply(alloc: Global, untold: Text, number: u64, reply: &Reply) -> Result<Text, AllocError>
    requires { IsTrue (is_writable reply.now) }
    ensures { IfOk result (λ told. told ≡ untold ++ rest_lines number reply.now) }
{
    let back = match rest(alloc, number, reply) {
        Ok(back) => back,
        Err(AllocError) => {
            drop(untold);
            return Err(AllocError);
        }
    };
    let mut told = untold.into_vec();
    told.extend_from_slice(back.as_slice())?;
    Ok(Text::from_vec(told))
}

// A reply that has nothing but recoveries that were passed over, rows and its end.
fn reply_of(alloc: Global, passed: Passeds, rows: Rows, end: End) -> Reply
    ensures { result ≡ record { marks = []; shown = []; passed = passed; rows = rows; end = end } }
{
    Reply {
        marks: Marks::from_vec(Vec::new(alloc)),
        shown: Text::from_vec(Vec::new(alloc)),
        passed,
        rows,
        end,
    }
}

// Whether all texts of these recoveries are words.
fn are_words(passed: &[Passed]) -> bool
    ensures { result ≡ list_all is_writable_passed passed.now }
{
    passed.iter().all(|recovery| has_words(recovery))
}

fn has_words(recovery: &Passed) -> bool
    ensures { result ≡ is_writable_passed recovery.now }
{
    is_word(&recovery.call.name)
        && have_words(recovery.call.args.as_slice())
        && is_word(&recovery.failure)
}

fn have_words(texts: &[Text]) -> bool
    ensures { result ≡ list_all is_word texts.now }
{
    texts.iter().all(|text| is_word(text))
}

fn is_word(text: &Text) -> bool
    ensures { result ≡ is_word text.now }
{
    text.as_slice().iter().all(|byte| is_word_byte(*byte))
}

fn is_word_byte(byte: u8) -> bool
    ensures { result ≡ is_word_byte byte }
{
    byte >= 0x20 && byte != 0x7F
}

// Puts a text on the sink. Fails only where the sink failed.
fn tell<K: Sink>(moments: &mut Moments, sink: &mut K, text: &[u8]) -> Result<(), SinkFault>
    requires sink_last { (K.sink sink.old).last ≤ moments.old }
    requires room { moments.old + 1 < 2 ^ 128 }
    ensures told { Between moments.old moments.new (AddsPart text.now) (K.sink sink.old) (K.sink sink.new) }
    ensures all { OnOk result (IsTrue (K.sink sink.old).tells → (K.sink sink.new).holds ≡ (K.sink sink.old).holds ++ text.now) }
    ensures settled { IsTrue (K.sink sink.old).tells → IsSettled (K.sink sink.old) → IsSettled (K.sink sink.new) }
    ensures cause { OnErr result (Rose (K.sink sink.old).faults (K.sink sink.new).faults) }
    ensures drawn_from { moments.old ≤ moments.new }
    ensures drawn { moments.new ≤ moments.old + 1 }
{
    sink.put(moments.next(), text)
}

//! A get that is noted before its file is sent.
ghost use Rattle.std.specs.Prelude.{◌≡◌, ℕ, ◌+◌, ◌^◌, ◌<◌, ◌≤◌, [], IfOk, IsErrOf, IsTrue, List, codes};
ghost use Rattle.std.specs.Option.{option_copied, option_map_or};
ghost use Rattle.grid_outside.specs.Source.{SourceState};
ghost use Rattle.grid_model.specs.Applying.{is_user};
ghost use Rattle.grid_model.specs.Deltas.{all_fit, call as call_parts, text as text_part};
ghost use Rattle.grid_model.specs.Meanings.{waits};
ghost use Rattle.grid_model.specs.Operations.Table.{get as get_of};
ghost use Rattle.grid_model.specs.RowGrids.{user_name};
ghost use Rattle.grid_model.specs.Rows.{Cat};
ghost use Rattle.grid_model.specs.Runs.{Request, does};
ghost use Rattle.grid_model.specs.Sessions.{State};
ghost use Rattle.grid_model.specs.Working.{running};
ghost use Rattle.grid_model.specs.Writable.{is_word};
ghost use Rattle.grid_model.specs.declared.marks.Mark.{Mark};
ghost use Rattle.grid_deed.specs.Held.{IsHeld};
ghost use Rattle.deed_run.specs.Puts.{does_op};
ghost use Rattle.row_run.specs.Verbs.{IsWordIfAny};
ghost use Rattle.run_laws.specs.Passes.{AreReady, CallsPass, Seen};
ghost use Rattle.service_run.specs.Commands.{WaitsAt, place_by, waiting_at};
ghost use Rattle.service_run.specs.Steps.{lines_of};
ghost use Rattle.service_run.specs.declared.command.Command.{Command};
ghost use Rattle.service_run.specs.declared.ending.Ending.{Ending};
ghost use Rattle.call_laws.specs.Amid.{IsAmid};
ghost use Rattle.call_laws.specs.OneCall.{AreKeepable, IsKeepable};
ghost use Rattle.rule_run.specs.Asked.{IsAsked, asked_setting};
ghost use Rattle.work_run.specs.Fetched.{NoteEnds};

use crate::working::are_short;
use deed_run::note_call;
use grid_journal::Store;
use grid_model::{Call, Path, Text, Texts};
use grid_outside::{Ambient, Disk, Outside, Plugin, Sink, Wear};
use plan_list::path_text;
use service_run::{Command, Ending};
use std::alloc::{AllocError, Global};

/// Notes a get on main before its file is sent, where lines of the command are still to be told, and tells them. Draws at most 5 moments.
pub(crate) fn note_get<D: Disk, K: Sink, A: Ambient, P: Plugin>(
    alloc: Global,
    store: &mut Store,
    outside: &mut Outside<D, A, P>,
    sink: &mut K,
    command: &mut Command,
    path: &Path,
    asked: Option<&Text>,
) -> Result<(), Ending>
    requires held { (kept : Cat) × IsHeld kept (D.disk outside.old.main) store.old }
    requires user { IsTrue (is_user store.old.cat command.old.user) }
    requires keepable { IsKeepable command.old × AreKeepable command.old [] }
    requires asked { IsWordIfAny (option_copied asked) }
    requires ready { AreReady D.disk P.plugin K.sink 5 (record { outside = outside.old; sink = sink.old }) }
    ensures notes { (source : SourceState) (at : State) (request : Request) (before : Cat) (x : Command) (from : Seen D A P K) (taken : List Mark)
        → IsAsked at request before x →
        IsAmid D.disk A.ambient P.plugin K.sink source (asked_setting at request before x (lines_of x.number)) from
        (record { outside = outside.old; sink = sink.old }) command.old store.old taken →
        WaitsAt (does_op (user_name store.old.cat command.old.user) (get_of path.now (option_copied asked.entry))) (place_by store.old.cat command.old)
        (running (get_of path.now (option_copied asked.entry))) →
        does at request taken ≡ waits (waiting_at (place_by store.old.cat command.old) (running (get_of path.now (option_copied asked.entry)))) →
        NoteEnds D.disk A.ambient P.plugin K.sink source at request before x from (record { outside = outside.new; sink = sink.new }) taken
        store.new command.new result }
    ensures held { IfOk result (λ done. (kept : Cat) × IsHeld kept (D.disk outside.new.main) store.new) }
    // Of the rows the pending command alone may be another, and of the command what is still to be told: nothing is.
    ensures rows { IfOk result (λ done. store.new.cat ≡ record store.old.cat { pending = store.new.cat.pending }) }
    ensures command { IfOk result (λ done. command.new ≡ record command.old { untold = [] }) }
    ensures vaults { (place : ℕ) → IsErrOf result (Ending.Worn Wear.Vaults place) → ⊥ }
    ensures passes { CallsPass D.disk P.plugin K.sink (IsErrOf result Ending.Disk) (IsErrOf result Ending.Sink)
        (record { outside = outside.old; sink = sink.old }) (record { outside = outside.new; sink = sink.new }) }
    ensures stores { outside.new.stores ≡ outside.old.stores }
    ensures drawn { outside.new.moments ≤ outside.old.moments + 5 }
{
    if command.untold.as_slice().is_empty() {
        return Ok(());
    }
    are_short(command);
    let call = match get_call(alloc, path, asked) {
        Ok(call) => call,
        Err(AllocError) => return Err(Ending::Memory),
    };
    note_call(alloc, store, outside, sink, command, &call)
}

// The call of a get. Fails for want of memory alone.
fn get_call(alloc: Global, path: &Path, asked: Option<&Text>) -> Result<Call, AllocError>
    requires asked { IsWordIfAny (option_copied asked) }
    ensures is { IfOk result (λ call. call ≡ running (get_of path.now (option_copied asked.entry))) }
    ensures fits { IfOk result (λ call. IsTrue (all_fit (call_parts call))) }
{
    let name = Text::copy_of(alloc, b"get")?;
    let path = path_text(alloc, path)?;
    let resource = asked_text(alloc, asked)?;
    word_is_text(name.as_slice());
    word_is_text(path.as_slice());
    word_is_text(resource.as_slice());
    let args = vec![in alloc; path, resource]?;
    Ok(Call {
        name,
        args: Texts::from_vec(args),
    })
}

// The resource that is asked for, as it is noted. Fails for want of memory alone.
fn asked_text(alloc: Global, asked: Option<&Text>) -> Result<Text, AllocError>
    requires asked { IsWordIfAny (option_copied asked) }
    ensures is { IfOk result (λ text. text ≡ option_map_or (λ r. r) (option_copied asked.entry) (codes "-")) }
    ensures word { IfOk result (λ text. IsTrue (is_word text)) }
{
    match asked {
        Some(resource) => Text::copy_of(alloc, resource.as_slice()),
        None => Text::copy_of(alloc, b"-"),
    }
}

// A word may stand in the catalogue. It does nothing.
fn word_is_text(word: &[u8])
    ensures { IsTrue (is_word word.now) → IsTrue (text_part word.now).fits }
{
    is_size(word.len());
}

// A number of bytes in memory is below 2^64. It does nothing.
fn is_size(len: usize)
    ensures { len < 2 ^ 64 }
{}

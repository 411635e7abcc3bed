//! The end of a request whose calls were made.
ghost use Rattle.std.specs.Prelude.{◌≡◌, ℕ, ◌+◌, ◌≤◌, Err, IsErrOf, IsTrue, List, Option};
ghost use Rattle.std.specs.List.{list_all};
ghost use Rattle.grid_outside.specs.Source.{SourceState};
ghost use Rattle.grid_model.specs.Names.{Text as TextOf};
ghost use Rattle.grid_model.specs.Rows.{Cat};
ghost use Rattle.grid_model.specs.Runs.{Request};
ghost use Rattle.grid_model.specs.Sessions.{State};
ghost use Rattle.grid_model.specs.Working.{Sent};
ghost use Rattle.grid_model.specs.Writable.{is_word, is_writable_end};
ghost use Rattle.grid_model.specs.declared.marks.Mark.{Mark};
ghost use Rattle.grid_deed.specs.Held.{IsHeld};
ghost use Rattle.grid_headline.specs.Files.{IsKnown};
ghost use Rattle.point_laws.specs.Works.{IsAskedSo, Work};
ghost use Rattle.run_laws.specs.Around.{around};
ghost use Rattle.run_laws.specs.Passes.{AreReady, CallsPass, Seen};
ghost use Rattle.service_run.specs.Commands.{place_by};
ghost use Rattle.service_run.specs.declared.command.Command.{Command};
ghost use Rattle.service_run.specs.declared.ending.Ending.{Ending};
ghost use Rattle.call_laws.specs.Amid.{IsAmid};
ghost use Rattle.rule_run.specs.Asked.{IsAsked, asked_setting};
ghost use Rattle.rule_run.specs.Executing.{Executes};
ghost use Rattle.rule_run.specs.Finishing.{HasNothing};
ghost use Rattle.work_run.specs.Behind.{HasNumberIfDone, IsEnded, LeavesNothing};
ghost use Rattle.work_run.specs.Telling.{TellsSo};
ghost use Rattle.work_run.specs.Works.{DoesSo};

use grid_journal::Store;
use grid_model::{End, Rows};
use grid_outside::{Ambient, Disk, Outside, Plugin, Sink, Wear};
use point_laws::works_end_by_rows;
use rule_run::finish;
use service_run::{Command, Ending};
use std::alloc::Global;

/// Ends a request whose calls were made: one last commit and the rest of its reply, which shows these rows.
pub(crate) fn conclude<D: Disk, K: Sink, A: Ambient, P: Plugin>(
    alloc: Global,
    store: &mut Store,
    outside: &mut Outside<D, A, P>,
    sink: &mut K,
    command: Command,
    rows: Rows,
    end: End,
) -> Result<(), Ending>
    requires held { (kept : Cat) × IsHeld kept (D.disk outside.old.main) store.old }
    requires writable { IsTrue (is_writable_end end) }
    requires rows { IsTrue (list_all (list_all is_word) rows) }
    requires ready { AreReady D.disk P.plugin K.sink 5 (record { outside = outside.old; sink = sink.old }) }
    ensures executes { (source : SourceState) (at : State) (request : Request) (before : Cat) (x : Command) (from : Seen D A P K) (taken : List Mark)
        (user : TextOf) (w : Work) (text_of : List Mark → TextOf) (sent : Option Sent) → IsAsked at request before x → DoesSo at request user w → IsAskedSo w →
        IsAmid D.disk A.ambient P.plugin K.sink source (asked_setting at request before x text_of) from
        (record { outside = outside.old; sink = sink.old }) command store.old taken →
        TellsSo (IsKnown (around D.disk A.ambient P.plugin from.outside (K.sink from.sink) source) before) x.number text_of sent taken →
        IsEnded at request taken (place_by store.old.cat command) rows sent end →
        LeavesNothing at request before store.old command (D.disk from.outside.main) (D.disk outside.old.main) → HasNumberIfDone request before end →
        Executes D.disk A.ambient P.plugin K.sink source at request before x from (record { outside = outside.new; sink = sink.new }) result store.new }
    ensures vaults { (place : ℕ) → IsErrOf result (Ending.Worn Wear.Vaults place) → ⊥ }
    ensures passes { CallsPass D.disk P.plugin K.sink (IsErrOf result Ending.Disk) (IsErrOf result Ending.Sink)
        (record { outside = outside.old; sink = sink.old }) (record { outside = outside.new; sink = sink.new }) }
    ensures idle { HasNothing store.old command → outside.new.main ≡ outside.old.main }
    ensures stores { outside.new.stores ≡ outside.old.stores }
    ensures drawn { outside.new.moments ≤ outside.old.moments + 5 }
{
    works_end_by_rows();
    finish(alloc, store, outside, sink, command, rows, end)
}

ghost use Rattle.std.specs.Prelude.{◌≡◌, ◌+◌, ◌≤◌, IsTrue, IsErrOf};
ghost use Rattle.grid_outside.specs.Source.{SourceState};
ghost use Rattle.grid_model.specs.Runs.{Request};
ghost use Rattle.std.specs.List.{list_all};
ghost use Rattle.grid_model.specs.Working.{well};
ghost use Rattle.grid_model.specs.Writable.{is_word, is_writable_end};
ghost use Rattle.grid_deed.specs.Safe.{KeepWhole};
ghost use Rattle.run_laws.specs.Around.{around};
ghost use Rattle.run_laws.specs.Passes.{AreReady, CallsPass};

use crate::answers::{end_text, put_text, rows_text};
use crate::{Ending, Server};
use grid_model::{End, Rows};
use grid_outside::{Ambient, Disk, Outside, Plugin, Sink};
use std::alloc::Global;

impl Server {
    ghost use Rattle.cmd_run.specs.declared.server.Server.{Server};
    ghost use Rattle.cmd_run.specs.Fits.{state_of, FitsMain};
    ghost use Rattle.cmd_run.specs.Obeys.{LacksNothing, Obeys, Remembers, SaysOnly, SaysRows};

    /// Answers with an end alone; rows are as they were.
    pub(crate) fn say<D: Disk, K: Sink, A: Ambient, P: Plugin>(
        &self,
        alloc: Global,
        outside: &mut Outside<D, A, P>,
        sink: &mut K,
        number: u64,
        end: End,
    ) -> Result<(), Ending>
        requires fits { FitsMain (D.disk outside.old.main) self.now }
        requires writable { IsTrue (is_writable_end end) }
        requires ready { AreReady D.disk P.plugin K.sink 1 (record { outside = outside.old; sink = sink.old }) }
        ensures obeys { (source : SourceState) (request : Request) (before : Server) → before.store ≡ self.now.store →
            SaysOnly (state_of before) request end (state_of self.now) →
            Obeys (around D.disk A.ambient P.plugin outside.old (K.sink sink.old) source)
            (around D.disk A.ambient P.plugin outside.new (K.sink sink.new) source)
            before number request result self.now }
        ensures passes { CallsPass D.disk P.plugin K.sink (IsErrOf result Ending.Disk) (IsErrOf result Ending.Sink)
            (record { outside = outside.old; sink = sink.old }) (record { outside = outside.new; sink = sink.new }) }
        ensures worn { LacksNothing result }
        ensures remembers { Remembers self.now.store.cat outside.old.moments (D.disk outside.old.main) (D.disk outside.new.main) }
        ensures whole { KeepWhole P.plugin outside.old.moments self.now.store.cat
            (D.disk outside.old.main) (D.disk outside.new.main) outside.old.stores.items outside.new.stores.items }
        ensures rows { outside.new.main ≡ outside.old.main }
        ensures stores { outside.new.stores ≡ outside.old.stores }
        ensures no_disk { (IsErrOf result Ending.Disk) → ⊥ }
        ensures drawn { outside.new.moments ≤ outside.old.moments + 1 }
    {
        let Ok(text) = end_text(alloc, number, end) else {
            return Err(Ending::Memory);
        };
        put_text(&mut outside.moments, sink, text.as_slice())
    }

    /// Answers with rows and ok; the catalogue is as it was.
    pub(crate) fn show<D: Disk, K: Sink, A: Ambient, P: Plugin>(
        &self,
        alloc: Global,
        outside: &mut Outside<D, A, P>,
        sink: &mut K,
        number: u64,
        rows: Rows,
    ) -> Result<(), Ending>
        requires fits { FitsMain (D.disk outside.old.main) self.now }
        requires words { IsTrue (list_all (list_all is_word) rows) }
        requires ready { AreReady D.disk P.plugin K.sink 1 (record { outside = outside.old; sink = sink.old }) }
        ensures obeys { (source : SourceState) (request : Request) (before : Server) → before.store ≡ self.now.store →
            SaysRows (state_of before) request rows well (state_of self.now) →
            Obeys (around D.disk A.ambient P.plugin outside.old (K.sink sink.old) source)
            (around D.disk A.ambient P.plugin outside.new (K.sink sink.new) source)
            before number request result self.now }
        ensures passes { CallsPass D.disk P.plugin K.sink (IsErrOf result Ending.Disk) (IsErrOf result Ending.Sink)
            (record { outside = outside.old; sink = sink.old }) (record { outside = outside.new; sink = sink.new }) }
        ensures worn { LacksNothing result }
        ensures remembers { Remembers self.now.store.cat outside.old.moments (D.disk outside.old.main) (D.disk outside.new.main) }
        ensures whole { KeepWhole P.plugin outside.old.moments self.now.store.cat
            (D.disk outside.old.main) (D.disk outside.new.main) outside.old.stores.items outside.new.stores.items }
        ensures rows { outside.new.main ≡ outside.old.main }
        ensures stores { outside.new.stores ≡ outside.old.stores }
        ensures drawn { outside.new.moments ≤ outside.old.moments + 1 }
    {
        let Ok(text) = rows_text(alloc, number, rows) else {
            return Err(Ending::Memory);
        };
        put_text(&mut outside.moments, sink, text.as_slice())
    }
}

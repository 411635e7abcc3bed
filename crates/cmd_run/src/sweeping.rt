ghost use Rattle.std.specs.Prelude.{◌≡◌, ◌+◌, ◌≤◌, ◌<◌, ◌^◌, [], IfOk, IsErrOf, OnOk, Ok, length, vec_len};
ghost use Rattle.grid_outside.specs.Source.{SourceState};
ghost use Rattle.grid_model.specs.Orders.{sweeps};
ghost use Rattle.grid_model.specs.Runs.{Request};
ghost use Rattle.grid_model.specs.Working.{well};
ghost use Rattle.grid_vault.specs.Removal.{FewerThanFaults};
ghost use Rattle.grid_deed.specs.Frame.{IsReady, Frame};
ghost use Rattle.grid_deed.specs.Safe.{KeepWhole};
ghost use Rattle.grid_headline.specs.Ends.{HasFewOrphans};
ghost use Rattle.run_laws.specs.Steps.{RemovesNoFile};
ghost use Rattle.run_laws.specs.Around.{around};
ghost use Rattle.run_laws.specs.Passes.{AreReady, CallsPass};
ghost use Rattle.cmd_run.specs.Sweeping.{ForgetsOrphans, StandsAsBefore, SweepLeavesFew, SweepsMain, orphan_files};

use crate::answers::{end_text, put_text, well};
use crate::keeping::ending_of;
use crate::{Ending, Server};
use grid_deed::discard_all;
use grid_model::{End, NewFile, NewFiles, Refusal};
use grid_outside::{Ambient, Disk, Outside, Plugin, Sink};
use grid_tables::Tables;
use plan_base::is_admin;
use std::alloc::{AllocError, Global};

/// More files than a list has that fits into memory.
const MANY: usize = 4_294_967_296;

impl Server {
    ghost use Rattle.cmd_run.specs.declared.server.Server.{Server};
    ghost use Rattle.cmd_run.specs.Fits.{state_of, FitsMain};
    ghost use Rattle.cmd_run.specs.Obeys.{HasNoneWaiting, IsRefusedAtOnce, LacksRoomAlone, Obeys, SaysOnly};

    /// Has the files of all orphans removed, for an administrator, forgets those that are gone, and answers ok, whichever
    /// stores fail.
    pub(crate) fn sweep<D: Disk, K: Sink, A: Ambient, P: Plugin>(
        &mut self,
        alloc: Global,
        outside: &mut Outside<D, A, P>,
        sink: &mut K,
        number: u64,
        session: u8,
    ) -> Result<(), Ending>
        requires fits { FitsMain (D.disk outside.old.main) self.old }
        requires session { session < 64 }
        requires slots { self.old.store.cat.stores ≡ vec_len outside.old.stores }
        requires ready { AreReady D.disk P.plugin K.sink (2 ^ 50) (record { outside = outside.old; sink = sink.old }) }
        ensures obeys { (source : SourceState) (request : Request) → request ≡ Ok (session, sweeps) →
            Obeys (around D.disk A.ambient P.plugin outside.old (K.sink sink.old) source)
            (around D.disk A.ambient P.plugin outside.new (K.sink sink.new) source)
            self.old number request result self.new }
        ensures few { (source : SourceState) (request : Request) → request ≡ Ok (session, sweeps) →
            SweepLeavesFew (around D.disk A.ambient P.plugin outside.old (K.sink sink.old) source)
            (around D.disk A.ambient P.plugin outside.new (K.sink sink.new) source)
            self.old request result self.new }
        ensures worn { LacksRoomAlone (D.disk outside.old.main) (D.disk outside.new.main) result }
        ensures none_waits { HasNoneWaiting outside.old.moments (D.disk outside.old.main) (D.disk outside.new.main) }
        ensures whole { KeepWhole P.plugin outside.old.moments self.old.store.cat
            (D.disk outside.old.main) (D.disk outside.new.main) outside.old.stores.items outside.new.stores.items }
        ensures passes { CallsPass D.disk P.plugin K.sink (IsErrOf result Ending.Disk) (IsErrOf result Ending.Sink)
            (record { outside = outside.old; sink = sink.old }) (record { outside = outside.new; sink = sink.new }) }
        ensures idle { (request : Request) → request ≡ Ok (session, sweeps) → IsRefusedAtOnce (state_of self.old) request →
            (outside.new.main ≡ outside.old.main) × (outside.new.stores ≡ outside.old.stores) }
        ensures drawn { outside.new.moments ≤ outside.old.moments + (2 ^ 33 + 1) }
    {
        let Some(user) = self.sessions.user(session) else {
            return self.say(alloc, outside, sink, number, End::Refused(Refusal::NoLogin));
        };
        if !is_admin(self.store.tables(), user) {
            return self.say(
                alloc,
                outside,
                sink,
                number,
                End::Refused(Refusal::NotAdmin),
            );
        }
        self.sweep_all(alloc, outside, sink, number)
    }

    // Has the files of all orphans removed, and answers ok.
    fn sweep_all<D: Disk, K: Sink, A: Ambient, P: Plugin>(
        &mut self,
        alloc: Global,
        outside: &mut Outside<D, A, P>,
        sink: &mut K,
        number: u64,
    ) -> Result<(), Ending>
        requires fits { FitsMain (D.disk outside.old.main) self.old }
        requires slots { self.old.store.cat.stores ≡ vec_len outside.old.stores }
        requires ready { AreReady D.disk P.plugin K.sink (2 ^ 50) (record { outside = outside.old; sink = sink.old }) }
        ensures obeys { (source : SourceState) (request : Request) → SaysOnly (state_of self.old) request well (state_of self.old) →
            ¬ RemovesNoFile request →
            Obeys (around D.disk A.ambient P.plugin outside.old (K.sink sink.old) source)
            (around D.disk A.ambient P.plugin outside.new (K.sink sink.new) source)
            self.old number request result self.new }
        ensures few { (source : SourceState) → OnOk result (HasFewOrphans (around D.disk A.ambient P.plugin outside.old (K.sink sink.old) source)
            (around D.disk A.ambient P.plugin outside.new (K.sink sink.new) source) self.new.store.cat) }
        ensures worn { LacksRoomAlone (D.disk outside.old.main) (D.disk outside.new.main) result }
        ensures none_waits { HasNoneWaiting outside.old.moments (D.disk outside.old.main) (D.disk outside.new.main) }
        ensures whole { KeepWhole P.plugin outside.old.moments self.old.store.cat
            (D.disk outside.old.main) (D.disk outside.new.main) outside.old.stores.items outside.new.stores.items }
        ensures passes { CallsPass D.disk P.plugin K.sink (IsErrOf result Ending.Disk) (IsErrOf result Ending.Sink)
            (record { outside = outside.old; sink = sink.old }) (record { outside = outside.new; sink = sink.new }) }
        ensures drawn { outside.new.moments ≤ outside.old.moments + (2 ^ 33 + 1) }
    {
        let Ok(text) = end_text(alloc, number, well(alloc)) else {
            return Err(Ending::Memory);
        };
        match self.sweep_orphans(alloc, outside) {
            Ok(()) => put_text(&mut outside.moments, sink, text.as_slice()),
            Err(ending) => Err(ending),
        }
    }

    /// Has the files of all orphans removed, and forgets those that are gone, whichever stores fail; nothing is said. Where there
    /// are no orphans main is left as it was. `Disk` comes only where main failed, `Worn` only where the room of the log has run
    /// out, and `Sink` never. Draws at most 2^33 moments.
    pub fn sweep_orphans<D: Disk, A: Ambient, P: Plugin>(
        &mut self,
        alloc: Global,
        outside: &mut Outside<D, A, P>,
    ) -> Result<(), Ending>
        requires fits { FitsMain (D.disk outside.old.main) self.old }
        requires slots { self.old.store.cat.stores ≡ vec_len outside.old.stores }
        requires ready { IsReady D.disk P.plugin (2 ^ 40) outside.old }
        ensures stands { OnOk result (StandsAsBefore (D.disk outside.old.main) (D.disk outside.new.main) self.old self.new) }
        ensures few { OnOk result (FewerThanFaults P.plugin (orphan_files self.new.store.cat) outside.old.stores.items outside.new.stores.items) }
        ensures still { self.old.store.cat.orphans ≡ [] → OnOk result (outside.new.main ≡ outside.old.main) }
        ensures sessions { self.new.sessions ≡ self.old.sessions }
        ensures rules { self.new.rules ≡ self.old.rules }
        ensures leaves { SweepsMain self.old.store.cat outside.old.moments (D.disk outside.old.main) (D.disk outside.new.main) result self.new.store.cat }
        ensures whole { KeepWhole P.plugin outside.old.moments self.old.store.cat
            (D.disk outside.old.main) (D.disk outside.new.main) outside.old.stores.items outside.new.stores.items }
        ensures frame { Frame D.disk P.plugin (IsErrOf result Ending.Disk) outside.old outside.new }
        ensures worn { LacksRoomAlone (D.disk outside.old.main) (D.disk outside.new.main) result }
        ensures not_sink { ¬ IsErrOf result Ending.Sink }
        ensures drawn { outside.new.moments ≤ outside.old.moments + 2 ^ 33 }
    {
        let Ok(files) = orphans_of(alloc, self.store.tables()) else {
            return Err(Ending::Memory);
        };
        if files.as_slice().len() > MANY {
            return Err(Ending::Memory);
        }
        self.forget(alloc, outside, &files)
    }

    // Has the files of the orphans, which are these, removed, and takes the rows of those that are gone away.
    fn forget<D: Disk, A: Ambient, P: Plugin>(
        &mut self,
        alloc: Global,
        outside: &mut Outside<D, A, P>,
        files: &NewFiles,
    ) -> Result<(), Ending>
        requires fits { FitsMain (D.disk outside.old.main) self.old }
        requires all { files.now ≡ orphan_files self.old.store.cat }
        requires slots { self.old.store.cat.stores ≡ vec_len outside.old.stores }
        requires ready { IsReady D.disk P.plugin (length files.now + 4) outside.old }
        ensures forgets { ForgetsOrphans self.old.store.cat outside.old.moments (D.disk outside.old.main) (D.disk outside.new.main) result self.new }
        ensures few { OnOk result (FewerThanFaults P.plugin (orphan_files self.new.store.cat) outside.old.stores.items outside.new.stores.items) }
        ensures still { self.old.store.cat.orphans ≡ [] → OnOk result (outside.new.main ≡ outside.old.main) }
        ensures whole { KeepWhole P.plugin outside.old.moments self.old.store.cat
            (D.disk outside.old.main) (D.disk outside.new.main) outside.old.stores.items outside.new.stores.items }
        ensures frame { Frame D.disk P.plugin (IsErrOf result Ending.Disk) outside.old outside.new }
        ensures sessions { self.new.sessions ≡ self.old.sessions }
        ensures rules { self.new.rules ≡ self.old.rules }
        ensures drawn { outside.new.moments ≤ outside.old.moments + length files.now + 4 }
    {
        match discard_all(alloc, &mut self.store, outside, files) {
            Err(error) => return Err(ending_of(error)),
            Ok(_) => {}
        }
        Ok(())
    }
}

// The files of all orphans, in the order of their numbers. Fails for want of memory alone.
fn orphans_of(alloc: Global, tables: &Tables) -> Result<NewFiles, AllocError>
    ensures { IfOk result (λ files. files ≡ orphan_files tables.now) }
{
    let mut files = Vec::new(alloc);
    for row in tables.orphans() {
        files.push(NewFile {
            slot: row.slot,
            name: row.vault,
        })?;
    }
    Ok(NewFiles::from_vec(files))
}

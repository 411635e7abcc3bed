ghost use Rattle.std.specs.Prelude.{◌≡◌, ◌+◌, ◌≤◌, ◌<◌, IsErrOf, Ok};
ghost use Rattle.grid_outside.specs.Source.{SourceState};
ghost use Rattle.grid_model.specs.Orders.{lists};
ghost use Rattle.grid_model.specs.Runs.{Request};
ghost use Rattle.grid_deed.specs.Safe.{KeepWhole};
ghost use Rattle.run_laws.specs.Around.{around};
ghost use Rattle.run_laws.specs.Passes.{AreReady, CallsPass};

use crate::{Ending, Server};
use grid_model::{End, Path, PlanError, Refusal};
use grid_outside::{Ambient, Disk, Outside, Plugin, Sink};
use plan_list::list_rows;
use std::alloc::Global;

impl Server {
    ghost use Rattle.cmd_run.specs.declared.server.Server.{Server};
    ghost use Rattle.cmd_run.specs.Fits.{FitsMain};
    ghost use Rattle.cmd_run.specs.Obeys.{LacksNothing, Obeys, Remembers};

    /// Shows what is at the path to whoever is logged in to the session.
    pub(crate) fn list<D: Disk, K: Sink, A: Ambient, P: Plugin>(
        &self,
        alloc: Global,
        outside: &mut Outside<D, A, P>,
        sink: &mut K,
        number: u64,
        session: u8,
        path: &Path,
    ) -> Result<(), Ending>
        requires fits { FitsMain (D.disk outside.old.main) self.now }
        requires session { session < 64 }
        requires ready { AreReady D.disk P.plugin K.sink 1 (record { outside = outside.old; sink = sink.old }) }
        ensures obeys { (source : SourceState) (request : Request) → request ≡ Ok (session, lists path.now) →
            Obeys (around D.disk A.ambient P.plugin outside.old (K.sink sink.old) source)
            (around D.disk A.ambient P.plugin outside.new (K.sink sink.new) source)
            self.now number request result self.now }
        ensures worn { LacksNothing result }
        ensures remembers { Remembers self.now.store.cat outside.old.moments (D.disk outside.old.main) (D.disk outside.new.main) }
        ensures whole { KeepWhole P.plugin outside.old.moments self.now.store.cat
            (D.disk outside.old.main) (D.disk outside.new.main) outside.old.stores.items outside.new.stores.items }
        ensures passes { CallsPass D.disk P.plugin K.sink (IsErrOf result Ending.Disk) (IsErrOf result Ending.Sink)
            (record { outside = outside.old; sink = sink.old }) (record { outside = outside.new; sink = sink.new }) }
        ensures rows { outside.new.main ≡ outside.old.main }
        ensures stores { outside.new.stores ≡ outside.old.stores }
        ensures drawn { outside.new.moments ≤ outside.old.moments + 1 }
    {
        let Some(user) = self.sessions.user(session) else {
            return self.say(alloc, outside, sink, number, End::Refused(Refusal::NoLogin));
        };
        match list_rows(alloc, self.store.tables(), user, path) {
            Ok(rows) => self.show(alloc, outside, sink, number, rows),
            Err(PlanError::Refused(refusal)) => {
                self.say(alloc, outside, sink, number, End::Refused(refusal))
            }
            Err(PlanError::Memory) => Err(Ending::Memory),
        }
    }
}

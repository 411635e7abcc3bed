ghost use Rattle.std.specs.Prelude.{◌≡◌, ◌+◌, ◌≤◌, ◌<◌, IsErrOf};
ghost use Rattle.grid_outside.specs.Source.{SourceState};
ghost use Rattle.grid_model.specs.Runs.{Request};
ghost use Rattle.grid_deed.specs.Safe.{KeepWhole};
ghost use Rattle.run_laws.specs.Around.{around};
ghost use Rattle.row_run.specs.Verbs.{NamesSome};
ghost use Rattle.cmd_run.specs.Asking.{ShowOf};
ghost use Rattle.run_laws.specs.Passes.{AreReady, CallsPass};

use crate::{Ending, Server};
use grid_model::{End, ItemKind, PathError, PlanError, Refusal, Text};
use grid_outside::{Ambient, Disk, Outside, Plugin, Sink};
use plan_meta::{list_triples, thing_named};
use std::alloc::Global;

impl Server {
    ghost use Rattle.cmd_run.specs.declared.server.Server.{Server};
    ghost use Rattle.cmd_run.specs.Fits.{FitsMain};
    ghost use Rattle.cmd_run.specs.Obeys.{LacksNothing, Obeys, Remembers};

    /// Shows what is said of a thing to whoever is logged in to the session.
    pub(crate) fn show_tags<D: Disk, K: Sink, A: Ambient, P: Plugin>(
        &mut self,
        alloc: Global,
        outside: &mut Outside<D, A, P>,
        sink: &mut K,
        number: u64,
        session: u8,
        item: ItemKind,
        name: &Text,
    ) -> Result<(), Ending>
        requires fits { FitsMain (D.disk outside.old.main) self.old }
        requires session { session < 64 }
        requires thing { NamesSome item name.now }
        requires ready { AreReady D.disk P.plugin K.sink 1 (record { outside = outside.old; sink = sink.old }) }
        ensures obeys { (source : SourceState) (request : Request) → ShowOf session item name.now request →
            Obeys (around D.disk A.ambient P.plugin outside.old (K.sink sink.old) source)
            (around D.disk A.ambient P.plugin outside.new (K.sink sink.new) source)
            self.old number request result self.new }
        ensures worn { LacksNothing result }
        ensures remembers { Remembers self.old.store.cat outside.old.moments (D.disk outside.old.main) (D.disk outside.new.main) }
        ensures whole { KeepWhole P.plugin outside.old.moments self.old.store.cat
            (D.disk outside.old.main) (D.disk outside.new.main) outside.old.stores.items outside.new.stores.items }
        ensures passes { CallsPass D.disk P.plugin K.sink (IsErrOf result Ending.Disk) (IsErrOf result Ending.Sink)
            (record { outside = outside.old; sink = sink.old }) (record { outside = outside.new; sink = sink.new }) }
        ensures rows { outside.new.main ≡ outside.old.main }
        ensures stores { outside.new.stores ≡ outside.old.stores }
        ensures drawn { outside.new.moments ≤ outside.old.moments + 1 }
    {
        let Some(user) = self.sessions.user(session) else {
            return self.say(alloc, outside, sink, number, End::Refused(Refusal::NoLogin));
        };
        let thing = match thing_named(alloc, item, name) {
            Ok(thing) => thing,
            Err(PathError::Memory) => return Err(Ending::Memory),
            Err(PathError::BadPath { at: _ }) => unreachable!(),
        };
        self.store.is_spelled();
        match list_triples(alloc, self.store.tables(), user, &thing) {
            Ok(rows) => self.show(alloc, outside, sink, number, rows),
            Err(PlanError::Refused(refusal)) => {
                self.say(alloc, outside, sink, number, End::Refused(refusal))
            }
            Err(PlanError::Memory) => Err(Ending::Memory),
        }
    }
}

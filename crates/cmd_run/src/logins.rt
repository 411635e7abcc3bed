ghost use Rattle.std.specs.Prelude.{◌≡◌, ◌+◌, ◌≤◌, ◌<◌, IsErrOf, Ok};
ghost use Rattle.grid_outside.specs.Source.{SourceState};
ghost use Rattle.grid_model.specs.Applying.{IsMade};
ghost use Rattle.grid_model.specs.Orders.{logs_in, logs_out};
ghost use Rattle.grid_model.specs.Runs.{Request as RequestOf};
ghost use Rattle.grid_deed.specs.Safe.{KeepWhole};
ghost use Rattle.run_laws.specs.Around.{around};
ghost use Rattle.run_laws.specs.Passes.{AreReady, CallsPass};
ghost use Rattle.cmd_run.specs.Logins.{FindsPerson};

use crate::answers::well;
use crate::{Ending, Server};
use grid_model::{End, Refusal, Text, UserKind};
use grid_outside::{Ambient, Disk, Outside, Plugin, Sink};
use grid_tables::Tables;
use std::alloc::Global;

impl Server {
    ghost use Rattle.cmd_run.specs.declared.server.Server.{Server};
    ghost use Rattle.cmd_run.specs.Fits.{FitsMain};
    ghost use Rattle.cmd_run.specs.Obeys.{LacksNothing, Obeys, Remembers};

    /// The session is this user's from now on, who is no group.
    pub(crate) fn login<D: Disk, K: Sink, A: Ambient, P: Plugin>(
        &mut self,
        alloc: Global,
        outside: &mut Outside<D, A, P>,
        sink: &mut K,
        number: u64,
        session: u8,
        user: &Text,
    ) -> Result<(), Ending>
        requires fits { FitsMain (D.disk outside.old.main) self.old }
        requires session { session < 64 }
        requires ready { AreReady D.disk P.plugin K.sink (1) (record { outside = outside.old; sink = sink.old }) }
        ensures obeys { (source : SourceState) (request : RequestOf) → request ≡ Ok (session, logs_in user.now) →
            Obeys (around D.disk A.ambient P.plugin outside.old (K.sink sink.old) source)
            (around D.disk A.ambient P.plugin outside.new (K.sink sink.new) source)
            self.old number request result self.new }
        ensures worn { LacksNothing result }
        ensures remembers { Remembers self.old.store.cat outside.old.moments (D.disk outside.old.main) (D.disk outside.new.main) }
        ensures whole { KeepWhole P.plugin outside.old.moments self.old.store.cat
            (D.disk outside.old.main) (D.disk outside.new.main) outside.old.stores.items outside.new.stores.items }
        ensures passes { CallsPass D.disk P.plugin K.sink (IsErrOf result Ending.Disk) (IsErrOf result Ending.Sink)
            (record { outside = outside.old; sink = sink.old }) (record { outside = outside.new; sink = sink.new }) }
        ensures rows { outside.new.main ≡ outside.old.main }
        ensures stores { outside.new.stores ≡ outside.old.stores }
        ensures drawn { outside.new.moments ≤ outside.old.moments + 1 }
    {
        match person_named(self.store.tables(), user) {
            None => self.say(alloc, outside, sink, number, End::Refused(Refusal::NoUser)),
            Some(id) => {
                self.sessions.login(session, id);
                self.say(alloc, outside, sink, number, well(alloc))
            }
        }
    }

    /// The session is nobody's from now on.
    pub(crate) fn logout<D: Disk, K: Sink, A: Ambient, P: Plugin>(
        &mut self,
        alloc: Global,
        outside: &mut Outside<D, A, P>,
        sink: &mut K,
        number: u64,
        session: u8,
    ) -> Result<(), Ending>
        requires fits { FitsMain (D.disk outside.old.main) self.old }
        requires session { session < 64 }
        requires ready { AreReady D.disk P.plugin K.sink (1) (record { outside = outside.old; sink = sink.old }) }
        ensures obeys { (source : SourceState) (request : RequestOf) → request ≡ Ok (session, logs_out) →
            Obeys (around D.disk A.ambient P.plugin outside.old (K.sink sink.old) source)
            (around D.disk A.ambient P.plugin outside.new (K.sink sink.new) source)
            self.old number request result self.new }
        ensures worn { LacksNothing result }
        ensures remembers { Remembers self.old.store.cat outside.old.moments (D.disk outside.old.main) (D.disk outside.new.main) }
        ensures whole { KeepWhole P.plugin outside.old.moments self.old.store.cat
            (D.disk outside.old.main) (D.disk outside.new.main) outside.old.stores.items outside.new.stores.items }
        ensures passes { CallsPass D.disk P.plugin K.sink (IsErrOf result Ending.Disk) (IsErrOf result Ending.Sink)
            (record { outside = outside.old; sink = sink.old }) (record { outside = outside.new; sink = sink.new }) }
        ensures rows { outside.new.main ≡ outside.old.main }
        ensures stores { outside.new.stores ≡ outside.old.stores }
        ensures drawn { outside.new.moments ≤ outside.old.moments + 1 }
    {
        match self.sessions.user(session) {
            None => self.say(alloc, outside, sink, number, End::Refused(Refusal::NoLogin)),
            Some(_) => {
                self.sessions.logout(session);
                self.say(alloc, outside, sink, number, well(alloc))
            }
        }
    }
}

// The id of the user of this name, who is no group.
fn person_named(tables: &Tables, name: &Text) -> Option<u32>
    requires { IsMade tables.now }
    ensures { FindsPerson tables.now name.now result }
{
    tables.in_order();
    match tables.user_named(name) {
        None => None,
        Some(id) => match tables.user(id) {
            None => unreachable!(),
            Some(row) => match row.kind {
                UserKind::Rodsgroup => None,
                UserKind::Rodsadmin => Some(id),
                UserKind::Rodsuser => Some(id),
            },
        },
    }
}

ghost use Rattle.std.specs.Prelude.{◌≡◌, ℕ, ◌+◌, ◌<◌, ◌≤◌, ◌^◌, Some, Err, IsErrOf, IsTrue, vec_len};
ghost use Rattle.grid_outside.specs.Source.{SourceState};
ghost use Rattle.grid_model.specs.Operations.Table.{Operation};
ghost use Rattle.grid_model.specs.Runs.{Request};
ghost use Rattle.grid_model.specs.Writable.{is_word};
ghost use Rattle.grid_deed.specs.Safe.{KeepWhole};
ghost use Rattle.sess.specs.Places.{at, user_of};
ghost use Rattle.cmd_read.specs.Orders.{promised};
ghost use Rattle.grid_headline.specs.Reads.{is_built};
ghost use Rattle.grid_model.specs.RowGrids.{grid_of};
ghost use Rattle.size_laws.specs.Within.{IsWithin};
ghost use Rattle.run_laws.specs.Around.{around};
ghost use Rattle.run_laws.specs.Passes.{AreReady, CallsPass};
ghost use Rattle.run_laws.specs.Steps.{CallsNoRules, RequestStep};
ghost use Rattle.row_run.specs.Verbs.{HasGoodWords, WorksBy};
ghost use Rattle.cmd_run.specs.Asking.{AsksForVerb};
ghost use Rattle.cmd_run.specs.Works.{IsNoOther, IsWorkOf};

use crate::noting::ended_by;
use crate::{Ending, Server};
use grid_model::{End, Refusal, Text, Verb};
use grid_outside::{Ambient, Disk, Outside, Plugin, Sink, Wear};
use std::alloc::Global;
use work_run::operate;

/// How many bytes an object may have.
const OBJECT_SIZE: u64 = 16_777_216;

impl Server {
    ghost use Rattle.cmd_run.specs.declared.server.Server.{Server};
    ghost use Rattle.cmd_run.specs.Fits.{state_of, FitsMain};
    ghost use Rattle.cmd_run.specs.Obeys.{IsRefusedAtOnce, Obeys, IsWorn, RemembersDeed};

    /// Does the operation of the verb, with its points, for whoever is logged in to the session; a verb that is not built is refused as
    /// unknown.
    pub(crate) fn work<D: Disk, K: Sink, A: Ambient, P: Plugin>(
        &mut self,
        alloc: Global,
        outside: &mut Outside<D, A, P>,
        sink: &mut K,
        number: u64,
        session: u8,
        verb: &Verb,
        body: &[u8],
        line: Text,
    ) -> Result<(), Ending>
        requires fits { FitsMain (D.disk outside.old.main) self.old }
        requires session { session < 64 }
        requires other { IsNoOther verb.now }
        requires words { HasGoodWords verb.now }
        requires line { IsTrue (is_word line) }
        requires slots { self.old.store.cat.stores ≡ vec_len outside.old.stores }
        requires ready { AreReady D.disk P.plugin K.sink (2 ^ 79) (record { outside = outside.old; sink = sink.old }) }
        ensures obeys { (source : SourceState) (request : Request) → AsksForVerb (state_of self.old) session verb.now body.now request →
            Obeys (around D.disk A.ambient P.plugin outside.old (K.sink sink.old) source)
            (around D.disk A.ambient P.plugin outside.new (K.sink sink.new) source)
            self.old number request result self.new }
        ensures worn { (source : SourceState) (request : Request) → AsksForVerb (state_of self.old) session verb.now body.now request →
            IsWorn (around D.disk A.ambient P.plugin outside.new (K.sink sink.new) source) self.old request result }
        // Where the numbers of vault files have run out the request was begun.
        ensures dry { (place : ℕ) → result ≡ Err (Ending.Worn Wear.Vaults place) →
            (source : SourceState) (request : Request) → AsksForVerb (state_of self.old) session verb.now body.now request →
            RequestStep (around D.disk A.ambient P.plugin outside.old (K.sink sink.old) source)
            (around D.disk A.ambient P.plugin outside.new (K.sink sink.new) source)
            (state_of self.old) self.old.store.cat number request }
        ensures remembers { RemembersDeed line self.old.store.cat outside.old.moments (D.disk outside.old.main) (D.disk outside.new.main) }
        ensures whole { KeepWhole P.plugin outside.old.moments self.old.store.cat
            (D.disk outside.old.main) (D.disk outside.new.main) outside.old.stores.items outside.new.stores.items }
        ensures passes { CallsPass D.disk P.plugin K.sink (IsErrOf result Ending.Disk) (IsErrOf result Ending.Sink)
            (record { outside = outside.old; sink = sink.old }) (record { outside = outside.new; sink = sink.new }) }
        ensures idle { (request : Request) → AsksForVerb (state_of self.old) session verb.now body.now request →
            CallsNoRules (state_of self.old) request → IsRefusedAtOnce (state_of self.old) request →
            (outside.new.main ≡ outside.old.main) × (outside.new.stores ≡ outside.old.stores) }
        ensures drawn { outside.new.moments ≤ outside.old.moments + 2 ^ 79 }
        ensures in_few { IsWithin (grid_of self.old.store.cat) → outside.new.moments ≤ outside.old.moments + 2 ^ 40 }
    {
        if !is_built(verb) {
            let end = End::Refused(Refusal::UnknownCommand);
            return self.say(alloc, outside, sink, number, end);
        }
        let Some(user) = self.sessions.user(session) else {
            return self.say(alloc, outside, sink, number, End::Refused(Refusal::NoLogin));
        };
        if promised(verb) > OBJECT_SIZE {
            let limit = OBJECT_SIZE;
            let end = End::Refused(Refusal::TooLarge { limit });
            return self.say(alloc, outside, sink, number, end);
        }
        self.work_as(
            alloc, outside, sink, number, session, user, verb, body, line,
        )
    }

    // Does the operation of the verb, with its points, for the user of this id, who is logged in to the session.
    fn work_as<D: Disk, K: Sink, A: Ambient, P: Plugin>(
        &mut self,
        alloc: Global,
        outside: &mut Outside<D, A, P>,
        sink: &mut K,
        number: u64,
        session: u8,
        user: u32,
        verb: &Verb,
        body: &[u8],
        line: Text,
    ) -> Result<(), Ending>
        requires fits { FitsMain (D.disk outside.old.main) self.old }
        requires logged_in { user_of (at self.old.sessions session) ≡ Some user }
        requires verb { (op : Operation) × WorksBy verb.now body.now op }
        requires words { HasGoodWords verb.now }
        requires line { IsTrue (is_word line) }
        requires slots { self.old.store.cat.stores ≡ vec_len outside.old.stores }
        requires ready { AreReady D.disk P.plugin K.sink (2 ^ 79) (record { outside = outside.old; sink = sink.old }) }
        ensures obeys { (source : SourceState) (request : Request) → IsWorkOf session verb.now body.now request →
            Obeys (around D.disk A.ambient P.plugin outside.old (K.sink sink.old) source)
            (around D.disk A.ambient P.plugin outside.new (K.sink sink.new) source)
            self.old number request result self.new }
        ensures worn { (source : SourceState) (request : Request) → IsWorkOf session verb.now body.now request →
            IsWorn (around D.disk A.ambient P.plugin outside.new (K.sink sink.new) source) self.old request result }
        ensures dry { (place : ℕ) → result ≡ Err (Ending.Worn Wear.Vaults place) →
            (source : SourceState) (request : Request) → IsWorkOf session verb.now body.now request →
            RequestStep (around D.disk A.ambient P.plugin outside.old (K.sink sink.old) source)
            (around D.disk A.ambient P.plugin outside.new (K.sink sink.new) source)
            (state_of self.old) self.old.store.cat number request }
        ensures remembers { RemembersDeed line self.old.store.cat outside.old.moments (D.disk outside.old.main) (D.disk outside.new.main) }
        ensures whole { KeepWhole P.plugin outside.old.moments self.old.store.cat
            (D.disk outside.old.main) (D.disk outside.new.main) outside.old.stores.items outside.new.stores.items }
        ensures passes { CallsPass D.disk P.plugin K.sink (IsErrOf result Ending.Disk) (IsErrOf result Ending.Sink)
            (record { outside = outside.old; sink = sink.old }) (record { outside = outside.new; sink = sink.new }) }
        ensures idle { (request : Request) → IsWorkOf session verb.now body.now request →
            CallsNoRules (state_of self.old) request → IsRefusedAtOnce (state_of self.old) request →
            (outside.new.main ≡ outside.old.main) × (outside.new.stores ≡ outside.old.stores) }
        ensures drawn { outside.new.moments ≤ outside.old.moments + 2 ^ 79 }
        ensures in_few { IsWithin (grid_of self.old.store.cat) → outside.new.moments ≤ outside.old.moments + 2 ^ 40 }
    {
        let command = self.begin(alloc, number, user, line);
        let ran = operate(
            alloc,
            &mut self.store,
            outside,
            sink,
            &self.rules,
            command,
            verb,
            body,
        );
        ended_by(ran)
    }
}

// Whether the verb is built.
fn is_built(verb: &Verb) -> bool
    ensures { result ≡ is_built verb.now }
{
    match verb {
        Verb::Open {
            path: _,
            resource: _,
            mode: _,
        } => false,
        Verb::Part { count: _ } => false,
        Verb::Close => false,
        Verb::Abort => false,
        _ => true,
    }
}

// How many bytes of a body the verb promises.
fn promised(verb: &Verb) -> u64
    ensures { result ≡ promised verb.now }
{
    match verb {
        Verb::Put {
            path: _,
            resource: _,
            mode: _,
            count,
        } => *count,
        Verb::Part { count } => *count,
        Verb::Rules { count } => *count,
        _ => 0,
    }
}

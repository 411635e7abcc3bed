ghost use Rattle.std.specs.Prelude.{◌≡◌, ℕ, ◌+◌, ◌<◌, ◌≤◌, ◌^◌, Some, Err, Ok, IsErrOf, IsTrue, vec_len};
ghost use Rattle.grid_outside.specs.Source.{SourceState};
ghost use Rattle.grid_model.specs.Obeying.{no_env};
ghost use Rattle.grid_model.specs.Orders.{executes};
ghost use Rattle.grid_model.specs.Parsed.{call_of, plain_call};
ghost use Rattle.grid_model.specs.RowGrids.{user_name, grid_of};
ghost use Rattle.grid_model.specs.RuleText.{CallText};
ghost use Rattle.grid_model.specs.Runs.{Request};
ghost use Rattle.grid_model.specs.Writable.{is_word};
ghost use Rattle.grid_deed.specs.Safe.{KeepWhole};
ghost use Rattle.size_laws.specs.Within.{IsWithin};
ghost use Rattle.sess.specs.Places.{at, user_of};
ghost use Rattle.chain_run.specs.Steps.{FitsFail};
ghost use Rattle.rule_cond.specs.Scopes.{env_of};
ghost use Rattle.run_laws.specs.Around.{around};
ghost use Rattle.run_laws.specs.Passes.{AreReady, CallsPass};
ghost use Rattle.run_laws.specs.Steps.{RequestStep};
ghost use Rattle.cmd_run.specs.Calls.{CallOf, IsCalled};

use crate::calling::{call_from, computed_call, env_by};
use crate::noting::ended_by;
use crate::{Ending, Server};
use grid_model::{Call, Call0, End, Failure, PlanError, Refusal, Text};
use grid_outside::{Ambient, Disk, Outside, Plugin, Sink, Wear};
use rule_cond::{ComputeError, Env};
use rule_run::execute;
use std::alloc::Global;

impl Server {
    ghost use Rattle.cmd_run.specs.declared.server.Server.{Server};
    ghost use Rattle.cmd_run.specs.Fits.{state_of, FitsMain};
    ghost use Rattle.cmd_run.specs.Obeys.{Obeys, IsWorn, RemembersDeed};

    /// Makes a call of a rule or of a micro-service by itself, for whoever is logged in to the session.
    pub(crate) fn exec<D: Disk, K: Sink, A: Ambient, P: Plugin>(
        &mut self,
        alloc: Global,
        outside: &mut Outside<D, A, P>,
        sink: &mut K,
        number: u64,
        session: u8,
        text: &Text,
        line: Text,
    ) -> Result<(), Ending>
        requires fits { FitsMain (D.disk outside.old.main) self.old }
        requires session { session < 64 }
        requires line { IsTrue (is_word line) }
        requires slots { self.old.store.cat.stores ≡ vec_len outside.old.stores }
        requires ready { AreReady D.disk P.plugin K.sink (2 ^ 79) (record { outside = outside.old; sink = sink.old }) }
        ensures obeys { (source : SourceState) (request : Request) → CallOf (state_of self.old).rules session text.now request →
            Obeys (around D.disk A.ambient P.plugin outside.old (K.sink sink.old) source)
            (around D.disk A.ambient P.plugin outside.new (K.sink sink.new) source)
            self.old number request result self.new }
        ensures worn { (source : SourceState) (request : Request) → CallOf (state_of self.old).rules session text.now request →
            IsWorn (around D.disk A.ambient P.plugin outside.new (K.sink sink.new) source) self.old request result }
        // Where the numbers of vault files have run out the request was begun.
        ensures dry { (place : ℕ) → result ≡ Err (Ending.Worn Wear.Vaults place) →
            (source : SourceState) (request : Request) → CallOf (state_of self.old).rules session text.now request →
            RequestStep (around D.disk A.ambient P.plugin outside.old (K.sink sink.old) source)
            (around D.disk A.ambient P.plugin outside.new (K.sink sink.new) source)
            (state_of self.old) self.old.store.cat number request }
        ensures remembers { RemembersDeed line self.old.store.cat outside.old.moments (D.disk outside.old.main) (D.disk outside.new.main) }
        ensures whole { KeepWhole P.plugin outside.old.moments self.old.store.cat
            (D.disk outside.old.main) (D.disk outside.new.main) outside.old.stores.items outside.new.stores.items }
        ensures passes { CallsPass D.disk P.plugin K.sink (IsErrOf result Ending.Disk) (IsErrOf result Ending.Sink)
            (record { outside = outside.old; sink = sink.old }) (record { outside = outside.new; sink = sink.new }) }
        ensures drawn { outside.new.moments ≤ outside.old.moments + 2 ^ 79 }
        ensures in_few { IsWithin (grid_of self.old.store.cat) → outside.new.moments ≤ outside.old.moments + 2 ^ 40 }
    {
        let Some(user) = self.sessions.user(session) else {
            return self.say(alloc, outside, sink, number, End::Refused(Refusal::NoLogin));
        };
        match call_from(alloc, self.rules.rules(), text) {
            Ok(call) => { self.exec_call(alloc, outside, sink, number, session, user, &call, line) }
            Err(PlanError::Refused(refusal)) => {
                self.say(alloc, outside, sink, number, End::Refused(refusal))
            }
            Err(PlanError::Memory) => Err(Ending::Memory),
        }
    }

    // Makes a call that was read, whose arguments are still to be computed.
    fn exec_call<D: Disk, K: Sink, A: Ambient, P: Plugin>(
        &mut self,
        alloc: Global,
        outside: &mut Outside<D, A, P>,
        sink: &mut K,
        number: u64,
        session: u8,
        user: u32,
        call: &Call0,
        line: Text,
    ) -> Result<(), Ending>
        requires fits { FitsMain (D.disk outside.old.main) self.old }
        requires logged_in { user_of (at self.old.sessions session) ≡ Some user }
        requires call { FitsFail (call_of call.now) }
        requires line { IsTrue (is_word line) }
        requires slots { self.old.store.cat.stores ≡ vec_len outside.old.stores }
        requires ready { AreReady D.disk P.plugin K.sink (2 ^ 79) (record { outside = outside.old; sink = sink.old }) }
        ensures obeys { (source : SourceState) (request : Request) → request ≡ Ok (session, executes (Ok (plain_call (call_of call.now)))) →
            Obeys (around D.disk A.ambient P.plugin outside.old (K.sink sink.old) source)
            (around D.disk A.ambient P.plugin outside.new (K.sink sink.new) source)
            self.old number request result self.new }
        ensures worn { (source : SourceState) (request : Request) → request ≡ Ok (session, executes (Ok (plain_call (call_of call.now)))) →
            IsWorn (around D.disk A.ambient P.plugin outside.new (K.sink sink.new) source) self.old request result }
        ensures dry { (place : ℕ) → result ≡ Err (Ending.Worn Wear.Vaults place) →
            (source : SourceState) (request : Request) → request ≡ Ok (session, executes (Ok (plain_call (call_of call.now)))) →
            RequestStep (around D.disk A.ambient P.plugin outside.old (K.sink sink.old) source)
            (around D.disk A.ambient P.plugin outside.new (K.sink sink.new) source)
            (state_of self.old) self.old.store.cat number request }
        ensures remembers { RemembersDeed line self.old.store.cat outside.old.moments (D.disk outside.old.main) (D.disk outside.new.main) }
        ensures whole { KeepWhole P.plugin outside.old.moments self.old.store.cat
            (D.disk outside.old.main) (D.disk outside.new.main) outside.old.stores.items outside.new.stores.items }
        ensures passes { CallsPass D.disk P.plugin K.sink (IsErrOf result Ending.Disk) (IsErrOf result Ending.Sink)
            (record { outside = outside.old; sink = sink.old }) (record { outside = outside.new; sink = sink.new }) }
        ensures drawn { outside.new.moments ≤ outside.old.moments + 2 ^ 79 }
        ensures in_few { IsWithin (grid_of self.old.store.cat) → outside.new.moments ≤ outside.old.moments + 2 ^ 40 }
    {
        let Ok(env) = env_by(alloc, self.store.tables(), user) else {
            return Err(Ending::Memory);
        };
        match computed_call(alloc, call, &env) {
            Ok(done) => {
                self.exec_computed(
                    alloc, outside, sink, number, session, user, done, &env, line,
                )
            }
            Err(ComputeError::LongText) => {
                self.say(alloc, outside, sink, number, End::Failed(Failure::LongText))
            }
            Err(ComputeError::Memory) => Err(Ending::Memory),
        }
    }

    // Makes a call with its arguments, with the session variables of its user.
    fn exec_computed<D: Disk, K: Sink, A: Ambient, P: Plugin>(
        &mut self,
        alloc: Global,
        outside: &mut Outside<D, A, P>,
        sink: &mut K,
        number: u64,
        session: u8,
        user: u32,
        call: Call,
        env: &Env,
        line: Text,
    ) -> Result<(), Ending>
        requires fits { FitsMain (D.disk outside.old.main) self.old }
        requires called { (read : CallText) × IsCalled self.old session user read call }
        requires env { env_of env.now ≡ no_env (user_name self.old.store.cat user) }
        requires line { IsTrue (is_word line) }
        requires slots { self.old.store.cat.stores ≡ vec_len outside.old.stores }
        requires ready { AreReady D.disk P.plugin K.sink (2 ^ 79) (record { outside = outside.old; sink = sink.old }) }
        ensures obeys { (source : SourceState) (request : Request) (read : CallText) → IsCalled self.old session user read call →
            request ≡ Ok (session, executes (Ok read)) →
            Obeys (around D.disk A.ambient P.plugin outside.old (K.sink sink.old) source)
            (around D.disk A.ambient P.plugin outside.new (K.sink sink.new) source)
            self.old number request result self.new }
        ensures worn { (source : SourceState) (request : Request) (read : CallText) → IsCalled self.old session user read call →
            request ≡ Ok (session, executes (Ok read)) →
            IsWorn (around D.disk A.ambient P.plugin outside.new (K.sink sink.new) source) self.old request result }
        ensures dry { (place : ℕ) → result ≡ Err (Ending.Worn Wear.Vaults place) →
            (source : SourceState) (request : Request) (read : CallText) → IsCalled self.old session user read call →
            request ≡ Ok (session, executes (Ok read)) →
            RequestStep (around D.disk A.ambient P.plugin outside.old (K.sink sink.old) source)
            (around D.disk A.ambient P.plugin outside.new (K.sink sink.new) source)
            (state_of self.old) self.old.store.cat number request }
        ensures remembers { RemembersDeed line self.old.store.cat outside.old.moments (D.disk outside.old.main) (D.disk outside.new.main) }
        ensures whole { KeepWhole P.plugin outside.old.moments self.old.store.cat
            (D.disk outside.old.main) (D.disk outside.new.main) outside.old.stores.items outside.new.stores.items }
        ensures passes { CallsPass D.disk P.plugin K.sink (IsErrOf result Ending.Disk) (IsErrOf result Ending.Sink)
            (record { outside = outside.old; sink = sink.old }) (record { outside = outside.new; sink = sink.new }) }
        ensures drawn { outside.new.moments ≤ outside.old.moments + 2 ^ 79 }
        ensures in_few { IsWithin (grid_of self.old.store.cat) → outside.new.moments ≤ outside.old.moments + 2 ^ 40 }
    {
        let command = self.begin(alloc, number, user, line);
        let ran = execute(
            alloc,
            &mut self.store,
            outside,
            sink,
            &self.rules,
            command,
            call,
            env,
        );
        ended_by(ran)
    }
}

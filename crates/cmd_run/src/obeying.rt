ghost use Rattle.std.specs.Prelude.{◌≡◌, ◌⊎◌, ℕ, ◌+◌, ◌≤◌, ◌^◌, Err, IsTrue, IsErrOf, length, vec_len};
ghost use Rattle.grid_outside.specs.Source.{SourceState};
ghost use Rattle.grid_model.specs.Limits.{object_size};
ghost use Rattle.grid_model.specs.Names.{Text as TextOf};
ghost use Rattle.grid_model.specs.Runs.{Request as RequestOf};
ghost use Rattle.grid_model.specs.Writable.{is_word};
ghost use Rattle.grid_deed.specs.Safe.{KeepWhole};
ghost use Rattle.grid_model.specs.RowGrids.{grid_of};
ghost use Rattle.size_laws.specs.Within.{IsWithin};
ghost use Rattle.run_laws.specs.Steps.{CallsNoRules, RemovesNoFile, RequestStep};
ghost use Rattle.run_laws.specs.Around.{around};
ghost use Rattle.cmd_run.specs.Asking.{AsksForRequest, IsForm, IsLineOf};
ghost use Rattle.run_laws.specs.Passes.{AreReady, CallsPass};
ghost use Rattle.cmd_run.specs.Sweeping.{SweepLeavesFew};

use crate::answers::well;
use crate::{Ending, Server};
use grid_model::{Bytes, End, Refusal, Request, Text, Verb};
use grid_outside::{Ambient, Disk, Outside, Plugin, Sink, Wear};
use std::alloc::Global;

impl Server {
    ghost use Rattle.cmd_run.specs.declared.server.Server.{Server};
    ghost use Rattle.cmd_run.specs.Fits.{state_of, FitsMain};
    ghost use Rattle.cmd_run.specs.Obeys.{IsRefusedAtOnce, Obeys, IsWorn, NamesItsCall, RemembersDeed};

    /// Handles the request of this number: it is decided over the rows, done, kept and answered. Where its words were
    /// refused, that is answered. `body` is the request's body, and empty where its verb has none or promised more bytes
    /// than an object may have. `line` is its line, which is noted while a deed of it runs. `Disk` and `Sink` come only where that
    /// device failed, and `Worn` only where numbers of vault files or the room of the log have run out; a run ends after any error.
    /// Draws at most 2^79 moments, and at most 2^40 where the grid is within its limits.
    pub fn command<D: Disk, K: Sink, A: Ambient, P: Plugin>(
        &mut self,
        alloc: Global,
        outside: &mut Outside<D, A, P>,
        sink: &mut K,
        number: u64,
        asked: Result<Request, Refusal>,
        body: Bytes,
        line: Text,
    ) -> Result<(), Ending>
        requires fits { FitsMain (D.disk outside.old.main) self.old }
        requires form { IsForm asked }
        requires line { IsTrue (is_word line) }
        requires small { length body ≤ object_size }
        requires slots { self.old.store.cat.stores ≡ vec_len outside.old.stores }
        requires ready { AreReady D.disk P.plugin K.sink (2 ^ 79) (record { outside = outside.old; sink = sink.old }) }
        ensures obeys { (source : SourceState) (request : RequestOf) → AsksForRequest (state_of self.old) asked body request →
            Obeys (around D.disk A.ambient P.plugin outside.old (K.sink sink.old) source)
            (around D.disk A.ambient P.plugin outside.new (K.sink sink.new) source)
            self.old number request result self.new }
        // A request that is a sweep leaves few orphans.
        ensures few { (source : SourceState) (request : RequestOf) → AsksForRequest (state_of self.old) asked body request →
            SweepLeavesFew (around D.disk A.ambient P.plugin outside.old (K.sink sink.old) source)
            (around D.disk A.ambient P.plugin outside.new (K.sink sink.new) source)
            self.old request result self.new }
        ensures worn { (source : SourceState) (request : RequestOf) → AsksForRequest (state_of self.old) asked body request →
            IsWorn (around D.disk A.ambient P.plugin outside.new (K.sink sink.new) source) self.old request result }
        ensures call { (l : TextOf) → IsLineOf asked line l → NamesItsCall l outside.old.moments (D.disk outside.old.main) (D.disk outside.new.main) }
        ensures remembers { (request : RequestOf) → AsksForRequest (state_of self.old) asked body request → RemovesNoFile request →
            RemembersDeed line self.old.store.cat outside.old.moments (D.disk outside.old.main) (D.disk outside.new.main) }
        ensures whole { KeepWhole P.plugin outside.old.moments self.old.store.cat
            (D.disk outside.old.main) (D.disk outside.new.main) outside.old.stores.items outside.new.stores.items }
        ensures passes { CallsPass D.disk P.plugin K.sink (IsErrOf result Ending.Disk) (IsErrOf result Ending.Sink)
            (record { outside = outside.old; sink = sink.old }) (record { outside = outside.new; sink = sink.new }) }
        // Where the numbers of vault files have run out no device was asked for anything, or the request was begun.
        ensures dry { (place : ℕ) → result ≡ Err (Ending.Worn Wear.Vaults place) → ((outside.new ≡ outside.old) × (sink.new ≡ sink.old))
            ⊎ ((source : SourceState) (request : RequestOf) → AsksForRequest (state_of self.old) asked body request →
            RequestStep (around D.disk A.ambient P.plugin outside.old (K.sink sink.old) source)
            (around D.disk A.ambient P.plugin outside.new (K.sink sink.new) source)
            (state_of self.old) self.old.store.cat number request) }
        // Where a request that calls no rules is refused without a mark nothing is called but the sink.
        ensures idle { (request : RequestOf) → AsksForRequest (state_of self.old) asked body request → CallsNoRules (state_of self.old) request →
            IsRefusedAtOnce (state_of self.old) request →
            (outside.new.main ≡ outside.old.main) × (outside.new.stores ≡ outside.old.stores) }
        ensures drawn { outside.new.moments ≤ outside.old.moments + 2 ^ 79 }
        ensures in_few { IsWithin (grid_of self.old.store.cat) → outside.new.moments ≤ outside.old.moments + 2 ^ 40 }
    {
        let request = match asked {
            Ok(request) => request,
            Err(refusal) => {
                return self.say(alloc, outside, sink, number, End::Refused(refusal));
            }
        };
        let session = request.session;
        match request.verb {
            Verb::Login { user } => self.login(alloc, outside, sink, number, session, &user),
            Verb::Logout => self.logout(alloc, outside, sink, number, session),
            Verb::Quit => self.say(alloc, outside, sink, number, well(alloc)),
            Verb::Sweep => self.sweep(alloc, outside, sink, number, session),
            Verb::LsMeta { item, name } => {
                self.show_tags(alloc, outside, sink, number, session, item, &name)
            }
            Verb::Query { text } => self.query(alloc, outside, sink, number, session, &text, line),
            Verb::Exec { text } => self.exec(alloc, outside, sink, number, session, &text, line),
            Verb::Ls { path } => self.list(alloc, outside, sink, number, session, &path),
            Verb::Rules { count } => {
                let body = body.as_slice();
                self.set_rules(alloc, outside, sink, number, session, count, body)
            }
            Verb::ShowRules => self.show_rules(alloc, outside, sink, number, session),
            other => {
                let body = body.as_slice();
                self.work(alloc, outside, sink, number, session, &other, body, line)
            }
        }
    }
}

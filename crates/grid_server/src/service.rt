ghost use Rattle.std.specs.Prelude.{◌≡◌, ◌⊎◌, ◌+◌, ◌^◌, ◌≤◌, [], ℕ, Err, IfOk, IsTrue, nat_le, Result, ⊤, Some, vec_len, length};
ghost use Rattle.grid_outside.specs.Fault.{Rose};
ghost use Rattle.grid_outside.specs.Source.{SourceState};
ghost use Rattle.grid_model.specs.Limits.{object_size};
ghost use Rattle.grid_model.specs.Writable.{is_word};
ghost use Rattle.run_laws.specs.Around.{around};
ghost use Rattle.run_laws.specs.Steps.{RequestStep};
ghost use Rattle.grid_model.specs.Runs.{Request};
ghost use Rattle.cmd_run.specs.Asking.{AsksForRequest, IsForm};
ghost use Rattle.cmd_run.specs.Fits.{FitsMain, state_of};
ghost use Rattle.run_laws.specs.Passes.{AreReady, CallsPass};
ghost use Rattle.grid_server.specs.Turning.{Commanded, after, is_last, status_of};
ghost use Rattle.grid_server.specs.Views.{WasRead};

use crate::Status;
use cmd_run::{Ending, Server, ends_input};
use grid_outside::{Ambient, Disk, Outside, Plugin, Sink, Source, Wear};
use req_lines::{Heard, Next, ReadError, Requests};
use std::alloc::{AllocError, Global};
use std::mem::forget;

/// How many bytes of the source are taken where it goes on past those that are read.
const TOO_LONG: u64 = 281_474_976_710_657;

/// A server with the requests that it answers.
#[derive(Drop)]
pub(crate) struct Service {
    pub(crate) requests: Requests,
    pub(crate) server: Server,
    /// How many requests were begun.
    pub(crate) number: u64,
}

impl Service {
    ghost use Rattle.grid_server.specs.Turning.{TakesTurn};

    /// A service that has read nothing yet. It takes the memory of one block and one line.
    pub(crate) fn new(alloc: Global, server: Server) -> Result<Service, AllocError>
        ensures server { IfOk result (λ service. service.server ≡ server) }
        ensures unread { IfOk result (λ service. service.requests.unread ≡ []) }
        ensures taken { IfOk result (λ service. service.requests.taken ≡ 0) }
        ensures number { IfOk result (λ service. service.number ≡ 0) }
    {
        match Requests::new(alloc) {
            Ok(requests) => Ok(Service {
                requests,
                server,
                number: 0,
            }),
            Err(AllocError) => {
                forget(server);
                Err(AllocError)
            }
        }
    }

    /// Reads and answers one request. With no status the run goes on.
    pub(crate) fn turn<D: Disk, S: Source, K: Sink, A: Ambient, P: Plugin>(
        &mut self,
        alloc: Global,
        outside: &mut Outside<D, A, P>,
        source: &mut S,
        sink: &mut K,
    ) -> Option<Status>
        requires fits { FitsMain (D.disk outside.old.main) self.old.server }
        requires slots { self.old.server.store.cat.stores ≡ vec_len outside.old.stores }
        requires most { self.old.requests.taken ≤ 2 ^ 48 }
        requires few { self.old.number ≤ 2 ^ 48 }
        requires ready { AreReady D.disk P.plugin K.sink (2 ^ 79) (record { outside = outside.old; sink = sink.old }) }
        ensures turns { TakesTurn (record { disk = D.disk; source = S.source; sink = K.sink; ambient = A.ambient; plugin = P.plugin })
            (record { outside = outside.old; source = source.old; sink = sink.old }) (record { outside = outside.new; source = source.new; sink = sink.new })
            self.old self.new result }
        ensures passes { CallsPass D.disk P.plugin K.sink (result ≡ Some Status.DiskFault) (result ≡ Some Status.SinkFault)
            (record { outside = outside.old; sink = sink.old }) (record { outside = outside.new; sink = sink.new }) }
        ensures read { WasRead (S.source source.old) (S.source source.new) }
        ensures cause { result ≡ Some Status.SourceFault → Rose (S.source source.old).faults (S.source source.new).faults }
        ensures drawn { outside.new.moments ≤ outside.old.moments + 2 ^ 79 }
    {
        match self.requests.next(alloc, source) {
            Ok(Next::Request(heard)) => self.handle(alloc, outside, sink, heard),
            Ok(Next::End) => Some(Status::Done),
            Ok(Next::Long) => Some(Status::Long { taken: TOO_LONG }),
            Err(ReadError::Source) => Some(Status::SourceFault),
            Err(ReadError::Memory) => Some(Status::Memory),
        }
    }

    // Handles the request that was heard. With no status the run goes on. Where the numbers of vault files have run out nothing was
    // called, or the request was begun.
    fn handle<D: Disk, K: Sink, A: Ambient, P: Plugin>(
        &mut self,
        alloc: Global,
        outside: &mut Outside<D, A, P>,
        sink: &mut K,
        heard: Heard,
    ) -> Option<Status>
        requires fits { FitsMain (D.disk outside.old.main) self.old.server }
        requires form { IsForm heard.asked }
        requires line { IsTrue (is_word heard.line) }
        requires small { length heard.body ≤ object_size }
        requires slots { self.old.server.store.cat.stores ≡ vec_len outside.old.stores }
        requires few { self.old.number ≤ 2 ^ 48 }
        requires ready { AreReady D.disk P.plugin K.sink (2 ^ 79) (record { outside = outside.old; sink = sink.old }) }
        ensures commands { (r : Result ⊤ Ending) × (result ≡ after (is_last heard) r) × ((source : SourceState) →
            Commanded (around D.disk A.ambient P.plugin outside.old (K.sink sink.old) source)
            (around D.disk A.ambient P.plugin outside.new (K.sink sink.new) source)
            (record { before = self.old.server; number = self.old.number + 1; heard = heard }) r self.new.server)
            × ((place : ℕ) → r ≡ Err (Ending.Worn Wear.Vaults place) → ((outside.new ≡ outside.old) × (sink.new ≡ sink.old))
            ⊎ ((source : SourceState) (request : Request) → AsksForRequest (state_of self.old.server) heard.asked heard.body request →
            RequestStep (around D.disk A.ambient P.plugin outside.old (K.sink sink.old) source)
            (around D.disk A.ambient P.plugin outside.new (K.sink sink.new) source)
            (state_of self.old.server) self.old.server.store.cat (self.old.number + 1) request)) }
        ensures number { self.new.number ≡ self.old.number + 1 }
        ensures requests { self.new.requests ≡ self.old.requests }
        ensures passes { CallsPass D.disk P.plugin K.sink (result ≡ Some Status.DiskFault) (result ≡ Some Status.SinkFault)
            (record { outside = outside.old; sink = sink.old }) (record { outside = outside.new; sink = sink.new }) }
        ensures drawn { outside.new.moments ≤ outside.old.moments + 2 ^ 79 }
    {
        let last = is_last(&heard);
        let Heard {
            asked,
            body,
            line,
            ends: _,
        } = heard;
        self.number += 1;
        let answered = self
            .server
            .command(alloc, outside, sink, self.number, asked, body, line);
        after(last, answered)
    }
}

// Whether the input ends with the request, or by it.
fn is_last(heard: &Heard) -> bool
    ensures { result ≡ is_last heard.now }
{
    if heard.ends {
        return true;
    }
    ends_input(&heard.asked)
}

// The status after a request that was handled so, if the run ends.
fn after(last: bool, answered: Result<(), Ending>) -> Option<Status>
    ensures { result ≡ after last answered }
{
    match answered {
        Ok(()) => last.then_some(Status::Done),
        Err(ending) => Some(status_of(ending)),
    }
}

/// The status of a run that ends so.
pub(crate) fn status_of(ending: Ending) -> Status
    ensures { result ≡ status_of ending }
{
    match ending {
        Ending::Disk => Status::DiskFault,
        Ending::Sink => Status::SinkFault,
        Ending::Memory => Status::Memory,
        Ending::Worn { what, at } => Status::Worn { what, at },
    }
}

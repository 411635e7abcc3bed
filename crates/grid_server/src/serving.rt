ghost use Rattle.std.specs.Prelude.{◌≡◌, ◌≢◌, ◌+◌, ◌^◌, ◌≤◌, ℕ, List, IsTrue, None, Some, vec_len};
ghost use Rattle.grid_outside.specs.Fault.{Rose};
ghost use Rattle.grid_model.specs.Inputs.{Asked as AskedOf};
ghost use Rattle.grid_model.specs.Rows.{Cat};
ghost use Rattle.grid_headline.specs.Ends.{ReadsMost, RunEnd};
ghost use Rattle.grid_headline.specs.Headline.{Serves};
ghost use Rattle.cmd_run.specs.Fits.{FitsMain};
ghost use Rattle.run_laws.specs.Passes.{AreReady, CallsPass};
ghost use Rattle.grid_server.specs.RunEnds.{run_end_of};
ghost use Rattle.grid_server.specs.Serving.{EndsBegun, IsBegun, TookFew, before};
ghost use Rattle.run_laws.specs.declared.around.Around.{Around};
ghost use Rattle.grid_server.specs.Views.{WasRead, Views, world_of};
ghost use Rattle.grid_server.specs.Wearing.{HasWorn};

use crate::Status;
use crate::service::Service;
use cmd_run::Server;
use grid_outside::{Ambient, Disk, Outside, Plugin, Sink, Source, Wear};
use std::alloc::Global;
use std::mem::forget;

/// Answers the requests of the source over a catalogue for which a run was begun, in order, until the input ends or
/// something fails. `DiskFault`, `SourceFault` and `SinkFault` come only where that device failed.
pub(crate) fn serve_all<D: Disk, S: Source, K: Sink, A: Ambient, P: Plugin>(
    alloc: Global,
    server: Server,
    outside: &mut Outside<D, A, P>,
    source: &mut S,
    sink: &mut K,
) -> Status
    requires fits { FitsMain (D.disk outside.old.main) server }
    requires slots { server.store.cat.stores ≡ vec_len outside.old.stores }
    requires spare_last { (D.disk outside.old.spare).last ≤ outside.old.moments }
    requires ready { AreReady D.disk P.plugin K.sink (2 ^ 127 + 2 ^ 80) (record { outside = outside.old; sink = sink.old }) }
    ensures serves { let v : Views D S K A P = record { disk = D.disk; source = S.source; sink = K.sink; ambient = A.ambient; plugin = P.plugin } in
        let start : Around D S K A P = record { outside = outside.old; source = source.old; sink = sink.old } in
        (e : Around D S K A P) (found : Cat) (end : RunEnd) → IsBegun v (before v e start) start found server →
        run_end_of result ≡ Some end → Serves (world_of v (before v e start))
        (world_of v (record { outside = outside.new; source = source.new; sink = sink.new })) found end }
    ensures ends { EndsBegun result }
    ensures took { IsTrue (S.source source.old).tells → TookFew (S.source source.old) (S.source source.new) }
    ensures long_only { (taken : ℕ) → result ≡ Status.Long taken → (taken ≡ 2 ^ 48 + 1) ×
        (IsTrue (S.source source.old).tells → (asked : List AskedOf) × ReadsMost asked (S.source source.old) (S.source source.new)) }
    ensures worn_only { (what : Wear) (place : ℕ) → result ≡ Status.Worn what place → IsTrue (D.disk outside.old.main).tells →
        HasWorn (D.disk outside.new.main).holds what place }
    ensures passes { CallsPass D.disk P.plugin K.sink (result ≡ Status.DiskFault) (result ≡ Status.SinkFault)
        (record { outside = outside.old; sink = sink.old }) (record { outside = outside.new; sink = sink.new }) }
    ensures read { WasRead (S.source source.old) (S.source source.new) }
    ensures cause { result ≡ Status.SourceFault → Rose (S.source source.old).faults (S.source source.new).faults }
    ensures drawn { outside.new.moments ≤ outside.old.moments + (2 ^ 127 + 2 ^ 80) }
{
    let Ok(mut service) = Service::new(alloc, server) else {
        return Status::Memory;
    };
    'requests: loop {
        match service.turn(alloc, outside, source, sink) {
            None => {}
            Some(status) => {
                // What it takes of memory goes with the program.
                forget(service);
                return status;
            }
        }
    }
}

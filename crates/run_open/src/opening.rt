ghost use Rattle.std.specs.Prelude.{◌≡◌, ◌⊎◌, ◌+◌, ◌^◌, ◌≤◌, ℕ, List, None, Err, IsErrOf, IsTrue, OnOk, vec_len};
ghost use Rattle.grid_outside.specs.Source.{SourceState};
ghost use Rattle.grid_model.specs.RuleText.{Rule};
ghost use Rattle.grid_deed.specs.Held.{IsHeld};
ghost use Rattle.grid_headline.specs.Headline.{BeginsOn};
ghost use Rattle.grid_headline.specs.Reads.{HasRules};
ghost use Rattle.grid_headline.specs.Moments.{IsWithinLimits};
ghost use Rattle.run_laws.specs.Around.{around};
ghost use Rattle.run_laws.specs.Passes.{AreReady, CallsPass};
ghost use Rattle.run_laws.specs.Went.{AreInOrder};
ghost use Rattle.run_open.specs.Opening.{HoldsRun, OpenEnds};
ghost use Rattle.run_open.specs.Preparing.{HasRoom, OpenStops};
ghost use Rattle.run_open.specs.declared.error.OpenError.{OpenError as Error};

use crate::OpenError;
use crate::beginning::begin;
use crate::error::error_of;
use crate::preparing::prepare;
use crate::telling::tell;
use grid_journal::Store;
use grid_outside::{Ambient, Disk, Outside, Plugin, Sink, SinkFault};
use std::alloc::Global;

/// Opens a run over a catalogue, whose rules stay as they are. A command that is pending was stopped: its marks are told, and that it was stopped, its
/// recoveries are run, and then one commit begins the run and clears the command, and the rest of the report is told.
///
/// Where the number of runs or the room of the log has run out nothing is touched. `Disk` and `Sink` come only where that device failed;
/// `Memory` may come at any time. Draws at most 2^120 + 6 moments, and at most 2^33 where the catalogue is
/// within the limits.
pub fn open_run<D: Disk, K: Sink, A: Ambient, P: Plugin>(
    alloc: Global,
    store: &mut Store,
    outside: &mut Outside<D, A, P>,
    sink: &mut K,
) -> Result<(), OpenError>
    requires held { IsHeld store.old.cat (D.disk outside.old.main) store.old }
    requires rules { (rules : List Rule) × HasRules store.old.cat rules }
    requires slots { store.old.cat.stores ≡ vec_len outside.old.stores }
    requires ready { AreReady D.disk P.plugin K.sink (2 ^ 120 + 6) (record { outside = outside.old; sink = sink.old }) }
    ensures opens { (source : SourceState) (rules : List Rule) → let old = around D.disk A.ambient P.plugin outside.old (K.sink sink.old) source in
        AreInOrder old → BeginsOn old store.old.cat → HasRules store.old.cat rules →
        OpenEnds old (around D.disk A.ambient P.plugin outside.new (K.sink sink.new) source) store.old.cat rules result store.new }
    ensures stops { (e : Error) → IsErrOf result e → OpenStops store.old.cat (D.disk outside.old.main) (D.disk outside.new.main) e }
    ensures holds { OnOk result (HoldsRun store.old.cat (D.disk outside.new.main) store.new) }
    ensures passes { CallsPass D.disk P.plugin K.sink (IsErrOf result OpenError.Disk) (IsErrOf result OpenError.Sink)
        (record { outside = outside.old; sink = sink.old }) (record { outside = outside.new; sink = sink.new }) }
    ensures no_room { ¬ HasRoom store.old.cat (D.disk outside.old.main) → ((at : ℕ) × ((result ≡ Err (OpenError.Runs at)) ⊎ (result ≡ Err (OpenError.Log at))))
        × (outside.new ≡ outside.old) × (sink.new ≡ sink.old) }
    ensures silent { store.old.cat.pending ≡ None → sink.new ≡ sink.old }
    ensures drawn { outside.new.moments ≤ outside.old.moments + (2 ^ 120 + 6) }
    ensures few { IsWithinLimits store.old.cat → outside.new.moments ≤ outside.old.moments + 2 ^ 33 }
{
    let run = store.tables().numbers().run;
    if run == u64::MAX {
        return Err(OpenError::Runs { at: run });
    }
    match store.full_at() {
        None => {}
        Some(at) => return Err(OpenError::Log { at }),
    }
    let rest = match prepare(alloc, store, outside, sink) {
        Ok(rest) => rest,
        Err(error) => return Err(error),
    };
    match begin(
        alloc,
        store,
        &mut outside.main,
        &mut outside.spare,
        &mut outside.moments,
    ) {
        Ok(()) => {}
        Err(error) => return Err(error_of(error)),
    }
    match tell(&mut outside.moments, sink, rest.as_slice()) {
        Ok(()) => Ok(()),
        Err(SinkFault) => Err(OpenError::Sink),
    }
}

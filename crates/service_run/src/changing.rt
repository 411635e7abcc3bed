ghost use Rattle.std.specs.Prelude.{◌≡◌, List, IfOk, IsErrOf, IsTrue};
ghost use Rattle.grid_outside.specs.Source.{SourceState};
ghost use Rattle.grid_model.specs.Applying.{is_user};
ghost use Rattle.grid_model.specs.Doing.{Course, Did};
ghost use Rattle.grid_model.specs.Meanings.{Meaning};
ghost use Rattle.grid_model.specs.RowGrids.{grid_of};
ghost use Rattle.grid_model.specs.Rows.{Cat};
ghost use Rattle.grid_model.specs.declared.calls.Call.{Call as CallOf};
ghost use Rattle.grid_deed.specs.Held.{IsHeld};
ghost use Rattle.run_laws.specs.Around.{around};
ghost use Rattle.run_laws.specs.Passes.{AreReady};
ghost use Rattle.size_laws.specs.Within.{IsWithin};
ghost use Rattle.service_run.specs.Changes.{LeadOn, MakesGridOf};
ghost use Rattle.service_run.specs.Steps.{IsStep};
ghost use Rattle.service_run.specs.declared.ending.Ending.{Ending};

use crate::{Command, Ending};
use grid_deed::stage;
use grid_journal::Store;
use grid_model::{Deltas, Failure};
use grid_outside::{Ambient, Disk, Outside, Plugin, Sink};
use std::alloc::{AllocError, Global};

/// Does a call that changes rows alone: the changes are in memory from then on, and the next commit keeps them. It takes no mark, and
/// nothing outside is called.
///
/// The call never fails. The only error is `Memory`.
pub fn change<D: Disk, K: Sink, A: Ambient, P: Plugin>(
    alloc: Global,
    store: &mut Store,
    outside: &Outside<D, A, P>,
    sink: &K,
    command: &Command,
    deltas: Deltas,
) -> Result<Result<(), Failure>, Ending>
    requires held { (kept : Cat) × IsHeld kept (D.disk outside.now.main) store.old }
    requires user { IsTrue (is_user store.old.cat command.now.user) }
    requires led { (after : Cat) × LeadOn store.old.cat deltas after }
    requires ready { AreReady D.disk P.plugin K.sink 0 (record { outside = outside.now; sink = sink.now }) }
    ensures step { (source : SourceState) (kept after : Cat) (call : CallOf) (undo : List CallOf) (does : Course → Meaning Did) →
        IsHeld kept (D.disk outside.now.main) store.old → LeadOn store.old.cat deltas after → MakesGridOf store.old.cat after does →
        (IsWithin (grid_of store.old.cat) → IsWithin (grid_of after)) →
        IsStep (around D.disk A.ambient P.plugin outside.now (K.sink sink.now) source) (around D.disk A.ambient P.plugin outside.now (K.sink sink.now) source)
        kept store.old command.now call undo command.now store.new does result }
    ensures grid { (after : Cat) → LeadOn store.old.cat deltas after → IfOk result (λ ran. grid_of store.new.cat ≡ grid_of after) }
    ensures errors { (e : Ending) → IsErrOf result e → e ≡ Ending.Memory }
{
    let _sink = sink;
    let _command = command;
    match stage(alloc, store, outside, deltas) {
        Err(AllocError) => Err(Ending::Memory),
        Ok(()) => Ok(Ok(())),
    }
}

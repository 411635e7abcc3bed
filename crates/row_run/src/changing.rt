ghost use Rattle.std.specs.Prelude.{◌≡◌, IfOk, IsErrOf, IsTrue, List, [], Err};
ghost use Rattle.grid_outside.specs.Source.{SourceState};
ghost use Rattle.grid_model.specs.Applying.{is_user};
ghost use Rattle.grid_model.specs.Doing.{Course, Did, do_operation};
ghost use Rattle.grid_model.specs.Meanings.{Meaning};
ghost use Rattle.grid_model.specs.Operations.Table.{Operation, row};
ghost use Rattle.grid_model.specs.RowGrids.{grid_of, user_name};
ghost use Rattle.grid_model.specs.Rows.{Cat};
ghost use Rattle.grid_model.specs.declared.calls.Call.{Call as CallOf};
ghost use Rattle.grid_model.specs.declared.refusal.Refusal.{Refusal as RefusalOf};
ghost use Rattle.grid_deed.specs.Held.{IsHeld};
ghost use Rattle.row_run.specs.Verbs.{HasGoodWords, IsRowsVerb};
ghost use Rattle.run_laws.specs.Around.{around};
ghost use Rattle.run_laws.specs.Passes.{AreReady};
ghost use Rattle.size_laws.specs.Within.{IsWithin};
ghost use Rattle.service_run.specs.Changes.{LeadOn, MakesGridOf};
ghost use Rattle.service_run.specs.Steps.{IsStep};
ghost use Rattle.service_run.specs.declared.ending.Ending.{Ending};

use crate::planning::plan;
use grid_journal::Store;
use grid_model::{Deltas, Failure, PlanError, Verb};
use grid_outside::{Ambient, Disk, Outside, Plugin, Sink};
use service_run::{Command, Ending, change};
use std::alloc::Global;

/// Does the operation of a verb that changes rows alone, for the user of the command: the changes are in memory from then on, and the next
/// commit keeps them; or says why it is refused. It takes no mark, and nothing outside is called. The only error is `Memory`.
pub fn change_rows<D: Disk, K: Sink, A: Ambient, P: Plugin>(
    alloc: Global,
    store: &mut Store,
    outside: &Outside<D, A, P>,
    sink: &K,
    command: &Command,
    verb: &Verb,
) -> Result<Result<(), Failure>, Ending>
    requires held { (kept : Cat) × IsHeld kept (D.disk outside.now.main) store.old }
    requires user { IsTrue (is_user store.old.cat command.now.user) }
    requires words { HasGoodWords verb.now }
    requires verb { (op : Operation) × IsRowsVerb verb.now op }
    requires ready { AreReady D.disk P.plugin K.sink 0 (record { outside = outside.now; sink = sink.now }) }
    ensures step { (source : SourceState) (kept : Cat) (op : Operation) (call : CallOf) (undo : List CallOf) →
        IsHeld kept (D.disk outside.now.main) store.old → IsRowsVerb verb.now op →
        IsStep (around D.disk A.ambient P.plugin outside.now (K.sink sink.now) source) (around D.disk A.ambient P.plugin outside.now (K.sink sink.now) source)
        kept store.old command.now call undo command.now store.new (do_operation call (user_name store.old.cat command.now.user) op) result }
    // A refused one changes nothing, and neither does one that leaves the grid as it is.
    ensures refused { (op : Operation) (r : RefusalOf) → IsRowsVerb verb.now op → row (grid_of store.old.cat) (user_name store.old.cat command.now.user) op ≡ Err r →
        store.new ≡ store.old }
    ensures quiet { IfOk result (λ ran. grid_of store.new.cat ≡ grid_of store.old.cat → store.new.staged ≡ store.old.staged) }
    ensures errors { (e : Ending) → IsErrOf result e → e ≡ Ending.Memory }
{
    store.is_spelled();
    match plan(alloc, store.tables(), command.user, verb) {
        Err(PlanError::Memory) => Err(Ending::Memory),
        Err(PlanError::Refused(refusal)) => Ok(Err(Failure::Refused(refusal))),
        Ok(deltas) => change_if_any(alloc, store, outside, sink, command, deltas),
    }
}

// Does a call that changes rows alone, by its changes, of which there may be none: then nothing is called.
fn change_if_any<D: Disk, K: Sink, A: Ambient, P: Plugin>(
    alloc: Global,
    store: &mut Store,
    outside: &Outside<D, A, P>,
    sink: &K,
    command: &Command,
    deltas: Deltas,
) -> Result<Result<(), Failure>, Ending>
    requires held { (kept : Cat) × IsHeld kept (D.disk outside.now.main) store.old }
    requires user { IsTrue (is_user store.old.cat command.now.user) }
    requires led { (after : Cat) × LeadOn store.old.cat deltas after }
    requires ready { AreReady D.disk P.plugin K.sink 0 (record { outside = outside.now; sink = sink.now }) }
    ensures step { (source : SourceState) (kept after : Cat) (call : CallOf) (undo : List CallOf) (does : Course → Meaning Did) →
        IsHeld kept (D.disk outside.now.main) store.old → LeadOn store.old.cat deltas after → MakesGridOf store.old.cat after does →
        (IsWithin (grid_of store.old.cat) → IsWithin (grid_of after)) →
        IsStep (around D.disk A.ambient P.plugin outside.now (K.sink sink.now) source) (around D.disk A.ambient P.plugin outside.now (K.sink sink.now) source)
        kept store.old command.now call undo command.now store.new does result }
    ensures none { deltas ≡ [] → store.new ≡ store.old }
    ensures grid { (after : Cat) → LeadOn store.old.cat deltas after → IfOk result (λ ran. grid_of store.new.cat ≡ grid_of after) }
    ensures errors { (e : Ending) → IsErrOf result e → e ≡ Ending.Memory }
{
    if deltas.as_slice().is_empty() {
        return Ok(Ok(()));
    }
    change(alloc, store, outside, sink, command, deltas)
}

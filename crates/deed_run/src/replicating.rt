ghost use Rattle.std.specs.Prelude.{◌≡◌, ℕ, ◌+◌, ◌^◌, ◌≤◌, Err, IfOk, IsErrOf, IsTrue, vec_len};
ghost use Rattle.grid_outside.specs.Source.{SourceState};
ghost use Rattle.grid_model.specs.Applying.{is_user};
ghost use Rattle.grid_model.specs.Operations.Table.{repl as repl_of, row};
ghost use Rattle.grid_model.specs.RowGrids.{grid_of, user_name};
ghost use Rattle.grid_model.specs.Rows.{Cat};
ghost use Rattle.grid_model.specs.Working.{running};
ghost use Rattle.grid_model.specs.Writable.{is_word};
ghost use Rattle.grid_model.specs.declared.refusal.Refusal.{Refusal as RefusalOf};
ghost use Rattle.grid_deed.specs.Held.{IsHeld};
ghost use Rattle.grid_headline.specs.Numbers.{last_vault};
ghost use Rattle.run_laws.specs.Around.{around};
ghost use Rattle.run_laws.specs.Passes.{AreReady, CallsPass};
ghost use Rattle.size_laws.specs.Within.{TakesAtMost};
ghost use Rattle.service_run.specs.Steps.{IsStep};
ghost use Rattle.deed_run.specs.Puts.{MayBeNoted, does_op};

use crate::calling::repl_call;
use crate::planning::find_source;
use crate::putting::spent_vaults;
use grid_journal::Store;
use grid_model::{Calls, Failure, Path, PlanError, Text};
use grid_outside::{Ambient, Disk, Outside, Plugin, Sink, Wear};
use service_run::{Command, Ending};
use std::alloc::Global;

/// Copies the object at the path to each target of a resource that has no good replica of it, as a call of a command. All that is said of
/// [`crate::put`] is so of it; and where the file is not what is recorded it is refused too, and the grid stays as it is.
pub fn repl<D: Disk, K: Sink, A: Ambient, P: Plugin>(
    alloc: Global,
    store: &mut Store,
    outside: &mut Outside<D, A, P>,
    sink: &mut K,
    command: &mut Command,
    path: &Path,
    resource: &Text,
    undo: &Calls,
) -> Result<Result<(), Failure>, Ending>
    requires held { (kept : Cat) × IsHeld kept (D.disk outside.old.main) store.old }
    requires user { IsTrue (is_user store.old.cat command.old.user) }
    requires noted { MayBeNoted command.old undo.now }
    requires word { IsTrue (is_word resource.now) }
    requires slots { store.old.cat.stores ≡ vec_len outside.old.stores }
    requires ready { AreReady D.disk P.plugin K.sink (2 ^ 65) (record { outside = outside.old; sink = sink.old }) }
    ensures step { (source : SourceState) (kept : Cat) → IsHeld kept (D.disk outside.old.main) store.old →
        let op = repl_of path.now resource.now in
        IsStep (around D.disk A.ambient P.plugin outside.old (K.sink sink.old) source) (around D.disk A.ambient P.plugin outside.new (K.sink sink.new) source)
        kept store.old command.old (running op) undo.now command.new store.new (does_op (user_name store.old.cat command.old.user) op) result }
    ensures passes { CallsPass D.disk P.plugin K.sink (IsErrOf result Ending.Disk) (IsErrOf result Ending.Sink)
        (record { outside = outside.old; sink = sink.old }) (record { outside = outside.new; sink = sink.new }) }
    // One that is refused whatever marks come calls nothing and changes nothing.
    ensures refused { (r : RefusalOf) → row (grid_of store.old.cat) (user_name store.old.cat command.old.user) (repl_of path.now resource.now) ≡ Err r →
        (store.new ≡ store.old) × (outside.new ≡ outside.old) × (sink.new ≡ sink.old) × (command.new ≡ command.old) }
    // Where the numbers of vault files have run out no device was asked for anything.
    ensures untouched { (place : ℕ) → IsErrOf result (Ending.Worn Wear.Vaults place) → (outside.new ≡ outside.old) × (sink.new ≡ sink.old) }
    // It comes to an answer only where there is a number left for a file.
    ensures number { IfOk result (λ ran. store.old.cat.numbers.next_vault ≤ last_vault) }
    ensures drawn { (each : ℕ) → TakesAtMost (grid_of store.old.cat) each → outside.new.moments ≤ outside.old.moments + each }
{
    match spent_vaults(store) {
        None => {}
        Some(at) => {
            return Err(Ending::Worn {
                what: Wear::Vaults,
                at,
            });
        }
    }
    let from = match find_source(alloc, store, command.user, path, resource) {
        Ok(from) => from,
        Err(PlanError::Refused(refusal)) => return Ok(Err(Failure::Refused(refusal))),
        Err(PlanError::Memory) => return Err(Ending::Memory),
    };
    let Ok(call) = repl_call(alloc, path, resource) else {
        return Err(Ending::Memory);
    };
    service_run::repl(
        alloc, store, outside, sink, command, &call, undo, path, resource, &from,
    )
}

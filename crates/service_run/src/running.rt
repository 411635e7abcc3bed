ghost use Rattle.std.specs.Prelude.{◌≡◌, ℕ, ◌+◌, ◌^◌, ◌≤◌, IsErrOf, IsTrue, vec_len};
ghost use Rattle.grid_outside.specs.Source.{SourceState};
ghost use Rattle.grid_model.specs.Applying.{is_user};
ghost use Rattle.grid_model.specs.Doing.{do_call};
ghost use Rattle.grid_model.specs.RowGrids.{grid_of, user_name};
ghost use Rattle.grid_model.specs.Rows.{Cat};
ghost use Rattle.grid_model.specs.Services.{service};
ghost use Rattle.grid_journal.specs.Journal.{can_be_kept};
ghost use Rattle.grid_deed.specs.Held.{IsHeld};
ghost use Rattle.plan_service.specs.ServicePlans.{AddsWords};
ghost use Rattle.run_laws.specs.Around.{around};
ghost use Rattle.run_laws.specs.Passes.{AreReady, CallsPass};
ghost use Rattle.size_laws.specs.Within.{TakesAtMost};
ghost use Rattle.service_run.specs.Commands.{noted_in};
ghost use Rattle.service_run.specs.Steps.{IsStep};
ghost use Rattle.service_run.specs.declared.ending.Ending.{Ending};

use crate::changing::change;
use crate::copying_objects::copy_object;
use crate::replicating::repl;
use crate::summing::chksum;
use crate::{Command, Ending};
use grid_journal::Store;
use grid_model::{Call, Calls, Delta, Failure};
use grid_outside::{Ambient, Disk, Outside, Plugin, Sink};
use plan_service::{ServiceError, ServicePlan, plan_call};
use std::alloc::Global;

/// Runs a call of a micro-service for a command, by what it does to the rows: nothing where it fails whatever marks come, changes of rows,
/// or a deed. A deed that changes files is noted first, with the recoveries that a stop in it would have done, and what the command has
/// still to tell is told then.
///
/// The answer is how the call came out. An error ends the command: `Memory` may come at any time, `Disk` and `Sink` where one of them
/// failed, and `Worn` where the numbers of vault files or the room behind the log have run out. Draws at most 2^65 moments, and at most
/// 2^20 where the grid is within its limits.
pub fn run_call<D: Disk, K: Sink, A: Ambient, P: Plugin>(
    alloc: Global,
    store: &mut Store,
    outside: &mut Outside<D, A, P>,
    sink: &mut K,
    command: &mut Command,
    call: &Call,
    undo: &Calls,
) -> Result<Result<(), Failure>, Ending>
    requires held { (kept : Cat) × IsHeld kept (D.disk outside.old.main) store.old }
    requires user { IsTrue (is_user store.old.cat command.old.user) }
    requires words { AddsWords (service call.now) }
    requires spelled { IsTrue (can_be_kept (Delta.Pending (noted_in command.old call.now undo.now))) }
    requires slots { store.old.cat.stores ≡ vec_len outside.old.stores }
    requires ready { AreReady D.disk P.plugin K.sink (2 ^ 65) (record { outside = outside.old; sink = sink.old }) }
    ensures step { (source : SourceState) (kept : Cat) → IsHeld kept (D.disk outside.old.main) store.old →
        IsStep (around D.disk A.ambient P.plugin outside.old (K.sink sink.old) source) (around D.disk A.ambient P.plugin outside.new (K.sink sink.new) source)
        kept store.old command.old call.now undo.now command.new store.new (do_call (user_name store.old.cat command.old.user) call.now) result }
    ensures passes { CallsPass D.disk P.plugin K.sink (IsErrOf result Ending.Disk) (IsErrOf result Ending.Sink)
        (record { outside = outside.old; sink = sink.old }) (record { outside = outside.new; sink = sink.new }) }
    ensures drawn { (each : ℕ) → TakesAtMost (grid_of store.old.cat) each → outside.new.moments ≤ outside.old.moments + each }
{
    store.is_spelled();
    match plan_call(alloc, store.tables(), command.user, call) {
        Err(ServiceError::Memory) => Err(Ending::Memory),
        Err(ServiceError::Failed(failure)) => Ok(Err(failure)),
        Ok(ServicePlan::Changes(deltas)) => change(alloc, store, outside, sink, command, deltas),
        Ok(ServicePlan::Chksum { path, files }) => {
            chksum(alloc, store, outside, sink, command, &path, &files)
        }
        Ok(
            ServicePlan::Repl {
                path,
                resource,
                from,
            },
        ) => repl(
            alloc, store, outside, sink, command, call, undo, &path, &resource, &from,
        ),
        Ok(
            ServicePlan::Copy {
                from,
                to,
                resource,
                file,
            },
        ) => copy_object(
            alloc, store, outside, sink, command, call, undo, &to, &resource, &file,
        ),
    }
}

ghost use Rattle.std.specs.Prelude.{◌≡◌, ◌∷◌, ◌++◌, [], ℕ, ◌+◌, ◌^◌, ◌≤◌, IsErrOf, IsTrue, OnOk, vec_len};
ghost use Rattle.std.specs.List.{list_all};
ghost use Rattle.grid_outside.specs.Source.{SourceState};
ghost use Rattle.grid_model.specs.Applying.{is_user};
ghost use Rattle.grid_model.specs.Deltas.{is_shown_byte, text};
ghost use Rattle.grid_model.specs.Printing.{print_failure};
ghost use Rattle.grid_model.specs.RowGrids.{grid_of};
ghost use Rattle.grid_model.specs.Rows.{Cat};
ghost use Rattle.grid_model.specs.Services.{service};
ghost use Rattle.grid_deed.specs.Held.{IsHeld};
ghost use Rattle.grid_journal.specs.Journal.{can_be_kept};
ghost use Rattle.plan_service.specs.ServicePlans.{AddsWords};
ghost use Rattle.run_laws.specs.Around.{around};
ghost use Rattle.run_laws.specs.Passes.{AreReady, CallsPass};
ghost use Rattle.size_laws.specs.Within.{TakesAtMost};
ghost use Rattle.service_run.specs.Commands.{noted_in};
ghost use Rattle.service_run.specs.declared.ending.Ending.{Ending};
ghost use Rattle.call_laws.specs.OneCall.{RoundEnds};

use crate::lists::is_size;
use cmd_reply::push_failure;
use grid_journal::Store;
use grid_model::{Call, Calls, Delta, Failure, Passed, Passeds, Text};
use grid_outside::{Ambient, Disk, Outside, Plugin, Sink};
use service_run::{Command, Ending, copy_call, run_call};
use std::alloc::{AllocError, Global};
use std::mem::replace;

/// Runs a recovery of a command, the last of this list. One that is refused is passed over, and noted with its failure. The answer is how it
/// failed, if it did.
///
/// Errors are those of `run_call`; `Memory` may come too where the recovery was run and refused. Draws at most 2^65 moments, and at most
/// 2^20 where the grid is within its limits.
pub fn undo_one<D: Disk, K: Sink, A: Ambient, P: Plugin>(
    alloc: Global,
    store: &mut Store,
    outside: &mut Outside<D, A, P>,
    sink: &mut K,
    command: &mut Command,
    call: &Call,
    undo: &Calls,
) -> Result<Option<Failure>, Ending>
    requires held { (kept : Cat) × IsHeld kept (D.disk outside.old.main) store.old }
    requires user { IsTrue (is_user store.old.cat command.old.user) }
    requires words { AddsWords (service call.now) }
    requires spelled { IsTrue (can_be_kept (Delta.Pending (noted_in command.old call.now undo.now))) }
    requires slots { store.old.cat.stores ≡ vec_len outside.old.stores }
    requires ready { AreReady D.disk P.plugin K.sink (2 ^ 65) (record { outside = outside.old; sink = sink.old }) }
    ensures ends { (source : SourceState) (kept : Cat) → IsHeld kept (D.disk outside.old.main) store.old →
        RoundEnds (around D.disk A.ambient P.plugin outside.old (K.sink sink.old) source)
        (around D.disk A.ambient P.plugin outside.new (K.sink sink.new) source) kept store.old command.old call.now undo.now store.new result command.new }
    ensures passes { CallsPass D.disk P.plugin K.sink (IsErrOf result Ending.Disk) (IsErrOf result Ending.Sink)
        (record { outside = outside.old; sink = sink.old }) (record { outside = outside.new; sink = sink.new }) }
    ensures drawn { (each : ℕ) → TakesAtMost (grid_of store.old.cat) each → outside.new.moments ≤ outside.old.moments + each }
{
    match run_call(alloc, store, outside, sink, command, call, undo) {
        Ok(Ok(())) => Ok(None),
        Ok(Err(failure)) => match pass_over(alloc, command, call, &failure) {
            Ok(()) => Ok(Some(failure)),
            Err(AllocError) => Err(Ending::Memory),
        },
        Err(error) => Err(error),
    }
}

// Notes a recovery that failed so. Fails for want of memory, and where the failure is not printed in bytes that a text may have.
fn pass_over(
    alloc: Global,
    command: &mut Command,
    call: &Call,
    failure: &Failure,
) -> Result<(), AllocError>
    ensures passed { OnOk result (command.new ≡ record command.old {
      passed = command.old.passed ++ (record { call = call.now; failure = print_failure failure.now }) ∷ [];
    }) }
    ensures shown { OnOk result (IsTrue (text (print_failure failure.now)).fits) }
{
    let mut text = Vec::new(alloc);
    push_failure(&mut text, failure)?;
    if !is_shown(text.as_slice()) {
        return Err(AllocError);
    }
    is_size(text.len());
    let call = copy_call(alloc, call)?;
    let mut passed = replace(&mut command.passed, Passeds::from_vec(Vec::new(alloc))).into_vec();
    passed.push(Passed {
        call,
        failure: Text::from_vec(text),
    })?;
    command.passed = Passeds::from_vec(passed);
    Ok(())
}

// Whether a text may have these bytes.
fn is_shown(bytes: &[u8]) -> bool
    ensures { result ≡ list_all is_shown_byte bytes.now }
{
    bytes.iter().all(|byte| *byte >= 0x20 && *byte != 0x7F)
}

ghost use Rattle.std.specs.Prelude.{◌≡◌, ◌+◌, ◌++◌, ◌^◌, ◌≤◌, List, [], None, Some, IsErrOf, IsTrue, IfOk, OnOk, vec_len};
ghost use Rattle.grid_outside.specs.Source.{SourceState};
ghost use Rattle.grid_model.specs.ReplyTexts.{report_rest};
ghost use Rattle.grid_model.specs.Rows.{Cat};
ghost use Rattle.grid_model.specs.RuleText.{Rule};
ghost use Rattle.grid_model.specs.declared.deltas.Pending.{Pending as PendingOf};
ghost use Rattle.grid_deed.specs.Held.{IsHeld};
ghost use Rattle.grid_headline.specs.Headline.{BeginsOn};
ghost use Rattle.grid_headline.specs.Reads.{HasRules};
ghost use Rattle.grid_headline.specs.Moments.{IsWithinLimits};
ghost use Rattle.run_laws.specs.Around.{around};
ghost use Rattle.run_laws.specs.Passes.{AreReady, CallsPass};
ghost use Rattle.run_laws.specs.Went.{AreInOrder};
ghost use Rattle.undo_run.specs.Undoing.{stopped_command, told_before};
ghost use Rattle.run_open.specs.Preparing.{OpenStops, Prepares};
ghost use Rattle.run_open.specs.declared.error.OpenError.{OpenError as Error};

use crate::OpenError;
use crate::error::error_by;
use crate::telling::tell;
use cmd_reply::{report_begun, report_rest};
use grid_journal::Store;
use grid_model::{Calls, Text};
use grid_outside::{Ambient, Disk, Outside, Plugin, Sink, SinkFault};
use service_run::Command;
use std::alloc::{AllocError, Global};
use undo_run::{stopped, undo_all};

/// Tells of the command that is pending, if there is one, its marks and that it was stopped, and runs its recoveries. The answer is what is
/// still to be told once the run is begun: lines of the last marks, the recoveries that were refused, and the end.
pub(crate) fn prepare<D: Disk, K: Sink, A: Ambient, P: Plugin>(
    alloc: Global,
    store: &mut Store,
    outside: &mut Outside<D, A, P>,
    sink: &mut K,
) -> Result<Text, OpenError>
    requires held { IsHeld store.old.cat (D.disk outside.old.main) store.old }
    requires rules { (rules : List Rule) × HasRules store.old.cat rules }
    requires slots { store.old.cat.stores ≡ vec_len outside.old.stores }
    requires ready { AreReady D.disk P.plugin K.sink (2 ^ 120 + 1) (record { outside = outside.old; sink = sink.old }) }
    ensures prepares { (source : SourceState) (rules : List Rule) → let old = around D.disk A.ambient P.plugin outside.old (K.sink sink.old) source in
        AreInOrder old → BeginsOn old store.old.cat → HasRules store.old.cat rules →
        Prepares old (around D.disk A.ambient P.plugin outside.new (K.sink sink.new) source) store.old.cat rules result store.new }
    ensures stops { (e : Error) → IsErrOf result e → OpenStops store.old.cat (D.disk outside.old.main) (D.disk outside.new.main) e }
    ensures held { OnOk result ((kept : Cat) × IsHeld kept (D.disk outside.new.main) store.new) }
    ensures rows { OnOk result ((store.new.cat.numbers.run ≡ store.old.cat.numbers.run) × (store.new.cat.rules ≡ store.old.cat.rules)
        × (store.new.cat.stores ≡ store.old.cat.stores)) }
    ensures passes { CallsPass D.disk P.plugin K.sink (IsErrOf result OpenError.Disk) (IsErrOf result OpenError.Sink)
        (record { outside = outside.old; sink = sink.old }) (record { outside = outside.new; sink = sink.new }) }
    ensures none { store.old.cat.pending ≡ None → IfOk result (λ rest. rest ≡ []) × (sink.new ≡ sink.old) }
    ensures drawn { outside.new.moments ≤ outside.old.moments + (2 ^ 120 + 1) }
    ensures few { IsWithinLimits store.old.cat → outside.new.moments ≤ outside.old.moments + (2 ^ 32 + 1) }
{
    match store.tables().pending() {
        None => Ok(Text::from_vec(Vec::new(alloc))),
        Some(pending) => {
            let Ok(front) = report_begun(
                alloc,
                pending.run,
                pending.number,
                pending.marks.as_slice(),
            ) else {
                return Err(OpenError::Memory);
            };
            match stopped(alloc, pending) {
                Ok((command, undo)) => {
                    undo_stopped(alloc, store, outside, sink, &front, command, undo)
                }
                Err(AllocError) => Err(OpenError::Memory),
            }
        }
    }
}

// The same of a command that was stopped, with the first lines of its report and its recoveries.
fn undo_stopped<D: Disk, K: Sink, A: Ambient, P: Plugin>(
    alloc: Global,
    store: &mut Store,
    outside: &mut Outside<D, A, P>,
    sink: &mut K,
    front: &Text,
    command: Command,
    undo: Calls,
) -> Result<Text, OpenError>
    requires held { IsHeld store.old.cat (D.disk outside.old.main) store.old }
    requires rules { (rules : List Rule) × HasRules store.old.cat rules }
    requires stopped { (p : PendingOf) × (store.old.cat.pending ≡ Some p) × (command ≡ stopped_command p) × (undo ≡ p.undo) × (front.now ≡ told_before p) }
    requires slots { store.old.cat.stores ≡ vec_len outside.old.stores }
    requires ready { AreReady D.disk P.plugin K.sink (2 ^ 120 + 1) (record { outside = outside.old; sink = sink.old }) }
    ensures prepares { (source : SourceState) (rules : List Rule) → let old = around D.disk A.ambient P.plugin outside.old (K.sink sink.old) source in
        AreInOrder old → BeginsOn old store.old.cat → HasRules store.old.cat rules →
        Prepares old (around D.disk A.ambient P.plugin outside.new (K.sink sink.new) source) store.old.cat rules result store.new }
    ensures stops { (e : Error) → IsErrOf result e → OpenStops store.old.cat (D.disk outside.old.main) (D.disk outside.new.main) e }
    ensures held { OnOk result ((kept : Cat) × IsHeld kept (D.disk outside.new.main) store.new) }
    ensures rows { OnOk result ((store.new.cat.numbers.run ≡ store.old.cat.numbers.run) × (store.new.cat.rules ≡ store.old.cat.rules)
        × (store.new.cat.stores ≡ store.old.cat.stores)) }
    ensures passes { CallsPass D.disk P.plugin K.sink (IsErrOf result OpenError.Disk) (IsErrOf result OpenError.Sink)
        (record { outside = outside.old; sink = sink.old }) (record { outside = outside.new; sink = sink.new }) }
    ensures drawn { outside.new.moments ≤ outside.old.moments + (2 ^ 120 + 1) }
    ensures few { IsWithinLimits store.old.cat → outside.new.moments ≤ outside.old.moments + (2 ^ 32 + 1) }
{
    match tell(&mut outside.moments, sink, front.as_slice()) {
        Ok(()) => {}
        Err(SinkFault) => return Err(OpenError::Sink),
    }
    let mut command = command;
    match undo_all(alloc, store, outside, sink, &mut command, undo) {
        Ok(()) => {}
        Err(ending) => return Err(error_by(ending)),
    }
    match rest_of(alloc, command) {
        Ok(rest) => Ok(rest),
        Err(AllocError) => Err(OpenError::Memory),
    }
}

// What is still to be told of a command whose recoveries were run. Fails for want of memory alone.
fn rest_of(alloc: Global, command: Command) -> Result<Text, AllocError>
    ensures { IfOk result (λ rest. rest ≡ command.untold ++ report_rest command.number command.passed) }
{
    let mut rest = command.untold.into_vec();
    let back = report_rest(alloc, command.number, command.passed.as_slice())?;
    rest.extend_from_slice(back.as_slice())?;
    Ok(Text::from_vec(rest))
}

ghost use Rattle.std.specs.Prelude.{◌≡◌, ℕ, ◌+◌, ◌-◌, ◌<◌, ◌^◌, ◌≤◌, Err, IfOk, IsErrOf, IsTrue, None, Ok, Some, vec_len};
ghost use Rattle.grid_outside.specs.Source.{SourceState};
ghost use Rattle.grid_model.specs.Applying.{is_user};
ghost use Rattle.grid_model.specs.Deeds.{Deed, deed};
ghost use Rattle.grid_model.specs.Doing.{take_mark};
ghost use Rattle.grid_model.specs.Operations.Objects.{put_row};
ghost use Rattle.grid_model.specs.Operations.Table.{put as put_of, row};
ghost use Rattle.grid_model.specs.RowGrids.{grid_of, user_name};
ghost use Rattle.grid_model.specs.Rows.{Cat};
ghost use Rattle.grid_model.specs.Working.{running};
ghost use Rattle.grid_model.specs.Writable.{is_word};
ghost use Rattle.grid_model.specs.declared.refusal.Refusal.{Refusal as RefusalOf};
ghost use Rattle.grid_deed.specs.Held.{IsHeld};
ghost use Rattle.grid_headline.specs.Numbers.{last_vault};
ghost use Rattle.run_laws.specs.Around.{around};
ghost use Rattle.run_laws.specs.Passes.{AreReady, CallsPass};
ghost use Rattle.size_laws.specs.Within.{TakesAtMost};
ghost use Rattle.service_run.specs.Steps.{IsStep};
ghost use Rattle.deed_run.specs.Puts.{MayBeNoted, does_op};

use crate::calling::announce_put;
use crate::planning::{find_targets, put_plan};
use crate::writing::write_marked;
use grid_journal::Store;
use grid_model::{Calls, Failure, Mode, Path, PlanError, Text};
use grid_outside::{Ambient, Disk, Outside, Plugin, Sink, Wear};
use service_run::{Command, Ending};
use std::alloc::Global;

/// The greatest number that the next vault file may have: past it no file is made.
const LAST_VAULT: u64 = 18_446_744_065_119_617_024;

/// Puts a body on the targets of a resource, as a call of a command: draws its word and its time, notes the command in the call with the
/// recoveries that a stop in it would have done, tells what the command has still to tell, writes the files, and takes its mark. The object
/// is there from then on in memory, which the next commit keeps. Where a store fails the put is refused and the grid stays as it is. A put
/// that is refused whatever marks come takes none, and nothing outside is called; that the numbers of vault files have run out comes before
/// any refusal.
///
/// The answer is how the put came out. An error ends the command: `Memory` may come at any time, `Disk` and `Sink` where one of them
/// failed, and `Worn` where the numbers of vault files or the room behind the log have run out; the first of these comes before anything
/// outside is asked. Draws at most 2^65 moments, and at most 2^20 where the grid is within its limits.
pub fn put<D: Disk, K: Sink, A: Ambient, P: Plugin>(
    alloc: Global,
    store: &mut Store,
    outside: &mut Outside<D, A, P>,
    sink: &mut K,
    command: &mut Command,
    path: &Path,
    resource: &Text,
    mode: Mode,
    body: &[u8],
    undo: &Calls,
) -> Result<Result<(), Failure>, Ending>
    requires held { (kept : Cat) × IsHeld kept (D.disk outside.old.main) store.old }
    requires user { IsTrue (is_user store.old.cat command.old.user) }
    requires noted { MayBeNoted command.old undo.now }
    requires word { IsTrue (is_word resource.now) }
    requires slots { store.old.cat.stores ≡ vec_len outside.old.stores }
    requires ready { AreReady D.disk P.plugin K.sink (2 ^ 65) (record { outside = outside.old; sink = sink.old }) }
    ensures step { (source : SourceState) (kept : Cat) → IsHeld kept (D.disk outside.old.main) store.old →
        let op = put_of path.now resource.now mode body.now in
        IsStep (around D.disk A.ambient P.plugin outside.old (K.sink sink.old) source) (around D.disk A.ambient P.plugin outside.new (K.sink sink.new) source)
        kept store.old command.old (running op) undo.now command.new store.new (does_op (user_name store.old.cat command.old.user) op) result }
    ensures passes { CallsPass D.disk P.plugin K.sink (IsErrOf result Ending.Disk) (IsErrOf result Ending.Sink)
        (record { outside = outside.old; sink = sink.old }) (record { outside = outside.new; sink = sink.new }) }
    // One that is refused whatever marks come calls nothing and changes nothing.
    ensures refused { (r : RefusalOf) → row (grid_of store.old.cat) (user_name store.old.cat command.old.user)
        (put_of path.now resource.now mode body.now) ≡ Err r →
        (store.new ≡ store.old) × (outside.new ≡ outside.old) × (sink.new ≡ sink.old) × (command.new ≡ command.old) }
    // Where the numbers of vault files have run out no device was asked for anything.
    ensures untouched { (place : ℕ) → IsErrOf result (Ending.Worn Wear.Vaults place) → (outside.new ≡ outside.old) × (sink.new ≡ sink.old) }
    // It comes to an answer only where there is a number left for a file.
    ensures number { IfOk result (λ ran. store.old.cat.numbers.next_vault ≤ last_vault) }
    ensures drawn { (each : ℕ) → TakesAtMost (grid_of store.old.cat) each → outside.new.moments ≤ outside.old.moments + each }
{
    match spent_vaults(store) {
        None => {}
        Some(at) => {
            return Err(Ending::Worn {
                what: Wear::Vaults,
                at,
            });
        }
    }
    let _leaves = match find_targets(alloc, store, command.user, path, resource, mode, body, 0) {
        Ok(leaves) => leaves,
        Err(PlanError::Refused(refusal)) => return Ok(Err(Failure::Refused(refusal))),
        Err(PlanError::Memory) => return Err(Ending::Memory),
    };
    put_found(
        alloc, store, outside, sink, command, path, resource, mode, body, undo,
    )
}

// The same for a put that is not refused.
fn put_found<D: Disk, K: Sink, A: Ambient, P: Plugin>(
    alloc: Global,
    store: &mut Store,
    outside: &mut Outside<D, A, P>,
    sink: &mut K,
    command: &mut Command,
    path: &Path,
    resource: &Text,
    mode: Mode,
    body: &[u8],
    undo: &Calls,
) -> Result<Result<(), Failure>, Ending>
    requires held { (kept : Cat) × IsHeld kept (D.disk outside.old.main) store.old }
    requires user { IsTrue (is_user store.old.cat command.old.user) }
    requires may { (d : Deed) ×
        (put_row (grid_of store.old.cat) (user_name store.old.cat command.old.user) path.now resource.now mode body.now ≡ Ok (deed d)) }
    requires vault { store.old.cat.numbers.next_vault ≤ last_vault }
    requires noted { MayBeNoted command.old undo.now }
    requires word { IsTrue (is_word resource.now) }
    requires slots { store.old.cat.stores ≡ vec_len outside.old.stores }
    requires ready { AreReady D.disk P.plugin K.sink (2 ^ 65) (record { outside = outside.old; sink = sink.old }) }
    ensures step { (source : SourceState) (kept : Cat) (d : Deed) → IsHeld kept (D.disk outside.old.main) store.old →
        put_row (grid_of store.old.cat) (user_name store.old.cat command.old.user) path.now resource.now mode body.now ≡ Ok (deed d) →
        let call = running (put_of path.now resource.now mode body.now) in
        IsStep (around D.disk A.ambient P.plugin outside.old (K.sink sink.old) source) (around D.disk A.ambient P.plugin outside.new (K.sink sink.new) source)
        kept store.old command.old call undo.now command.new store.new (λ s. take_mark call s d s.marks) result }
    ensures passes { CallsPass D.disk P.plugin K.sink (IsErrOf result Ending.Disk) (IsErrOf result Ending.Sink)
        (record { outside = outside.old; sink = sink.old }) (record { outside = outside.new; sink = sink.new }) }
    ensures untouched { (place : ℕ) → IsErrOf result (Ending.Worn Wear.Vaults place) → (outside.new ≡ outside.old) × (sink.new ≡ sink.old) }
    ensures drawn { (each : ℕ) → TakesAtMost (grid_of store.old.cat) each → outside.new.moments ≤ outside.old.moments + each }
{
    let word = outside.ambient.word();
    let now = outside.ambient.now();
    let Ok(()) = announce_put(
        alloc, store, outside, command, path, resource, mode, body, undo,
    ) else {
        return Err(Ending::Memory);
    };
    let Ok(plan) = put_plan(
        alloc,
        store,
        command.user,
        path,
        resource,
        mode,
        body,
        word,
        now,
    ) else {
        return Err(Ending::Memory);
    };
    write_marked(alloc, store, outside, sink, command, plan, body, word, now)
}

/// The next number of a vault file, where it is past 2^64 - 2^33: then no file is made.
pub(crate) fn spent_vaults(store: &Store) -> Option<u64>
    ensures spent { (next : ℕ) → result ≡ Some next → (next ≡ store.now.cat.numbers.next_vault) × (last_vault < next) }
    ensures left { result ≡ None → store.now.cat.numbers.next_vault ≤ last_vault }
{
    let next = store.tables().numbers().next_vault;
    if next > LAST_VAULT { Some(next) } else { None }
}

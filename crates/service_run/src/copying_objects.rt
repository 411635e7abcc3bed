ghost use Rattle.std.specs.Prelude.{◌≡◌, ℕ, ◌+◌, ◌-◌, ◌^◌, ◌≤◌, IfOk, IsErrOf, IsTrue, Ok, length, vec_len};
ghost use Rattle.grid_outside.specs.Source.{SourceState};
ghost use Rattle.grid_model.specs.Applying.{IsMade, is_user};
ghost use Rattle.grid_model.specs.Deeds.{Deed, deed};
ghost use Rattle.grid_model.specs.Doing.{take_mark};
ghost use Rattle.grid_model.specs.Names.{Path as PathOf};
ghost use Rattle.grid_model.specs.Operations.Replicas.{copy_row};
ghost use Rattle.grid_model.specs.RowGrids.{grid_of, user_name};
ghost use Rattle.grid_model.specs.Rows.{Cat};
ghost use Rattle.grid_journal.specs.Journal.{can_be_kept};
ghost use Rattle.grid_deed.specs.Held.{IsHeld};
ghost use Rattle.grid_headline.specs.Numbers.{leaf_count};
ghost use Rattle.plan_object.specs.CopyPlans.{MayCopy};
ghost use Rattle.plan_object.specs.ReplPlans.{CopiesFile};
ghost use Rattle.run_laws.specs.Around.{around};
ghost use Rattle.run_laws.specs.Passes.{AreReady, CallsPass};
ghost use Rattle.size_laws.specs.Within.{TakesAtMost};
ghost use Rattle.service_run.specs.Commands.{noted_in};
ghost use Rattle.service_run.specs.Steps.{IsStep};

use crate::copy_deeds::{copy_marked, spent_vaults, with_few_files};
use crate::noting::announce;
use crate::{Command, Ending};
use grid_journal::Store;
use grid_model::{Call, Calls, Delta, Failure, OldFile, Path, Plan, Text};
use grid_outside::{Ambient, Disk, Outside, Plugin, Sink, Wear};
use plan_object::plan_copy;
use std::alloc::{AllocError, Global};

/// Does a call that copies an object, from this file of it, to a new object of the user at the path, on the targets of a resource: draws
/// its word and its time, notes the command in the call, copies the file, and takes its mark. The object is there from then on in memory,
/// which the next commit keeps. Where a store fails, or the file is not what is recorded, the call is refused and the grid stays as it is.
///
/// `Worn` with `Vaults` comes before anything outside is asked, where the next number of a vault file is past 2^64 - 2^33. Draws at most
/// 2^65 moments, and at most 2^20 where the grid is within its limits.
pub fn copy_object<D: Disk, K: Sink, A: Ambient, P: Plugin>(
    alloc: Global,
    store: &mut Store,
    outside: &mut Outside<D, A, P>,
    sink: &mut K,
    command: &mut Command,
    call: &Call,
    undo: &Calls,
    to: &Path,
    resource: &Text,
    file: &OldFile,
) -> Result<Result<(), Failure>, Ending>
    requires held { (kept : Cat) × IsHeld kept (D.disk outside.old.main) store.old }
    requires user { IsTrue (is_user store.old.cat command.old.user) }
    requires may { (from : PathOf) × MayCopy store.old.cat (user_name store.old.cat command.old.user) from to.now resource.now file.now }
    requires spelled { IsTrue (can_be_kept (Delta.Pending (noted_in command.old call.now undo.now))) }
    requires slots { store.old.cat.stores ≡ vec_len outside.old.stores }
    requires ready { AreReady D.disk P.plugin K.sink (2 ^ 65) (record { outside = outside.old; sink = sink.old }) }
    ensures step { (source : SourceState) (kept : Cat) (from : PathOf) (d : Deed) → IsHeld kept (D.disk outside.old.main) store.old →
        MayCopy store.old.cat (user_name store.old.cat command.old.user) from to.now resource.now file.now →
        copy_row (grid_of store.old.cat) (user_name store.old.cat command.old.user) from to.now resource.now ≡ Ok (deed d) →
        IsStep (around D.disk A.ambient P.plugin outside.old (K.sink sink.old) source) (around D.disk A.ambient P.plugin outside.new (K.sink sink.new) source)
        kept store.old command.old call.now undo.now command.new store.new (λ s. take_mark call.now s d s.marks) result }
    ensures passes { CallsPass D.disk P.plugin K.sink (IsErrOf result Ending.Disk) (IsErrOf result Ending.Sink)
        (record { outside = outside.old; sink = sink.old }) (record { outside = outside.new; sink = sink.new }) }
    // Where the numbers of vault files have run out no device was asked for anything.
    ensures untouched { (place : ℕ) → IsErrOf result (Ending.Worn Wear.Vaults place) → (outside.new ≡ outside.old) × (sink.new ≡ sink.old) }
    ensures drawn { (each : ℕ) → TakesAtMost (grid_of store.old.cat) each → outside.new.moments ≤ outside.old.moments + each }
{
    match spent_vaults(store) {
        None => {}
        Some(at) => {
            return Err(Ending::Worn {
                what: Wear::Vaults,
                at,
            });
        }
    }
    let word = outside.ambient.word();
    let now = outside.ambient.now();
    let Ok(()) = announce(alloc, store, outside, command, call, undo) else {
        return Err(Ending::Memory);
    };
    let Ok(plan) = copy_plan(alloc, store, command.user, to, resource, file, word, now) else {
        return Err(Ending::Memory);
    };
    copy_marked(alloc, store, outside, sink, command, plan, file, word, now)
}

// The plan of the copy for this word and this time. Fails for want of memory alone.
fn copy_plan(
    alloc: Global,
    store: &Store,
    user: u32,
    to: &Path,
    resource: &Text,
    file: &OldFile,
    word: u64,
    now: u64,
) -> Result<Plan, AllocError>
    requires made { IsMade store.now.cat }
    requires user { IsTrue (is_user store.now.cat user) }
    requires may { (from : PathOf) × MayCopy store.now.cat (user_name store.now.cat user) from to.now resource.now file.now }
    requires vault { store.now.cat.numbers.next_vault ≤ 2 ^ 64 - 2 ^ 33 }
    ensures plans { (from : PathOf) → MayCopy store.now.cat (user_name store.now.cat user) from to.now resource.now file.now →
        IfOk result (CopiesFile store.now.cat (copy_row (grid_of store.now.cat) (user_name store.now.cat user) from to.now resource.now) word now file.now) }
    ensures few { IfOk result (λ plan. length plan.files ≤ 2 ^ 16) }
    ensures leaves { IfOk result (λ plan. length plan.files ≤ leaf_count store.now.cat) }
{
    let plan = plan_copy(alloc, store.tables(), user, to, resource, file, word, now)?;
    with_few_files(plan)
}

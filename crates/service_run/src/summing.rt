ghost use Rattle.std.specs.Prelude.{◌≡◌, ℕ, List, OnOk, Ok, IfOk, IsErrOf, IsTrue, vec_len};
ghost use Rattle.grid_outside.specs.Device.{EachPair, Looks};
ghost use Rattle.grid_outside.specs.Source.{SourceState};
ghost use Rattle.grid_model.specs.Applying.{is_user};
ghost use Rattle.grid_model.specs.Deeds.{Deed, deed};
ghost use Rattle.grid_model.specs.Doing.{take_mark};
ghost use Rattle.grid_model.specs.Names.{Text as TextOf};
ghost use Rattle.grid_model.specs.Operations.Replicas.{chksum_row};
ghost use Rattle.grid_model.specs.RowGrids.{grid_of, user_name};
ghost use Rattle.grid_model.specs.Rows.{Cat};
ghost use Rattle.grid_model.specs.declared.calls.Call.{Call as CallOf};
ghost use Rattle.grid_model.specs.declared.plans.OldFile.{OldFile as FileOf};
ghost use Rattle.grid_deed.specs.Held.{IsHeld};
ghost use Rattle.plan_object.specs.ChksumPlans.{MayChksum};
ghost use Rattle.run_laws.specs.Around.{around};
ghost use Rattle.run_laws.specs.Passes.{AreReady, CallsPass};
ghost use Rattle.service_run.specs.Changes.{LedOn};
ghost use Rattle.service_run.specs.Steps.{IsStep};
ghost use Rattle.service_run.specs.declared.ending.Ending.{Ending};
ghost use Rattle.service_run.specs.Sums.{TookLooked};

use crate::looking::{Looked, look_at_all, numbers_of};
use crate::{Command, Ending};
use grid_deed::stage;
use grid_journal::Store;
use grid_model::{BadReplicas, Failure, Mark, OldFiles, Path, Refusal};
use grid_outside::{Ambient, Disk, Outside, Plugin, Sink};
use plan_object::plan_chksum;
use std::alloc::{AllocError, Global};

/// Does a call that looks at these files, which are those of all replicas of the object at the path that can be read: draws its word and
/// its time, reads the files, and takes its mark, which names those that are not as recorded. Their replicas are stale from then on,
/// which the next commit keeps. Where a store fails the call is refused with `Fault`. Neither main nor the sink is called.
///
/// The only error is `Memory`.
pub fn chksum<D: Disk, K: Sink, A: Ambient, P: Plugin>(
    alloc: Global,
    store: &mut Store,
    outside: &mut Outside<D, A, P>,
    sink: &K,
    command: &mut Command,
    path: &Path,
    files: &OldFiles,
) -> Result<Result<(), Failure>, Ending>
    requires held { (kept : Cat) × IsHeld kept (D.disk outside.old.main) store.old }
    requires user { IsTrue (is_user store.old.cat command.old.user) }
    requires may { MayChksum store.old.cat (user_name store.old.cat command.old.user) path.now files.now }
    requires slots { store.old.cat.stores ≡ vec_len outside.old.stores }
    requires ready { AreReady D.disk P.plugin K.sink 0 (record { outside = outside.old; sink = sink.now }) }
    ensures step { (source : SourceState) (kept : Cat) (call : CallOf) (undo : List CallOf) (d : Deed) → IsHeld kept (D.disk outside.old.main) store.old →
        chksum_row (grid_of store.old.cat) (user_name store.old.cat command.old.user) path.now ≡ Ok (deed d) →
        IsStep (around D.disk A.ambient P.plugin outside.old (K.sink sink.now) source) (around D.disk A.ambient P.plugin outside.new (K.sink sink.now) source)
        kept store.old command.old call undo command.new store.new (λ s. take_mark call s d s.marks) result }
    ensures passes { CallsPass D.disk P.plugin K.sink ⊥ ⊥ (record { outside = outside.old; sink = sink.now }) (record { outside = outside.new; sink = sink.now }) }
    ensures looks { EachPair (λ k before after. Looks (P.plugin before) (P.plugin after)) outside.old.stores.items outside.new.stores.items }
    ensures main { outside.new.main ≡ outside.old.main }
    ensures errors { (e : Ending) → IsErrOf result e → e ≡ Ending.Memory }
    ensures drawn { outside.new.moments ≡ outside.old.moments }
{
    let _sink = sink;
    let word = outside.ambient.word();
    let now = outside.ambient.now();
    match look_at_all(alloc, outside, files) {
        Err(AllocError) => Err(Ending::Memory),
        Ok(looked) => match take_looked(alloc, store, outside, command, path, word, now, looked) {
            Err(AllocError) => Err(Ending::Memory),
            Ok(ran) => Ok(ran),
        },
    }
}

// Takes the mark of what looking at the files of the object at the path gave, and where all of them were read makes the bad replicas stale,
// which is left to the next commit. Fails for want of memory alone.
fn take_looked<D: Disk, A: Ambient, P: Plugin>(
    alloc: Global,
    store: &mut Store,
    outside: &Outside<D, A, P>,
    command: &mut Command,
    path: &Path,
    word: u64,
    now: u64,
    looked: Looked,
) -> Result<Result<(), Failure>, AllocError>
    requires held { (kept : Cat) × IsHeld kept (D.disk outside.now.main) store.old }
    requires may { (user : TextOf) × (files : List FileOf) × MayChksum store.old.cat user path.now files }
    ensures { (kept : Cat) (user : TextOf) (files : List FileOf) → IsHeld kept (D.disk outside.now.main) store.old →
        (may : MayChksum store.old.cat user path.now files) → IfOk result
        (TookLooked kept (D.disk outside.now.main) store.old command.old command.new store.new may.of (record { word = word; now = now }) looked) }
{
    match looked {
        Looked::Fault(slot) => {
            command.take_mark(alloc, Mark::Fault { slot, parts: 0 })?;
            Ok(Err(Failure::Refused(Refusal::Fault { slot })))
        }
        Looked::Found(bad) => {
            stale(alloc, store, outside, path, &bad)?;
            command.take_mark(alloc, Mark::Ran { word, now, bad })?;
            Ok(Ok(()))
        }
    }
}

// Makes the bad replicas of the object at the path stale, and leaves that to the next commit. Fails for want of memory alone.
fn stale<D: Disk, A: Ambient, P: Plugin>(
    alloc: Global,
    store: &mut Store,
    outside: &Outside<D, A, P>,
    path: &Path,
    bad: &BadReplicas,
) -> Result<(), AllocError>
    requires held { (kept : Cat) × IsHeld kept (D.disk outside.now.main) store.old }
    requires may { (user : TextOf) × (files : List FileOf) × MayChksum store.old.cat user path.now files }
    ensures { (kept : Cat) (user : TextOf) (files : List FileOf) (word now : ℕ) → IsHeld kept (D.disk outside.now.main) store.old →
        (may : MayChksum store.old.cat user path.now files) →
        OnOk result (LedOn kept store.old.cat (may.of.ran word now bad.now) (D.disk outside.now.main) store.new) }
{
    let numbers = numbers_of(alloc, bad)?;
    let deltas = plan_chksum(alloc, store.tables(), path, numbers.as_slice())?;
    stage(alloc, store, outside, deltas)
}

ghost use Rattle.std.specs.Prelude.{◌≡◌, ℕ, ◌+◌, ◌^◌, ◌<◌, ◌≤◌, None, Some, IfOk, IsErrOf, length, vec_len};
ghost use Rattle.grid_model.specs.Rows.{Cat};
ghost use Rattle.file_laws.specs.Plans.{IsCopyPlan};
ghost use Rattle.grid_deed.specs.Deeds.{moments_of};
ghost use Rattle.grid_deed.specs.Held.{IsHeld};
ghost use Rattle.grid_deed.specs.Safe.{KeepBothWhole};
ghost use Rattle.grid_headline.specs.Numbers.{last_vault};
ghost use Rattle.run_laws.specs.Passes.{AreReady, CallsPass};
ghost use Rattle.service_run.specs.Copying.{IsCopiedMarked, copied_mark, copied_ran};

use crate::copying::copy_noted;
use crate::{Command, Ending};
use grid_deed::Copied;
use grid_journal::Store;
use grid_model::{BadReplicas, Failure, Mark, OldFile, Plan, Refusal};
use grid_outside::{Ambient, Disk, Outside, Plugin, Sink, Wear};
use std::alloc::{AllocError, Global};

/// The greatest number that the next vault file may have: past it no file is made.
const LAST_VAULT: u64 = 18_446_744_065_119_617_024;

/// More files than a plan makes, since there is at most one leaf for each of 256 slots.
const MANY_FILES: usize = 65_536;

/// The next number of a vault file, where it is past 2^64 - 2^33: then no file is made.
pub(crate) fn spent_vaults(store: &Store) -> Option<u64>
    ensures spent { (next : ℕ) → result ≡ Some next → (next ≡ store.now.cat.numbers.next_vault) × (last_vault < next) }
    ensures left { result ≡ None → store.now.cat.numbers.next_vault ≤ last_vault }
{
    let next = store.tables().numbers().next_vault;
    if next > LAST_VAULT { Some(next) } else { None }
}

/// The plan, where it has few files. Fails for want of memory alone.
pub(crate) fn with_few_files(plan: Plan) -> Result<Plan, AllocError>
    ensures is { IfOk result (λ same. same ≡ plan) }
    ensures few { IfOk result (λ same. length same.files ≤ 2 ^ 16) }
{
    if plan.files.as_slice().len() > MANY_FILES {
        return Err(AllocError);
    }
    Ok(plan)
}

/// Carries out a plan that copies this file, for a command that is pending in memory, and takes the mark of it, which is of this word and
/// this time: `Ran` where the file was copied, and else that of the store's fault or of the bytes that were found.
///
/// An error ends the command: `Memory` may come at any time, `Disk` and `Sink` where one of them failed, and `Worn` where the room behind
/// the log has run out. Draws at most 2^65 moments.
pub(crate) fn copy_marked<D: Disk, K: Sink, A: Ambient, P: Plugin>(
    alloc: Global,
    store: &mut Store,
    outside: &mut Outside<D, A, P>,
    sink: &mut K,
    command: &mut Command,
    plan: Plan,
    from: &OldFile,
    word: u64,
    now: u64,
) -> Result<Result<(), Failure>, Ending>
    requires held { (kept : Cat) × IsHeld kept (D.disk outside.old.main) store.old }
    requires plan { IsCopyPlan store.old.cat store.old.cat (vec_len outside.old.stores) plan from.now }
    requires few { length plan.files ≤ 2 ^ 16 }
    requires source { from.now.slot < vec_len outside.old.stores }
    requires ready { AreReady D.disk P.plugin K.sink (2 ^ 65) (record { outside = outside.old; sink = sink.old }) }
    ensures marked { (kept : Cat) → IsHeld kept (D.disk outside.old.main) store.old →
        (p : IsCopyPlan store.old.cat store.old.cat (vec_len outside.old.stores) plan from.now) →
        IsCopiedMarked D.disk P.plugin K.sink p command.old.untold (record { outside = outside.old; sink = sink.old })
        (record { outside = outside.new; sink = sink.new }) kept command.old (record { word = word; now = now }) result command.new store.new }
    ensures whole { (kept : Cat) → IsHeld kept (D.disk outside.old.main) store.old →
        KeepBothWhole P.plugin outside.old.moments kept store.old.cat (D.disk outside.old.main) (D.disk outside.new.main)
        outside.old.stores.items outside.new.stores.items }
    ensures passes { CallsPass D.disk P.plugin K.sink (IsErrOf result Ending.Disk) (IsErrOf result Ending.Sink)
        (record { outside = outside.old; sink = sink.old }) (record { outside = outside.new; sink = sink.new }) }
    ensures ambient { outside.new.ambient ≡ outside.old.ambient }
    // What has run out is not the numbers of vault files.
    ensures left { (place : ℕ) → IsErrOf result (Ending.Worn Wear.Vaults place) → ⊥ }
    ensures drawn { outside.new.moments ≤ outside.old.moments + moments_of plan.files from.now.size }
    ensures few { moments_of plan.files from.now.size ≤ 2 ^ 65 }
{
    few_copies(&plan, from);
    let copied = match copy_noted(alloc, store, outside, sink, command, plan, from) {
        Ok(copied) => copied,
        Err(ending) => return Err(ending),
    };
    let Ok(()) = command.take_mark(alloc, copied_mark(alloc, word, now, from, &copied)) else {
        return Err(Ending::Memory);
    };
    Ok(copied_ran(from, &copied))
}

// The mark of a copying that ended so. It takes no memory.
fn copied_mark(alloc: Global, word: u64, now: u64, from: &OldFile, copied: &Copied) -> Mark
    ensures { result ≡ copied_mark word now from.now copied.now }
{
    match copied {
        Copied::Done => Mark::Ran {
            word,
            now,
            bad: BadReplicas::from_vec(Vec::new(alloc)),
        },
        Copied::Fault(fault) => Mark::Fault {
            slot: fault.slot,
            parts: 0,
        },
        Copied::Bad(found) => Mark::Bad {
            slot: from.slot,
            len: found.len,
            found: found.digest,
            parts: 0,
        },
    }
}

// Whether it was done, or why it was refused.
fn copied_ran(from: &OldFile, copied: &Copied) -> Result<(), Failure>
    ensures { result ≡ copied_ran from.now copied.now }
{
    match copied {
        Copied::Done => Ok(()),
        Copied::Fault(fault) => Err(Failure::Refused(Refusal::Fault { slot: fault.slot })),
        Copied::Bad(found) => Err(Failure::Refused(Refusal::Damaged {
            slot: from.slot,
            size: from.size,
            digest: from.digest,
            len: found.len,
            found: found.digest,
        })),
    }
}

// So many files have few parts. It does nothing.
fn few_copies(plan: &Plan, from: &OldFile)
    requires { length plan.now.files ≤ 2 ^ 16 }
    ensures { moments_of plan.now.files from.now.size ≤ 2 ^ 65 }
{
    let _size = from.size;
    let _files = &plan.files;
}

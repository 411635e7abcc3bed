ghost use Rattle.std.specs.Prelude.{◌≡◌, ◌+◌, ◌<◌, ◌++◌, ◌^◌, false, length, map, IsTrue, IfOk, OnOk};
ghost use Rattle.std.specs.List.{list_all};
ghost use Rattle.grid_journal.specs.Journal.{can_be_kept};
ghost use Rattle.grid_model.specs.Deltas.{digest as digest_part, text};
ghost use Rattle.file_laws.specs.Puts.{files_from, orphans_from, put_before};
ghost use Rattle.file_laws.specs.Rewriting.{replicas_placed};
ghost use Rattle.plan_object.specs.LeafNumbers.{with_numbers};
ghost use Rattle.plan_object.specs.PutPlans.{law_target};

use crate::numbering::{LeafNumber, number_on};
use crate::placing::Target;
use grid_model::{Delta, Digest, NewFile, Numbers, ObjectRow, OrphanRow, ReplicaRow};
use grid_tables::Tables;
use plan_base::digest_is_kept;
use std::alloc::{AllocError, Global};

/// The changes before new files are made for the targets: their numbers are drawn, and they are orphans. Fails for want of
/// memory alone.
pub(crate) fn put_before(
    alloc: Global,
    tables: &Tables,
    targets: &[Target],
) -> Result<Vec<Delta>, AllocError>
    requires vault { tables.now.numbers.next_vault + length targets.now < 2 ^ 64 }
    ensures deltas { IfOk result (λ deltas. deltas.items ≡ put_before tables.now (map law_target targets.now)) }
    ensures spelled { IfOk result (λ deltas. IsTrue (list_all can_be_kept deltas.items)) }
{
    let numbers = tables.numbers();
    let drawn = Numbers {
        next_vault: numbers.next_vault + targets.len() as u64,
        run: numbers.run,
        last: numbers.last,
    };
    let mut deltas = vec![in alloc; numbers_change(drawn)]?;
    push_orphans(&mut deltas, numbers.next_vault, targets)?;
    Ok(deltas)
}

// Adds the changes that make the files of the targets, numbered from the first one on, orphans.
fn push_orphans(deltas: &mut Vec<Delta>, first: u64, targets: &[Target]) -> Result<(), AllocError>
    requires { first + length targets.now < 2 ^ 64 }
    ensures orphans { OnOk result (deltas.new.items ≡ deltas.old.items ++ orphans_from first (map law_target targets.now)) }
    ensures spelled { OnOk result (IsTrue (list_all can_be_kept deltas.old.items) → IsTrue (list_all can_be_kept deltas.new.items)) }
{
    let mut vault = first;
    for target in targets {
        deltas.push(orphan(vault, target.slot))?;
        vault += 1;
    }
    Ok(())
}

/// The new files of the targets, numbered from the first one on. Fails for want of memory alone.
pub(crate) fn files_of(
    alloc: Global,
    first: u64,
    targets: &[Target],
) -> Result<Vec<NewFile>, AllocError>
    requires { first + length targets.now < 2 ^ 64 }
    ensures { IfOk result (λ files. files.items ≡ files_from first (map law_target targets.now)) }
{
    let mut files = Vec::new(alloc);
    let mut name = first;
    for target in targets {
        files.push(NewFile {
            slot: target.slot,
            name,
        })?;
        name += 1;
    }
    Ok(files)
}

/// Adds the changes that make the files of the targets, numbered from the first one on, replicas of the object, each under
/// the number that its leaf has or gets. Fails for want of memory alone.
pub(crate) fn push_replicas(
    deltas: &mut Vec<Delta>,
    object: &ObjectRow,
    taken: Vec<LeafNumber>,
    first: u64,
    targets: &[Target],
) -> Result<(), AllocError>
    requires numbers { length taken.items + length targets.now < 2 ^ 32 }
    requires vault { first + length targets.now < 2 ^ 64 }
    ensures replicas { OnOk result (deltas.new.items
        ≡ deltas.old.items ++ replicas_placed object.now first (with_numbers taken.items (map law_target targets.now))) }
    ensures spelled { OnOk result (IsTrue (list_all can_be_kept deltas.old.items) → IsTrue (list_all can_be_kept deltas.new.items)) }
{
    digest_is_kept(object.digest);
    let mut taken = taken;
    let mut vault = first;
    for target in targets {
        let number = number_on(&mut taken, target.leaf)?;
        deltas.push(no_orphan(vault))?;
        deltas.push(replica(ReplicaRow {
            object: object.id,
            number,
            leaf: target.leaf,
            good: true,
            size: object.size,
            digest: object.digest,
            vault,
        }))?;
        vault += 1;
    }
    Ok(())
}

// The change that sets the numbers.
fn numbers_change(numbers: Numbers) -> Delta
    ensures change { result ≡ Delta.Numbers numbers }
    ensures spelled { IsTrue (can_be_kept result) }
{
    Delta::Numbers(numbers)
}

/// The change that makes a file an orphan.
pub(crate) fn orphan(vault: u64, slot: u8) -> Delta
    ensures change { result ≡ Delta.Orphan (record { vault = vault; slot = slot }) }
    ensures spelled { IsTrue (can_be_kept result) }
{
    Delta::Orphan(OrphanRow { vault, slot })
}

// The change after which a file is no orphan.
fn no_orphan(vault: u64) -> Delta
    ensures change { result ≡ Delta.NoOrphan vault }
    ensures spelled { IsTrue (can_be_kept result) }
{
    Delta::NoOrphan { vault }
}

// The change that puts a replica.
fn replica(row: ReplicaRow) -> Delta
    requires { IsTrue (digest_part row.digest).fits }
    ensures change { result ≡ Delta.Replica row }
    ensures spelled { IsTrue (can_be_kept result) }
{
    Delta::Replica(row)
}

/// The change after which a replica is stale, and else as it was.
pub(crate) fn stale_replica(row: &ReplicaRow) -> Delta
    ensures change { result ≡ Delta.Replica (record row.now { good = false }) }
    ensures spelled { IsTrue (can_be_kept result) }
{
    digest_is_kept(row.digest);
    replica(ReplicaRow {
        object: row.object,
        number: row.number,
        leaf: row.leaf,
        good: false,
        size: row.size,
        digest: row.digest,
        vault: row.vault,
    })
}

/// The change that takes a replica away.
pub(crate) fn no_replica(object: u64, number: u32) -> Delta
    ensures change { result ≡ Delta.NoReplica object number }
    ensures spelled { IsTrue (can_be_kept result) }
{
    Delta::NoReplica { object, number }
}

/// The change that puts an object.
pub(crate) fn object(row: ObjectRow) -> Delta
    requires name { IsTrue (text row.name).fits }
    ensures change { result ≡ Delta.Object row }
    ensures spelled { IsTrue (can_be_kept result) }
{
    digest_is_kept(row.digest);
    Delta::Object(row)
}

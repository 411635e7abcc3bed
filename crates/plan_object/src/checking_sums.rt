ghost use Rattle.std.specs.Prelude.{◌≡◌, ℕ, List, [], ◌∷◌, ◌++◌, map, IsTrue, IfOk, OnOk};
ghost use Rattle.std.specs.List.{list_all};
ghost use Rattle.grid_journal.specs.Journal.{can_be_kept};
ghost use Rattle.grid_model.specs.Applying.{IsMade, is_user};
ghost use Rattle.grid_model.specs.Deeds.{is_among};
ghost use Rattle.grid_model.specs.Names.{Text};
ghost use Rattle.grid_model.specs.RowGrids.{user_name};
ghost use Rattle.grid_model.specs.declared.marks.BadReplica.{BadReplica};
ghost use Rattle.grid_model.specs.declared.plans.OldFile.{OldFile};
ghost use Rattle.file_laws.specs.Rewriting.{replicas_staled};
ghost use Rattle.plan_object.specs.ChksumPlans.{FindsChksum, MarksBad, MayChksum, named_bad, read_file, read_files};

use crate::allowing::object_for;
use crate::changes::stale_replica;
use grid_model::{Delta, Deltas, Level, OldFile, OldFiles, Path, PlanError, Refusal, ReplicaRow};
use grid_tables::Tables;
use std::alloc::{AllocError, Global};

/// The files of all replicas of the object at the path that can be read, each with what is recorded of it, in the order of their
/// numbers; or why the chksum is refused.
pub fn chksum_files(
    alloc: Global,
    tables: &Tables,
    user: u32,
    path: &Path,
) -> Result<OldFiles, PlanError>
    requires made { IsMade tables.now }
    requires user { IsTrue (is_user tables.now user) }
    ensures { FindsChksum tables.now (user_name tables.now user) path.now result }
{
    let id = match object_for(tables, user, path, Level::Write) {
        Err(refusal) => return Err(PlanError::Refused(refusal)),
        Ok(id) => id,
    };
    let files = match readable_files(alloc, tables, tables.replicas_of(id)) {
        Err(_) => return Err(PlanError::Memory),
        Ok(files) => files,
    };
    if files.as_slice().is_empty() {
        return Err(PlanError::Refused(Refusal::NoReplica));
    }
    Ok(OldFiles::from_vec(files))
}

// The files of those of these replicas that can be read. Fails for want of memory alone.
fn readable_files(
    alloc: Global,
    tables: &Tables,
    rows: &[ReplicaRow],
) -> Result<Vec<OldFile>, AllocError>
    ensures { IfOk result (λ files. files.items ≡ read_files tables.now rows.now) }
{
    let mut files = Vec::new(alloc);
    for row in rows {
        match readable_file(tables, row) {
            None => {}
            Some(file) => files.push(file)?,
        }
    }
    Ok(files)
}

// The file of a replica that can be read.
fn readable_file(tables: &Tables, row: &ReplicaRow) -> Option<OldFile>
    ensures { result ≡ read_file tables.now row.now }
{
    if !row.good {
        return None;
    }
    match tables.resource(row.leaf) {
        None => None,
        Some(leaf) => {
            if !leaf.up {
                return None;
            }
            Some(OldFile {
                slot: leaf.slot,
                name: row.vault,
                number: row.number,
                size: row.size,
                digest: row.digest,
            })
        }
    }
}

/// The changes after which the replicas with these numbers, which were found bad, of the object at the path are stale. Fails for
/// want of memory alone.
pub fn plan_chksum(
    alloc: Global,
    tables: &Tables,
    path: &Path,
    bad: &[u32],
) -> Result<Deltas, AllocError>
    requires made { IsMade tables.now }
    requires may { (user : Text) × (files : List OldFile) × MayChksum tables.now user path.now files }
    ensures { (user : Text) (files : List OldFile) (may : MayChksum tables.now user path.now files) (word now : ℕ) (found : List BadReplica) →
        map (λ b. b.number) found ≡ bad.now → IfOk result (MarksBad tables.now (may.of.ran word now found)) }
{
    match tables.object_at(path) {
        None => unreachable!(),
        Some(id) => {
            let mut deltas = Vec::new(alloc);
            push_bad(&mut deltas, tables.replicas_of(id), bad)?;
            Ok(Deltas::from_vec(deltas))
        }
    }
}

// Adds the changes after which the good replicas with these numbers are stale.
fn push_bad(deltas: &mut Vec<Delta>, rows: &[ReplicaRow], numbers: &[u32]) -> Result<(), AllocError>
    ensures bad { OnOk result (deltas.new.items ≡ deltas.old.items ++ replicas_staled (named_bad numbers.now rows.now)) }
    ensures spelled { OnOk result (IsTrue (list_all can_be_kept deltas.old.items) → IsTrue (list_all can_be_kept deltas.new.items)) }
{
    for row in rows {
        push_if_bad(deltas, row, numbers)?;
    }
    Ok(())
}

// The same for one replica, where it is good and has one of these numbers.
fn push_if_bad(deltas: &mut Vec<Delta>, row: &ReplicaRow, numbers: &[u32]) -> Result<(), AllocError>
    ensures bad { OnOk result (deltas.new.items ≡ deltas.old.items ++ replicas_staled (named_bad numbers.now (row.now ∷ []))) }
    ensures spelled { OnOk result (IsTrue (list_all can_be_kept deltas.old.items) → IsTrue (list_all can_be_kept deltas.new.items)) }
{
    if !row.good || !is_among(numbers, row.number) {
        return Ok(());
    }
    deltas.push(stale_replica(row))?;
    Ok(())
}

// Whether the number is one of these.
fn is_among(numbers: &[u32], number: u32) -> bool
    ensures { result ≡ is_among numbers.now number }
{
    numbers.iter().any(|one| *one == number)
}

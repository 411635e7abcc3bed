ghost use Rattle.std.specs.Prelude.{◌≡◌, ℕ, ◌<◌, All, map, None, Some, Ok, IfOk, vec_len};
ghost use Rattle.grid_outside.specs.Device.{EachPair, Looks};
ghost use Rattle.grid_model.specs.declared.marks.BadReplica.{BadReplica as BadOf};
ghost use Rattle.grid_deed.specs.Frame.{Frame, IsReady};
ghost use Rattle.grid_vault.specs.Vault.{RoseAt};
ghost use Rattle.service_run.specs.Sums.{LooksSay, SawFile};

use grid_deed::check_file;
use grid_model::{BadReplica, BadReplicas, OldFile, OldFiles};
use grid_outside::{Ambient, Disk, Outside, Plugin};
use grid_vault::ReadError;
use std::alloc::{AllocError, Global};

/// How the looking at the files of an object ended.
#[derive(Debug, Drop)]
pub enum Looked {
    /// A call of the store in this slot failed.
    Fault(u8),
    /// All files were read, and these were found to be other than recorded.
    Found(BadReplicas),
}

/// Reads all of the files, as far as the stores do not fail, and answers which are not as recorded, or the slot of the first store that
/// fails. Nothing of any store is changed. Fails for want of memory alone.
pub fn look_at_all<D: Disk, A: Ambient, P: Plugin>(
    alloc: Global,
    outside: &mut Outside<D, A, P>,
    files: &OldFiles,
) -> Result<Looked, AllocError>
    requires slots { All (λ file. file.slot < vec_len outside.old.stores) files.now }
    requires ready { IsReady D.disk P.plugin 0 outside.old }
    ensures says { IfOk result (LooksSay P.plugin files.now outside.old.stores.items outside.new.stores.items) }
    ensures looks { EachPair (λ k before after. Looks (P.plugin before) (P.plugin after)) outside.old.stores.items outside.new.stores.items }
    ensures frame { Frame D.disk P.plugin ⊥ outside.old outside.new }
    ensures main { outside.new.main ≡ outside.old.main }
    ensures drawn { outside.new.moments ≡ outside.old.moments }
{
    let mut bad = Vec::new(alloc);
    for file in files.as_slice() {
        match look_at(alloc, outside, file, &mut bad) {
            Ok(None) => {}
            Ok(Some(slot)) => return Ok(Looked::Fault(slot)),
            Err(AllocError) => return Err(AllocError),
        }
    }
    Ok(Looked::Found(BadReplicas::from_vec(bad)))
}

// Reads a file, and adds it to the bad ones where it is not as recorded. Where its store fails, the slot is answered. Nothing of any
// store is changed. Fails for want of memory alone.
fn look_at<D: Disk, A: Ambient, P: Plugin>(
    alloc: Global,
    outside: &mut Outside<D, A, P>,
    file: &OldFile,
    bad: &mut Vec<BadReplica>,
) -> Result<Option<u8>, AllocError>
    requires slot { file.now.slot < vec_len outside.old.stores }
    requires ready { IsReady D.disk P.plugin 0 outside.old }
    ensures saw { result ≡ Ok None → SawFile P.plugin outside.old.stores.items file.now bad.old.items bad.new.items }
    ensures fault { (slot : ℕ) → result ≡ Ok (Some slot) →
        (slot ≡ file.now.slot) × RoseAt P.plugin slot outside.old.stores.items outside.new.stores.items }
    ensures looks { EachPair (λ k before after. Looks (P.plugin before) (P.plugin after)) outside.old.stores.items outside.new.stores.items }
    ensures frame { Frame D.disk P.plugin ⊥ outside.old outside.new }
    ensures main { outside.new.main ≡ outside.old.main }
    ensures drawn { outside.new.moments ≡ outside.old.moments }
{
    match check_file(alloc, outside, file) {
        Ok(None) => Ok(None),
        Ok(Some(found)) => {
            bad.push(BadReplica {
                number: file.number,
                len: found.len,
                found: found.digest,
            })?;
            Ok(None)
        }
        Err(ReadError::Memory) => Err(AllocError),
        Err(ReadError::Fault { slot }) => Ok(Some(slot)),
    }
}

/// The numbers of these replicas, in their order. Fails for want of memory alone.
pub fn numbers_of(alloc: Global, bad: &BadReplicas) -> Result<Vec<u32>, AllocError>
    ensures { IfOk result (λ numbers. numbers.items ≡ map (λ (b : BadOf). b.number) bad.now) }
{
    let mut numbers = Vec::new(alloc);
    for replica in bad.as_slice() {
        numbers.push(replica.number)?;
    }
    Ok(numbers)
}

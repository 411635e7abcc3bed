ghost use Rattle.std.specs.Prelude.{◌≡◌, ℕ, ◌+◌, ◌^◌, ◌<◌, ◌≤◌, [], All, length, OnOk, IfOk, IfErr, vec_len};
ghost use Rattle.grid_outside.specs.Device.{EachMember};
ghost use Rattle.grid_vault.specs.Vault.{RemovesOne, RoseAt, IsGoneAt};
ghost use Rattle.grid_vault.specs.Removal.{SplitInto, RemovesOnly, FewerThanFaults};

use crate::{Fault, NewFile};
use grid_model::NewFiles;
use grid_outside::{Moments, Plugin, StoreFault};
use std::alloc::{AllocError, Global};

/// What became of files whose removal was asked: those that are gone, and those whose store failed.
#[derive(Debug, Drop)]
pub struct Removed {
    pub gone: NewFiles,
    pub left: NewFiles,
}

/// Asks the removal of a file, whether or not there is one. After Ok it is gone for good; after a fault it is there
/// as it was, or gone.
///
/// The slot is below the number of stores, and none of these was given a moment past those drawn. Draws one moment
/// and takes no memory.
pub fn remove<P: Plugin>(
    stores: &mut Vec<P>,
    moments: &mut Moments,
    file: &NewFile,
) -> Result<(), Fault>
    requires slot { file.now.slot < vec_len stores.old }
    requires last { EachMember (λ k store. (P.plugin store).last ≤ moments.old) stores.old.items }
    requires room { moments.old + 1 < 2 ^ 128 }

    // No stop brings the file back.
    ensures gone { OnOk result (IsGoneAt P.plugin stores.new.items file.now) }

    // At each moment every other file of every slot is as it was.
    ensures any_moment { RemovesOne P.plugin moments.old moments.new file.now stores.old.items stores.new.items }
    ensures last { EachMember (λ k store. (P.plugin store).last ≤ moments.new) stores.new.items }

    ensures slot { IfErr result (λ fault. fault.slot ≡ file.now.slot) }
    ensures cause { IfErr result (λ fault. RoseAt P.plugin fault.slot stores.old.items stores.new.items) }
    ensures drawn { moments.new ≡ moments.old + 1 }
{
    let slot = file.slot;
    match stores[slot as usize].remove(moments.next(), file.name) {
        Ok(()) => Ok(()),
        Err(StoreFault) => Err(Fault { slot }),
    }
}

// Asks the removal of each of these, and adds it to those that are gone or to those that are left.
fn remove_each<P: Plugin>(
    stores: &mut Vec<P>,
    moments: &mut Moments,
    files: &[NewFile],
    gone: &mut Vec<NewFile>,
    left: &mut Vec<NewFile>,
) -> Result<(), AllocError>
    requires none_gone { gone.old.items ≡ [] }
    requires none_left { left.old.items ≡ [] }
    requires slots { All (λ file. file.slot < vec_len stores.old) files.now }
    requires last { EachMember (λ k store. (P.plugin store).last ≤ moments.old) stores.old.items }
    requires room { moments.old + length files.now < 2 ^ 128 }
    ensures split { OnOk result (SplitInto files.now gone.new.items left.new.items) }
    ensures gone { OnOk result (All (IsGoneAt P.plugin stores.new.items) gone.new.items) }
    ensures left { OnOk result (FewerThanFaults P.plugin left.new.items stores.old.items stores.new.items) }
    ensures any_moment { RemovesOnly P.plugin moments.old moments.new files.now stores.old.items stores.new.items }
    ensures last { EachMember (λ k store. (P.plugin store).last ≤ moments.new) stores.new.items }
    ensures drawn_from { moments.old ≤ moments.new }
    ensures drawn { moments.new ≤ moments.old + length files.now }
{
    for file in files {
        match remove(stores, moments, file) {
            Ok(()) => gone.push(*file)?,
            Err(_) => left.push(*file)?,
        }
    }
    Ok(())
}

/// Asks the removal of each of these files in turn, whichever stores fail, and answers which are gone and which are left.
///
/// The slots are below the number of stores, and none of these was given a moment past those drawn. Draws one moment for
/// each file. Fails for want of memory alone, after which some files may be gone.
pub fn remove_all<P: Plugin>(
    alloc: Global,
    stores: &mut Vec<P>,
    moments: &mut Moments,
    files: &NewFiles,
) -> Result<Removed, AllocError>
    requires slots { All (λ file. file.slot < vec_len stores.old) files.now }
    requires last { EachMember (λ k store. (P.plugin store).last ≤ moments.old) stores.old.items }
    requires room { moments.old + length files.now < 2 ^ 128 }

    // Each file is gone or left, and no stop brings back one that is gone.
    ensures split { IfOk result (λ removed. SplitInto files.now removed.gone removed.left) }
    ensures gone { IfOk result (λ removed. All (IsGoneAt P.plugin stores.new.items) removed.gone) }

    // For each file that is left its store failed once.
    ensures left { IfOk result (λ removed. FewerThanFaults P.plugin removed.left stores.old.items stores.new.items) }

    // At each moment every other file of every slot is as it was.
    ensures any_moment { RemovesOnly P.plugin moments.old moments.new files.now stores.old.items stores.new.items }
    ensures last { EachMember (λ k store. (P.plugin store).last ≤ moments.new) stores.new.items }
    ensures drawn_from { moments.old ≤ moments.new }
    ensures drawn { moments.new ≤ moments.old + length files.now }
{
    let mut gone = Vec::new(alloc);
    let mut left = Vec::new(alloc);
    remove_each(stores, moments, files.as_slice(), &mut gone, &mut left)?;
    Ok(Removed {
        gone: NewFiles::from_vec(gone),
        left: NewFiles::from_vec(left),
    })
}

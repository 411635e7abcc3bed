ghost use Rattle.std.specs.Prelude.{◌≡◌, ◌==◌, true, false, [], position, is_none, IfOk, IfSome, OnOk, OnErr, option_map};
ghost use Rattle.std.specs.FinMap.{remove};
ghost use Rattle.grid_outside.specs.Files.{file_at};
ghost use Rattle.grid_mem.specs.MemFile.{files_of, file_of};
ghost use Rattle.grid_mem.specs.StoreCalls.{store_fits, store_done, IsDoneIfFit, with_file, can_append, appended, is_begun, bytes_of as file_bytes};

use crate::{MemFile, StoreDeed};
use std::alloc::{AllocError, Global};

/// The files of a store in memory. Where two have one name, the first counts.
#[derive(Debug, Drop)]
pub struct MemFiles {
    files: Vec<MemFile>,
}

impl Clone for MemFiles {
    ghost use Rattle.grid_mem.specs.MemFiles.{HaveSame};

    ghost is_clone = { HaveSame };

    fn clone(&self) -> Result<MemFiles, AllocError> {
        Ok(MemFiles {
            files: self.files.clone()?,
        })
    }
}

impl MemFiles {
    ghost use Rattle.std.specs.Option.{option_copied};
    ghost use Rattle.grid_mem.specs.MemFiles.{contents};

    /// These files.
    pub fn new(files: Vec<MemFile>) -> MemFiles
        ensures { contents result ≡ files_of files.items }
    {
        MemFiles { files }
    }

    /// The files again.
    pub fn into_vec(self) -> Vec<MemFile>
        ensures { files_of result.items ≡ contents self }
    {
        let MemFiles { files } = self;
        files
    }

    /// The file of this name, if there is one.
    pub fn find(&self, name: u64) -> Option<&MemFile>
        ensures file { option_map file_of (option_copied result) ≡ file_at (contents self.now) name }
        ensures name { IfSome result (λ file. file.now.name ≡ name) }
    {
        let place = self.place(name)?;
        Some(&self.files[place])
    }

    // Where the file of this name stands.
    fn place(&self, name: u64) -> Option<usize>
        ensures { result ≡ position (λ file. file.name == name) self.now.files.items }
    {
        self.files.iter().position(|file| file.name == name)
    }

    // Does a deed where its file is in the state that it needs, and says whether it did.
    pub(crate) fn apply(&mut self, alloc: Global, deed: &StoreDeed) -> Result<bool, AllocError>
        ensures ok { IfOk result (λ done. IsDoneIfFit (store_fits (contents self.old) deed.now)
            (store_done (contents self.old) deed.now)
            (contents self.old) done (contents self.new)) }
        ensures err { OnErr result (contents self.new ≡ contents self.old) }
    {
        match deed {
            StoreDeed::Create { name } => self.create(alloc, *name),
            StoreDeed::Append { name, bytes } => self.append(*name, bytes),
            StoreDeed::Finish { name } => Ok(self.finish(*name)),
            StoreDeed::Remove { name } => Ok(self.remove(*name)),
        }
    }

    fn create(&mut self, alloc: Global, name: u64) -> Result<bool, AllocError>
        ensures ok { IfOk result (λ done. IsDoneIfFit (is_none (file_at (contents self.old) name))
            (with_file (contents self.old) name [] false)
            (contents self.old) done (contents self.new)) }
        ensures err { OnErr result (contents self.new ≡ contents self.old) }
    {
        if let Some(_place) = self.place(name) {
            return Ok(false);
        }
        self.files.push(MemFile {
            name,
            bytes: Vec::new(alloc),
            finished: false,
        })?;
        Ok(true)
    }

    fn append(&mut self, name: u64, bytes: &[u8]) -> Result<bool, AllocError>
        ensures ok { IfOk result (λ done. IsDoneIfFit (can_append (contents self.old) name bytes.now)
            (appended (contents self.old) name bytes.now)
            (contents self.old) done (contents self.new)) }
        ensures err { OnErr result (contents self.new ≡ contents self.old) }
    {
        let Some(place) = self.place(name) else {
            return Ok(false);
        };
        if !self.files[place].takes(bytes.len()) {
            return Ok(false);
        }
        self.files[place].bytes.extend_from_slice(bytes)?;
        Ok(true)
    }

    fn finish(&mut self, name: u64) -> bool
        ensures { IsDoneIfFit (is_begun (file_at (contents self.old) name))
            (with_file (contents self.old) name (file_bytes (file_at (contents self.old) name)) true)
            (contents self.old) result (contents self.new) }
    {
        let Some(place) = self.place(name) else {
            return false;
        };
        if self.files[place].finished {
            return false;
        }
        self.files[place].finished = true;
        true
    }

    fn remove(&mut self, name: u64) -> bool
        ensures { IsDoneIfFit true (remove (contents self.old) name) (contents self.old) result (contents self.new) }
    {
        self.files.retain(|file| file.name != name);
        true
    }
}

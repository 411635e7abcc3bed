ghost use Rattle.std.specs.Prelude.{◌≡◌, ◌≤◌};
ghost use Rattle.grid_outside.specs.Fault.{Rose};
ghost use Rattle.grid_file.specs.Untold.{untold_store};

use crate::folder::Folder;
use grid_outside::{Plugin, StoreFault};
use std::io;

/// A store that is a folder of the one in which the program was started. It is made at its first use, and each file
/// in it has its number in decimal as its name. Its first fault is told on standard error, with the file and the
/// system's reason.
#[derive(Drop)]
pub struct FolderStore {
    folder: Folder,
    last: u128,
    faults: u64,
}

impl FolderStore {
    /// The store in the folder of this name. No moment was given to it yet, and its folder is not looked for.
    pub fn new(rt: HostRuntime, name: String) -> FolderStore
        ensures last { result.last ≡ 0 }
        ensures faults { result.faults ≡ 0 }
    {
        FolderStore {
            folder: Folder::new(rt, name),
            last: 0,
            faults: 0,
        }
    }

    // A call on the file of this name failed.
    fn fault(&mut self, name: u64, failure: &io::Error) -> StoreFault
        ensures later { self.old.faults ≤ self.new.faults }
        ensures rose { Rose self.old.faults self.new.faults }
        ensures last { self.new.last ≡ self.old.last }
    {
        if self.faults == 0 {
            self.folder.report(name, failure);
        }
        self.faults = self.faults.saturating_add(1);
        StoreFault
    }
}

impl Plugin for FolderStore {
    ghost use Rattle.grid_outside.specs.Fault.{HasCause};

    ghost plugin = { λ s. untold_store s.faults s.last };

    fn create(&mut self, moment: u128, name: u64) -> Result<(), StoreFault> {
        self.last = moment;
        match self.folder.create(name) {
            Ok(()) => Ok(()),
            Err(failure) => Err(self.fault(name, &failure)),
        }
    }

    fn append(&mut self, moment: u128, name: u64, bytes: &[u8]) -> Result<(), StoreFault> {
        self.last = moment;
        match self.folder.append(name, bytes) {
            Ok(()) => Ok(()),
            Err(failure) => Err(self.fault(name, &failure)),
        }
    }

    fn finish(&mut self, moment: u128, name: u64) -> Result<(), StoreFault> {
        self.last = moment;
        match self.folder.finish(name) {
            Ok(()) => Ok(()),
            Err(failure) => Err(self.fault(name, &failure)),
        }
    }

    fn read(&mut self, name: u64, at: u64, buf: &mut [u8]) -> Result<usize, StoreFault> {
        match self.folder.read(name, at, buf) {
            Ok(count) => Ok(count),
            Err(failure) => Err(self.fault(name, &failure)),
        }
    }

    fn size(&mut self, name: u64) -> Result<u64, StoreFault> {
        match self.folder.size(name) {
            Ok(size) => Ok(size),
            Err(failure) => Err(self.fault(name, &failure)),
        }
    }

    fn remove(&mut self, moment: u128, name: u64) -> Result<(), StoreFault> {
        self.last = moment;
        match self.folder.remove(name) {
            Ok(()) => Ok(()),
            Err(failure) => Err(self.fault(name, &failure)),
        }
    }
}

ghost use Rattle.std.specs.Prelude.{◌≡◌, ◌≤◌, Some};
ghost use Rattle.grid_outside.specs.Fault.{Rose};
ghost use Rattle.grid_file.specs.Untold.{untold_disk};

use crate::lazy_file::LazyFile;
use grid_outside::{Disk, DiskFault};
use std::io;

/// A disk that is a file of the folder in which the program was started. It is opened at its first use, made then if it
/// is missing, and locked from then on. Where another process has it locked, every call faults.
#[derive(Drop)]
pub struct FileDisk {
    file: LazyFile,
    last: u128,
    faults: u64,
    failure: Option<io::Error>,
}

impl FileDisk {
    /// No moment was given to it yet, and its file is not opened.
    pub fn new(rt: HostRuntime, name: &'static str) -> FileDisk
        ensures last { result.last ≡ 0 }
        ensures faults { result.faults ≡ 0 }
    {
        FileDisk {
            file: LazyFile::new(rt, name),
            last: 0,
            faults: 0,
            failure: None,
        }
    }

    /// Why the last call failed that did, or `None` where none has.
    pub fn failure(&self) -> Option<io::Error>
        ensures { result ≡ self.now.failure }
    {
        self.failure
    }

    fn fault(&mut self, failure: io::Error) -> DiskFault
        ensures later { self.old.faults ≤ self.new.faults }
        ensures rose { Rose self.old.faults self.new.faults }
        ensures last { self.new.last ≡ self.old.last }
        ensures failure { self.new.failure ≡ Some failure }
    {
        self.failure = Some(failure);
        self.faults = self.faults.saturating_add(1);
        DiskFault
    }
}

impl Disk for FileDisk {
    ghost use Rattle.grid_outside.specs.Fault.{HasCause};

    ghost disk = { λ s. untold_disk s.faults s.last };

    fn len(&mut self) -> Result<u64, DiskFault> {
        match self.file.len() {
            Ok(len) => Ok(len),
            Err(failure) => Err(self.fault(failure)),
        }
    }

    fn read(&mut self, at: u64, buf: &mut [u8]) -> Result<usize, DiskFault> {
        match self.file.read(at, buf) {
            Ok(count) => Ok(count),
            Err(failure) => Err(self.fault(failure)),
        }
    }

    fn write_at(&mut self, moment: u128, at: u64, bytes: &[u8]) -> Result<(), DiskFault> {
        self.last = moment;
        match self.file.write(at, bytes) {
            Ok(()) => Ok(()),
            Err(failure) => Err(self.fault(failure)),
        }
    }

    fn cut(&mut self, moment: u128, len: u64) -> Result<(), DiskFault> {
        self.last = moment;
        match self.file.cut(len) {
            Ok(()) => Ok(()),
            Err(failure) => Err(self.fault(failure)),
        }
    }

    fn sync(&mut self, moment: u128) -> Result<(), DiskFault> {
        self.last = moment;
        match self.file.sync() {
            Ok(()) => Ok(()),
            Err(failure) => Err(self.fault(failure)),
        }
    }
}

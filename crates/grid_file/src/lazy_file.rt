ghost use Rattle.std.specs.Io.{ReadsAtMost};

use crate::reading::fill;
use std::fs::{File, OpenOptions, TryLockError};
use std::io::{self, ErrorKind};
use std::os::unix::fs::FileExt;

/// A file of the folder in which the program was started, which is opened when it is first needed, and made then if
/// it is missing.
///
/// It is locked while it is open, so that no other process that locks it, as this program does, works on it too. It is
/// synced with its folder before its first use, so that nothing of an earlier run is pending. Where one of these fails,
/// and after a sync that failed, every call fails, with the error of that time.
#[derive(Drop)]
pub struct LazyFile {
    rt: HostRuntime,
    name: &'static str,
    state: State,
}

#[derive(Drop)]
enum State {
    Unused,
    Open(File),
    Failed(io::Error),
}

impl LazyFile {
    /// Opens nothing yet.
    pub fn new(rt: HostRuntime, name: &'static str) -> LazyFile {
        LazyFile {
            rt,
            name,
            state: State::Unused,
        }
    }

    /// How many bytes the file has.
    pub fn len(&mut self) -> io::Result<u64> {
        Ok(self.file()?.metadata()?.len())
    }

    /// Fills the buffer from this place up to the end of the file, and answers how many bytes it gave.
    pub fn read(&mut self, at: u64, buf: &mut [u8]) -> io::Result<usize>
        ensures { ReadsAtMost result buf.new }
    {
        fill(self.file()?, at, buf)
    }

    /// Writes all the bytes from this place on.
    pub fn write(&mut self, at: u64, bytes: &[u8]) -> io::Result<()> {
        self.file()?.write_all_at(bytes, at)
    }

    /// Makes the file as long as this.
    pub fn cut(&mut self, len: u64) -> io::Result<()> {
        self.file()?.set_len(len)
    }

    /// Has the system write all that is pending.
    pub fn sync(&mut self) -> io::Result<()> {
        let done = self.file()?.sync_all();
        if let Err(error) = done {
            self.state = State::Failed(error);
        }
        done
    }

    fn file(&mut self) -> io::Result<&File> {
        if matches!(&self.state, State::Unused) {
            self.state = match opened(&self.rt, self.name) {
                Ok(file) => State::Open(file),
                Err(error) => State::Failed(error),
            };
        }
        match &self.state {
            State::Open(file) => Ok(file),
            State::Failed(error) => Err(*error),
            State::Unused => Err(io::Error::from(ErrorKind::Other)),
        }
    }
}

// Opens or makes the file, locks it, and syncs it and its folder.
fn opened(rt: &HostRuntime, name: &str) -> io::Result<File> {
    let mut options = OpenOptions::new();
    options.read(true).write(true).create(true);
    let file = options.open(rt, name)?;
    lock(&file)?;
    file.sync_all()?;
    File::open(rt, ".")?.sync_all()?;
    Ok(file)
}

// Takes the exclusive lock of the file, which the system takes back when the file is closed, also by a kill.
fn lock(file: &File) -> io::Result<()> {
    match file.try_lock() {
        Ok(()) => Ok(()),
        Err(TryLockError::WouldBlock) => {
            Err(io::Error::new(ErrorKind::WouldBlock, "locked by another process"))
        }
        Err(TryLockError::Error(error)) => Err(error),
    }
}

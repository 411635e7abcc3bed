ghost use Rattle.std.specs.Io.{ReadsAtMost};

use crate::reading::fill;
use crate::reporting::report;
use std::fs::{self, File, OpenOptions};
use std::io::{self, ErrorKind, Write};

/// A folder of files whose names are numbers in decimal. It is looked for when it is first needed, and made then if
/// it is missing. Where that fails, every call fails, with the error of that time.
#[derive(Drop)]
pub(crate) struct Folder {
    rt: HostRuntime,
    name: String,
    state: State,
    // The files that were created here and are not finished.
    begun: Vec<u64>,
}

#[derive(Clone, Copy)]
enum State {
    Unused,
    There,
    Failed(io::Error),
}

impl Folder {
    /// Looks for nothing yet.
    pub(crate) fn new(rt: HostRuntime, name: String) -> Folder {
        Folder {
            rt,
            name,
            state: State::Unused,
            begun: Vec::new(rt.alloc()),
        }
    }

    /// Makes an empty file. It fails where one of this name is there.
    pub(crate) fn create(&mut self, name: u64) -> io::Result<()> {
        let path = self.path(name)?;
        OpenOptions::new()
            .write(true)
            .create_new(true)
            .open(&self.rt, path.as_str())?;
        self.begun.push(name).map_err(no_memory)?;
        Ok(())
    }

    /// Writes the bytes at the end of a file that was created here and is not finished. After a failure no call goes
    /// on with the file.
    pub(crate) fn append(&mut self, name: u64, bytes: &[u8]) -> io::Result<()> {
        let path = self.path(name)?;
        self.take_begun(name)?;
        let mut file = OpenOptions::new()
            .append(true)
            .open(&self.rt, path.as_str())?;
        file.write_all(bytes)?;
        self.begun.push(name).map_err(no_memory)?;
        Ok(())
    }

    /// Has the system write a file that was created here, and the folder's own list of names.
    pub(crate) fn finish(&mut self, name: u64) -> io::Result<()> {
        let path = self.path(name)?;
        self.take_begun(name)?;
        File::open(&self.rt, path.as_str())?.sync_all()?;
        self.sync()
    }

    /// Fills the buffer from this place of the file up to its end, and answers how many bytes it gave.
    pub(crate) fn read(&mut self, name: u64, at: u64, buf: &mut [u8]) -> io::Result<usize>
        ensures { ReadsAtMost result buf.new }
    {
        let path = self.path(name)?;
        fill(&File::open(&self.rt, path.as_str())?, at, buf)
    }

    /// How many bytes the file has.
    pub(crate) fn size(&mut self, name: u64) -> io::Result<u64> {
        let path = self.path(name)?;
        Ok(fs::metadata(&self.rt, path.as_str())?.len())
    }

    /// Takes a file away, if it is there, and has the system write the folder's own list of names.
    pub(crate) fn remove(&mut self, name: u64) -> io::Result<()> {
        let path = self.path(name)?;
        let _ = self.take_begun(name);
        match fs::remove_file(&self.rt, path.as_str()) {
            Ok(()) => {}
            Err(error) if error.kind() == ErrorKind::NotFound => {}
            Err(error) => return Err(error),
        }
        self.sync()
    }

    /// Tells people on standard error that a call on the file of this name failed, and why.
    pub(crate) fn report(&self, name: u64, failure: &io::Error) {
        report(&self.rt, format_args!("{}/{name}", self.name), failure);
    }

    // The begun file of this name is no longer among them.
    fn take_begun(&mut self, name: u64) -> io::Result<()> {
        match self.begun.iter().position(|begun| *begun == name) {
            Some(place) => {
                self.begun.swap_remove(place);
                Ok(())
            }
            None => Err(io::Error::from(ErrorKind::NotFound)),
        }
    }

    // The path of the file of this name, once the folder is there.
    fn path(&mut self, name: u64) -> io::Result<String> {
        if matches!(self.state, State::Unused) {
            self.state = match found(&self.rt, self.name.as_str()) {
                Ok(()) => State::There,
                Err(error) => State::Failed(error),
            };
        }
        match self.state {
            State::There => format!(in self.rt.alloc(); "{}/{}", self.name, name).map_err(
                no_memory,
            ),
            State::Failed(error) => Err(error),
            State::Unused => Err(io::Error::from(ErrorKind::Other)),
        }
    }

    fn sync(&self) -> io::Result<()> {
        File::open(&self.rt, self.name.as_str())?.sync_all()
    }
}

// Finds or makes the folder, and syncs the one in which it stands, so that it stays there.
fn found(rt: &HostRuntime, name: &str) -> io::Result<()> {
    match fs::create_dir(rt, name) {
        Ok(()) => {}
        Err(error) if error.kind() == ErrorKind::AlreadyExists => {}
        Err(error) => return Err(error),
    }
    File::open(rt, ".")?.sync_all()
}

fn no_memory<E: Drop>(_: E) -> io::Error {
    io::Error::from(ErrorKind::OutOfMemory)
}

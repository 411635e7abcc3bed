use std::fs::File;
use std::io;

/// Keeps files from the numbers of standard input, output and error while it is held.
///
/// Where the program is started with one of these closed, the next file that is opened takes its number, and what is
/// written there would be written into that file. So the folder in which the program was started is opened in their
/// place, before any file: it can be neither read nor written, and what is asked of a closed stream fails.
#[derive(Drop)]
pub struct StreamGuard {
    first: File,
    second: File,
    third: File,
}

impl StreamGuard {
    /// Opens the folder once for each of the three. It fails where the folder cannot be opened, and then no disk can be
    /// had either.
    pub fn new(rt: &HostRuntime) -> io::Result<StreamGuard> {
        let first = File::open(rt, ".")?;
        let second = File::open(rt, ".")?;
        let third = File::open(rt, ".")?;
        Ok(StreamGuard {
            first,
            second,
            third,
        })
    }
}

ghost use Rattle.std.specs.Prelude.{◌≡◌, ◌≤◌, length};

use crate::stdin_source::read_once;
use crate::{FileDisk, FolderStore, RealAmbient, StdinSource, StdoutSink, StreamGuard, reason};
use grid_outside::{Ambient, Disk, DiskFault, Plugin, Sink, Source, StoreFault};
use std::fs;
use std::io::{self, ErrorKind, Read};
use std::test::Fail;

#[test]
fn a_disk_is_kept_in_its_file(rt: HostRuntime) -> Result<(), Fail> {
    let name = "file-disk-of-a-test";
    let _ = fs::remove_file(&rt, name);
    let mut disk = FileDisk::new(rt, name);
    assert_eq!(rt; disk.len(), Ok(0));
    assert_eq!(rt; disk.write_at(1, 0, b"abcdef"), Ok(()));
    assert_eq!(rt; disk.write_at(2, 2, b"xy"), Ok(()));
    assert_eq!(rt; disk.cut(3, 5), Ok(()));
    assert_eq!(rt; disk.sync(4), Ok(()));
    drop(disk);
    let mut again = FileDisk::new(rt, name);
    let mut buf = [0u8; 8];
    assert_eq!(rt; again.len(), Ok(5));
    assert_eq!(rt; again.read(1, &mut buf), Ok(4));
    assert_eq!(rt; buf, *b"bxye\0\0\0\0");
    assert_eq!(rt; again.read(7, &mut buf), Ok(0));
    fs::remove_file(&rt, name)?;
    Ok(())
}

#[test]
fn a_file_is_of_one_disk_at_a_time(rt: HostRuntime) -> Result<(), Fail> {
    let name = "shared-file-of-a-test";
    let _ = fs::remove_file(&rt, name);
    let mut holder = FileDisk::new(rt, name);
    assert_eq!(rt; holder.write_at(1, 0, b"abc"), Ok(()));
    let mut late = FileDisk::new(rt, name);
    let mut buf = [0u8; 8];
    assert_eq!(rt; late.len(), Err(DiskFault));
    assert_eq!(rt; late.read(0, &mut buf), Err(DiskFault));
    assert_eq!(rt; late.write_at(1, 0, b"x"), Err(DiskFault));
    assert_eq!(rt; late.cut(2, 0), Err(DiskFault));
    assert_eq!(rt; late.sync(3), Err(DiskFault));
    assert_eq!(rt;
        words_of(rt, late.failure())?.as_str(),
        "locked by another process"
    );
    assert_eq!(rt; holder.len(), Ok(3));
    assert!(rt; holder.failure().is_none());
    drop(holder);
    assert_eq!(rt; late.len(), Err(DiskFault));
    let mut next = FileDisk::new(rt, name);
    assert_eq!(rt; next.read(0, &mut buf), Ok(3));
    assert_eq!(rt; buf, *b"abc\0\0\0\0\0");
    fs::remove_file(&rt, name)?;
    Ok(())
}

// Why a call failed, in words, and none where none did.
fn words_of(rt: HostRuntime, failure: Option<io::Error>) -> Result<String, Fail> {
    match failure {
        Some(error) => Ok(reason(rt.alloc(), &error)?),
        None => Ok(String::new(rt.alloc())),
    }
}

#[test]
fn a_file_that_cannot_be_had_faults_at_each_call(rt: HostRuntime) -> Result<(), Fail> {
    let mut disk = FileDisk::new(rt, "no-folder-of-this-name/file");
    let mut buf = [0u8; 8];
    assert_eq!(rt; disk.len(), Err(DiskFault));
    assert_eq!(rt; disk.read(0, &mut buf), Err(DiskFault));
    assert_eq!(rt; disk.write_at(1, 0, b"a"), Err(DiskFault));
    assert_eq!(rt; disk.cut(2, 0), Err(DiskFault));
    assert_eq!(rt; disk.sync(3), Err(DiskFault));
    assert_eq!(rt;
        words_of(rt, disk.failure())?.as_str(),
        "No such file or directory"
    );
    Ok(())
}

// It is interrupted, gives one byte, and fails from then on.
#[derive(Drop)]
struct Stumbling {
    calls: u8,
}

impl Read for Stumbling {
    fn read(&mut self, buf: &mut [u8]) -> io::Result<usize> {
        self.calls = self.calls.saturating_add(1);
        match self.calls {
            1 => Err(io::Error::from(ErrorKind::Interrupted)),
            2 if buf.len() > 0 => {
                buf[0] = b'a';
                Ok(1)
            }
            _ => Err(io::Error::from(ErrorKind::Other)),
        }
    }
}

#[test]
fn standard_input_is_read_in_parts(rt: HostRuntime) {
    let mut buf = [0u8; 4];
    let mut reader = Stumbling { calls: 0 };
    assert_eq!(rt; read_once(&mut reader, &mut buf).ok(), Some(1));
    assert_eq!(rt; buf, *b"a\0\0\0");
    assert_eq!(rt; read_once(&mut reader, &mut buf).ok(), None);
    assert_eq!(rt; StdinSource::new(rt).read(&mut []), Ok(0));
}

#[test]
fn standard_output_takes_what_is_put(rt: HostRuntime) {
    let guard = StreamGuard::new(&rt);
    assert!(rt; guard.is_ok());
    let mut sink = StdoutSink::new(rt);
    assert_eq!(rt; sink.put(1, b""), Ok(()));
    assert_eq!(rt; sink.put(2, b"a line of a test\n"), Ok(()));
}

#[test]
fn the_clock_goes_and_words_differ(rt: HostRuntime) {
    let mut ambient = RealAmbient::new(rt);
    let first = ambient.now();
    assert!(rt; first >= 1_700_000_000);
    assert!(rt; ambient.now() >= first);
    assert!(rt; ambient.word() != ambient.word());
}

#[test]
fn files_are_kept_in_their_folder(rt: HostRuntime) -> Result<(), Fail> {
    let folder = "folder-store-of-a-test";
    let _ = fs::remove_file(&rt, "folder-store-of-a-test/7");
    let mut store = FolderStore::new(rt, String::from_str(rt.alloc(), folder)?);
    assert_eq!(rt; store.create(1, 7), Ok(()));
    assert_eq!(rt; store.create(2, 7), Err(StoreFault));
    assert_eq!(rt; store.append(3, 7, b"abc"), Ok(()));
    assert_eq!(rt; store.append(4, 7, b"de"), Ok(()));
    assert_eq!(rt; store.finish(5, 7), Ok(()));
    assert_eq!(rt; store.append(6, 7, b"f"), Err(StoreFault));
    assert_eq!(rt; store.finish(7, 8), Err(StoreFault));
    let mut again = FolderStore::new(rt, String::from_str(rt.alloc(), folder)?);
    let mut buf = [0u8; 8];
    assert_eq!(rt; again.size(7), Ok(5));
    assert_eq!(rt; again.read(7, 1, &mut buf), Ok(4));
    assert_eq!(rt; buf, *b"bcde\0\0\0\0");
    assert_eq!(rt; again.read(7, 5, &mut buf), Ok(0));
    assert_eq!(rt; again.remove(8, 7), Ok(()));
    assert_eq!(rt; again.read(7, 0, &mut buf), Err(StoreFault));
    assert_eq!(rt; again.size(7), Err(StoreFault));
    assert_eq!(rt; again.remove(9, 7), Ok(()));
    fs::remove_dir(&rt, folder)?;
    Ok(())
}

#[test]
fn a_folder_that_cannot_be_had_faults_at_each_call(rt: HostRuntime) -> Result<(), Fail> {
    let name = String::from_str(rt.alloc(), "no-folder-of-this-name/vault")?;
    let mut store = FolderStore::new(rt, name);
    let mut buf = [0u8; 8];
    assert_eq!(rt; store.create(1, 7), Err(StoreFault));
    assert_eq!(rt; store.append(2, 7, b"a"), Err(StoreFault));
    assert_eq!(rt; store.finish(3, 7), Err(StoreFault));
    assert_eq!(rt; store.read(7, 0, &mut buf), Err(StoreFault));
    assert_eq!(rt; store.size(7), Err(StoreFault));
    assert_eq!(rt; store.remove(4, 7), Err(StoreFault));
    Ok(())
}

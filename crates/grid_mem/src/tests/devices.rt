ghost use Rattle.std.specs.Prelude.{◌≡◌};

use crate::{
    Lies, MemAmbient, MemDisk, MemFile, MemFiles, MemSink, MemSource, MemStore, StoreRecord,
};
use grid_outside::{
    Ambient, Disk, DiskFault, Plugin, Sink, SinkFault, Source, SourceFault, StoreFault,
};
use std::alloc::{AllocError, Global};
use std::cell::RefCell;
use std::rc::Rc;
use std::test::Fail;

#[test]
fn a_disk_is_written_cut_and_read(rt: HostRuntime) -> Result<(), Fail> {
    let alloc = rt.alloc();
    let mut disk = MemDisk::new(alloc, b"abc".to_vec(alloc)?, Vec::new(alloc))?;
    assert_eq!(rt; disk.bytes().len(), 3);
    disk.write_at(1, 2, b"xyz")?;
    assert_eq!(rt; disk.bytes(), b"abxyz".as_slice());
    disk.cut(2, 4)?;
    disk.sync(3)?;
    assert_eq!(rt; disk.len()?, 4);
    let mut buf = [0u8; 8];
    assert_eq!(rt; disk.read(1, &mut buf)?, 3);
    assert_eq!(rt; buf, *b"bxy\0\0\0\0\0");
    disk.leaves();
    Ok(())
}

#[test]
fn a_disk_fails_at_its_listed_calls(rt: HostRuntime) -> Result<(), Fail> {
    let alloc = rt.alloc();
    let mut disk = MemDisk::new(alloc, b"abc".to_vec(alloc)?, [1, 3].to_vec(alloc)?)?;
    assert_eq!(rt; disk.len(), Err(DiskFault));
    assert_eq!(rt; disk.bytes().len(), 3);
    disk.write_at(1, 0, b"x")?;
    assert_eq!(rt; disk.sync(2), Err(DiskFault));
    disk.sync(3)?;
    assert_eq!(rt; disk.calls().len(), 3);
    assert!(rt; !disk.calls()[1].done);
    assert_eq!(rt; disk.bytes(), b"xbc".as_slice());
    Ok(())
}

#[test]
fn a_source_gives_what_is_left(rt: HostRuntime) -> Result<(), Fail> {
    let alloc = rt.alloc();
    let mut source = MemSource::new(b"abcde".to_vec(alloc)?, [2].to_vec(alloc)?);
    let mut buf = [0u8; 3];
    assert_eq!(rt; source.read(&mut buf)?, 3);
    assert_eq!(rt; buf, *b"abc");
    assert_eq!(rt; source.read(&mut buf), Err(SourceFault));
    assert_eq!(rt; source.read(&mut buf)?, 2);
    assert_eq!(rt; buf, *b"dec");
    assert_eq!(rt; source.read(&mut buf)?, 0);
    Ok(())
}

#[test]
fn a_put_that_fails_adds_half(rt: HostRuntime) -> Result<(), Fail> {
    let alloc = rt.alloc();
    let mut sink = MemSink::new(alloc, b"a".to_vec(alloc)?, [2].to_vec(alloc)?)?;
    sink.put(1, b"bc")?;
    assert_eq!(rt; sink.put(2, b"defgh"), Err(SinkFault));
    sink.put(3, b"i")?;
    assert_eq!(rt; sink.bytes(), b"abcdei".as_slice());
    sink.leaves();
    Ok(())
}

#[test]
fn an_ambient_repeats_its_last_values(rt: HostRuntime) -> Result<(), Fail> {
    let alloc = rt.alloc();
    let mut ambient = MemAmbient::new([5, 7].to_vec(alloc)?, 9, [1].to_vec(alloc)?, 0);
    for want in [5, 7, 9, 9] {
        assert_eq!(rt; ambient.now(), want);
    }
    for want in [1, 0, 0] {
        assert_eq!(rt; ambient.word(), want);
    }
    Ok(())
}

// A file of these bytes.
fn finished(alloc: Global, name: u64, bytes: &[u8; 3]) -> Result<MemFile, AllocError> {
    Ok(MemFile {
        name,
        bytes: bytes.to_vec(alloc)?,
        finished: true,
    })
}

// A file is begun, and its second append is to fail.
fn begin<P: Plugin>(store: &mut P) -> [Result<(), StoreFault>; 3]
    requires { (P.plugin store.old).last ≡ 0 }
    ensures { (P.plugin store.new).last ≡ 3 }
{
    let created = store.create(1, 7);
    let appended = store.append(2, 7, b"ab");
    let lost = store.append(3, 7, b"lost");
    [created, appended, lost]
}

// That file is finished, another one is removed, and one that is not there.
fn end<P: Plugin>(store: &mut P) -> [Result<(), StoreFault>; 4]
    requires { (P.plugin store.old).last ≡ 3 }
{
    let appended = store.append(4, 7, b"c");
    let finished = store.finish(5, 7);
    let removed = store.remove(6, 4);
    let absent = store.remove(7, 4);
    [appended, finished, removed, absent]
}

#[test]
fn a_watch_sees_the_calls(rt: HostRuntime) -> Result<(), Fail> {
    let alloc = rt.alloc();
    let start = MemFiles::new(vec![in alloc; finished(alloc, 4, b"old")?]?);
    let watch = Rc::new(alloc, RefCell::new(StoreRecord::new(alloc, start.clone()?)))?;
    let store = MemStore::watched(alloc, start, [3].to_vec(alloc)?, watch.clone()?)?;
    let mut store: Box<dyn Plugin> = Box::new(alloc, store)?;
    assert_eq!(rt; begin(&mut store), [Ok(()), Ok(()), Err(StoreFault)]);
    assert_eq!(rt; end(&mut store), [Ok(()), Ok(()), Ok(()), Ok(())]);
    let record = watch.try_borrow()?;
    assert_eq!(rt; record.calls.len(), 7);
    let files = record.files(alloc)?;
    assert!(rt; files.find(4).is_none());
    let file = files.find(7).ok_or("no file")?;
    assert_eq!(rt; file.bytes.as_slice(), b"abc".as_slice());
    assert!(rt; file.finished);
    assert_eq!(rt; files.into_vec().len(), 1);
    Ok(())
}

#[test]
fn a_store_lies_from_a_call_on(rt: HostRuntime) -> Result<(), Fail> {
    let alloc = rt.alloc();
    let files = MemFiles::new(vec![in alloc; finished(alloc, 4, b"old")?]?);
    let lies = Lies {
        names: [4].to_vec(alloc)?,
        from: 3,
    };
    let mut store = MemStore::new(alloc, files, Vec::new(alloc))?.lying(lies);
    let mut buf = [0u8; 2];
    assert_eq!(rt; store.read(4, 1, &mut buf)?, 2);
    assert_eq!(rt; buf, *b"ld");
    assert_eq!(rt; store.size(5), Err(StoreFault));
    assert_eq!(rt; store.size(4)?, 0);
    assert_eq!(rt; store.read(4, 0, &mut buf)?, 0);
    assert!(rt; store.files().find(4).is_some());
    store.leaves();
    Ok(())
}

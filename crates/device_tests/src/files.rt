ghost use Rattle.std.specs.Prelude.{◌≡◌, ℕ, ◌^◌, ◌<◌, [], ◌∷◌, length, IfOk, vec_len};
ghost use Rattle.grid_outside.specs.Device.{EachMember};
ghost use Rattle.grid_mem.specs.MemSink.{sink_of};
ghost use Rattle.grid_mem.specs.MemStore.{store_of};

use grid_mem::{Lies, MemFile, MemFiles, MemSink, MemStore};
use grid_model::{Digest, NewFiles};
use grid_outside::{Moments, Plugin, add_store};
use grid_vault::{Fault, NewFile, OldFile, SendError, Sent, remove, send, write_all};
use std::alloc::{AllocError, Global};
use std::test::Fail;

// The name of the file that is written and read.
const NAME: u64 = 7;

// The number of the request that is answered.
const REQUEST: u64 = 3;

// A store that holds this file, and whose calls of these numbers fail.
fn store_with(alloc: Global, bytes: &[u8], fails: &[u64]) -> Result<MemStore, AllocError>
    requires { length bytes.now < 2 ^ 32 }
    ensures { IfOk result (λ store. (store_of store).last ≡ 0) }
{
    let file = MemFile {
        name: NAME,
        bytes: bytes.to_vec(alloc)?,
        finished: true,
    };
    let files = MemFiles::new(vec![in alloc; file]?);
    MemStore::new(alloc, files, fails.to_vec(alloc)?)
}

// An empty store, whose calls of these numbers fail.
fn empty_store(alloc: Global, fails: &[u64]) -> Result<MemStore, AllocError>
    ensures { IfOk result (λ store. (store_of store).last ≡ 0) }
{
    MemStore::new(alloc, MemFiles::new(Vec::new(alloc)), fails.to_vec(alloc)?)
}

fn new_sink(alloc: Global, fails: &[u64]) -> Result<MemSink, AllocError>
    ensures { IfOk result (λ sink. (sink_of sink).last ≡ 0) }
{
    MemSink::new(alloc, Vec::new(alloc), fails.to_vec(alloc)?)
}

// The file in slot 0, as it is recorded.
fn recorded(bytes: &[u8]) -> OldFile
    ensures slot { result.slot ≡ 0 }
    ensures size { result.size ≡ length bytes.now }
{
    OldFile {
        slot: 0,
        name: NAME,
        number: 0,
        size: bytes.len() as u64,
        digest: Digest::of(bytes),
    }
}

// So many bytes.
fn letters(alloc: Global, count: usize) -> Result<Vec<u8>, AllocError>
    ensures { IfOk result (λ bytes. vec_len bytes ≡ count) }
{
    Ok(vec![in alloc; b'a'; count]?)
}

// Bytes as data lines.
fn lines_of(alloc: Global, bytes: &[u8]) -> Result<Vec<u8>, Fail> {
    let mut lines = Vec::new(alloc);
    for part in bytes.chunks(65_536) {
        let words = format!(in alloc; "{REQUEST} data {}\n", part.len())?;
        lines.extend_from_slice(words.as_bytes())?;
        lines.extend_from_slice(part)?;
        lines.push(b'\n')?;
    }
    Ok(lines)
}

// Writes the bytes into a file of slot 0, and sends it.
fn write_and_send(
    alloc: Global,
    stores: &mut Vec<Box<dyn Plugin>>,
    sink: &mut MemSink,
    bytes: &[u8],
) -> Result<Sent, Fail>
    requires one { vec_len stores.old ≡ 1 }
    requires fresh { EachMember (λ k store. (⟦<Box<dyn Plugin> as Plugin>⟧.plugin store).last ≡ 0) stores.old.items }
    requires sink { (sink_of sink.old).last ≡ 0 }
    requires short { length bytes.now < 2 ^ 32 }
{
    let file = NewFile {
        slot: 0,
        name: NAME,
    };
    let files = NewFiles::from_vec(vec![in alloc; file]?);
    let mut moments = Moments::start();
    write_all(stores, &mut moments, &files, bytes)?;
    Ok(send(alloc, stores, &mut moments, &recorded(bytes), REQUEST, sink)?)
}

#[test]
fn what_is_written_is_sent(rt: HostRuntime) -> Result<(), Fail> {
    let alloc = rt.alloc();
    for size in [0, 1, 65_535, 65_536, 65_537, 200_000] {
        let bytes = letters(alloc, size)?;
        assert!(rt; bytes.len() < 300_000);
        let mut stores: Vec<Box<dyn Plugin>> = Vec::new(alloc);
        add_store(&mut stores, Box::new(alloc, empty_store(alloc, &[])?)?)?;
        let mut sink = new_sink(alloc, &[])?;
        assert!(rt; stores.len() == 1);
        let sent = write_and_send(alloc, &mut stores, &mut sink, &bytes)?;
        assert_eq!(rt; sent, Sent::Whole);
        assert_eq!(rt; sink.bytes(), lines_of(alloc, &bytes)?.as_slice());
    }
    Ok(())
}

// Writes a file into each of two slots, and removes the second.
fn write_two(
    alloc: Global,
    stores: &mut Vec<Box<dyn Plugin>>,
    bytes: &[u8],
) -> Result<Result<(), Fault>, AllocError>
    requires two { vec_len stores.old ≡ 2 }
    requires fresh { EachMember (λ k store. (⟦<Box<dyn Plugin> as Plugin>⟧.plugin store).last ≡ 0) stores.old.items }
    requires short { length bytes.now < 2 ^ 32 }
{
    let first = NewFile {
        slot: 0,
        name: NAME,
    };
    let second = NewFile { slot: 1, name: 9 };
    let files = NewFiles::from_vec(vec![in alloc; first, second]?);
    let mut moments = Moments::start();
    match write_all(stores, &mut moments, &files, bytes) {
        Ok(()) => Ok(remove(stores, &mut moments, &second)),
        Err(fault) => Ok(Err(fault)),
    }
}

#[test]
fn a_write_or_a_removal_fails_by_its_slot(rt: HostRuntime) -> Result<(), Fail> {
    let alloc = rt.alloc();
    let bytes = letters(alloc, 65_537)?;
    // A file takes four calls: create, two appends, finish. The second is removed by a fifth.
    for (first_fails, second_fails, failed) in [
        (1, 0, Some(0)),
        (2, 0, Some(0)),
        (3, 0, Some(0)),
        (4, 0, Some(0)),
        (0, 1, Some(1)),
        (0, 4, Some(1)),
        (0, 5, Some(1)),
        (5, 6, None),
    ] {
        let mut stores: Vec<Box<dyn Plugin>> = Vec::new(alloc);
        let store = empty_store(alloc, &[first_fails])?;
        add_store(&mut stores, Box::new(alloc, store)?)?;
        let store = empty_store(alloc, &[second_fails])?;
        add_store(&mut stores, Box::new(alloc, store)?)?;
        assert!(rt; stores.len() == 2);
        let fault = write_two(alloc, &mut stores, &bytes)?.err();
        assert_eq!(rt; fault.map(|fault| fault.slot), failed);
    }
    Ok(())
}

// Sends a file from the store in slot 0.
fn send_first(
    alloc: Global,
    stores: &mut Vec<Box<dyn Plugin>>,
    from: &OldFile,
    sink: &mut MemSink,
) -> Result<Sent, SendError>
    requires one { vec_len stores.old ≡ 1 }
    requires fresh { EachMember (λ k store. (⟦<Box<dyn Plugin> as Plugin>⟧.plugin store).last ≡ 0) stores.old.items }
    requires slot { from.now.slot ≡ 0 }
    requires size { from.now.size < 2 ^ 64 }
    requires sink { (sink_of sink.old).last ≡ 0 }
{
    let mut moments = Moments::start();
    send(alloc, stores, &mut moments, from, REQUEST, sink)
}

// What was read of slot 0 is these bytes, which are not what is recorded.
fn bad(bytes: &[u8], parts: u64) -> Sent {
    Sent::Bad {
        slot: 0,
        len: bytes.len() as u64,
        found: Digest::of(bytes),
        parts,
    }
}

#[test]
fn a_file_is_compared_with_what_is_recorded(rt: HostRuntime) -> Result<(), Fail> {
    let alloc = rt.alloc();
    let failed = Sent::Fault { slot: 0, parts: 0 };
    let cases: [(&[u8], &[u8], u64, Sent, &[u8]); 9] = [
        (b"abc", b"abc", 0, Sent::Whole, b"3 data 3\nabc\n"),
        (b"", b"", 0, Sent::Whole, b""),
        (b"ab", b"abc", 0, bad(b"ab", 1), b"3 data 2\nab\n"),
        (b"abcde", b"abc", 0, bad(b"abcd", 1), b"3 data 3\nabc\n"),
        (b"abd", b"abc", 0, bad(b"abd", 1), b"3 data 3\nabd\n"),
        (b"", b"abc", 0, bad(b"", 0), b""),
        (b"a", b"", 0, bad(b"a", 0), b""),
        // The first read, and the one that finds the end.
        (b"abc", b"abc", 1, failed, b""),
        (b"abc", b"abc", 2, failed, b""),
    ];
    for (held, record, fails, sent, bytes) in cases {
        let mut stores: Vec<Box<dyn Plugin>> = Vec::new(alloc);
        assert!(rt; held.len() < 9 && record.len() < 9);
        let store = store_with(alloc, held, &[fails])?;
        add_store(&mut stores, Box::new(alloc, store)?)?;
        assert!(rt; stores.len() == 1);
        let mut sink = new_sink(alloc, &[])?;
        assert_eq!(rt;
            send_first(alloc, &mut stores, &recorded(record), &mut sink)?,
            sent
        );
        assert_eq!(rt; sink.bytes(), bytes);
    }
    Ok(())
}

#[test]
fn a_lie_is_bad_and_no_file_is_a_fault(rt: HostRuntime) -> Result<(), Fail> {
    let alloc = rt.alloc();
    let lies = Lies {
        names: [NAME].to_vec(alloc)?,
        from: 1,
    };
    let store = store_with(alloc, b"abc", &[])?.lying(lies);
    let mut stores: Vec<Box<dyn Plugin>> = Vec::new(alloc);
    add_store(&mut stores, Box::new(alloc, store)?)?;
    assert!(rt; stores.len() == 1);
    let mut sink = new_sink(alloc, &[])?;
    let sent = send_first(alloc, &mut stores, &recorded(b"abc"), &mut sink)?;
    assert_eq!(rt; sent, bad(b"", 0));

    let mut stores: Vec<Box<dyn Plugin>> = Vec::new(alloc);
    add_store(&mut stores, Box::new(alloc, empty_store(alloc, &[])?)?)?;
    assert!(rt; stores.len() == 1);
    let mut sink = new_sink(alloc, &[])?;
    let sent = send_first(alloc, &mut stores, &recorded(b""), &mut sink)?;
    assert_eq!(rt; sent, Sent::Fault { slot: 0, parts: 0 });
    assert_eq!(rt; sink.bytes().len(), 0);
    Ok(())
}

#[test]
fn whole_parts_stand_before_a_fault(rt: HostRuntime) -> Result<(), Fail> {
    let alloc = rt.alloc();
    let bytes = letters(alloc, 65_539)?;
    let lines = lines_of(alloc, &bytes)?;
    let first = lines_of(alloc, &letters(alloc, 65_536)?)?.len();
    let second = lines_of(alloc, &letters(alloc, 3)?)?.len();
    // The reads of the store, and the puts on the sink. A put that fails adds the first half of its bytes.
    let cases: [(u64, u64, Result<Sent, SendError>, usize); 5] = [
        (0, 0, Ok(Sent::Whole), lines.len()),
        (1, 0, Ok(Sent::Fault { slot: 0, parts: 0 }), 0),
        (2, 0, Ok(Sent::Fault { slot: 0, parts: 1 }), first),
        (0, 1, Err(SendError::Sink), first / 2),
        (0, 2, Err(SendError::Sink), first + second / 2),
    ];
    for (read_fails, put_fails, sent, count) in cases {
        let mut stores: Vec<Box<dyn Plugin>> = Vec::new(alloc);
        let store = store_with(alloc, &bytes, &[read_fails])?;
        add_store(&mut stores, Box::new(alloc, store)?)?;
        assert!(rt; stores.len() == 1);
        let mut sink = new_sink(alloc, &[put_fails])?;
        assert_eq!(rt;
            send_first(alloc, &mut stores, &recorded(&bytes), &mut sink),
            sent
        );
        assert!(rt; count <= lines.len());
        assert_eq!(rt; sink.bytes(), &lines[..count]);
    }
    Ok(())
}

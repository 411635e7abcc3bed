use grid_model::Digest;
use row_codec::{CodecError, decode, encode};
use std::alloc::Global;
use std::process::Abort;
use std::test::Fail;

/// The bytes are read as what is shown so, and written again.
fn both_ways(rt: &impl Abort, alloc: Global, bytes: &[u8], shown: &str) -> Result<(), Fail> {
    let deltas = decode(alloc, bytes)?;
    let printed = format!(in alloc; "{:?}", deltas.as_slice())?;
    let written = encode(alloc, &deltas)?;
    assert_eq!(rt; (printed.as_str(), written.as_slice()), (shown, bytes));
    Ok(())
}

#[test]
fn changes_of_people_and_items(rt: HostRuntime) -> Result<(), Fail> {
    let alloc = rt.alloc();
    for (bytes, shown) in [
        (b"".as_slice(), "[]"),
        (
            b"\x01\0\0\0\0\0\0\0\x01Z\x10",
            "[Zone { name: Text { bytes: [90] }, stores: 16 }]",
        ),
        (
            b"\x02\0\0\0\x07\x03\0\0\0\0\0\0\0\x02ab",
            "[User(UserRow { id: 7, kind: Rodsgroup, name: Text { bytes: [97, 98] } })]",
        ),
        (
            b"\x03\0\0\0\x07\0\0\x01\x02",
            "[Member(MemberRow { group: 7, user: 258 })]",
        ),
        (
            b"\x04\xFF\xFF\xFF\xFF\0\0\0\0",
            "[NoMember(MemberRow { group: 4294967295, user: 0 })]",
        ),
        (
            b"\x05\0\0\0\0\0\0\0\x09\0\0\0\0\0\0\0\x01\0\0\0\0\0\0\0\x01c\x01",
            "[Collection(CollectionRow { id: 9, parent: 1, name: Text { bytes: [99] }, inherit: true })]",
        ),
        (
            b"\x06\x01\0\0\0\0\0\0\0",
            "[NoCollection { id: 72057594037927936 }]",
        ),
        (b"\x08\0\0\0\0\0\0\0\x05", "[NoObject { id: 5 }]"),
        (
            b"\x0A\0\0\0\0\0\0\0\x05\0\0\0\x03",
            "[NoReplica { object: 5, number: 3 }]",
        ),
        (
            b"\x0B\x04\0\0\0\0\0\0\0\x02\0\0\0\0\0\0\0\x01a\0\0\0\0\0\0\0\x01v\0\0\0\0\0\0\0\0",
            "[Triple(TripleRow { kind: User, id: 2, attribute: Text { bytes: [97] }, value: Text { bytes: [118] }, unit: Text { bytes: [] } })]",
        ),
        (
            b"\x0C\x03\0\0\0\0\0\0\0\x02\0\0\0\0\0\0\0\x01a\0\0\0\0\0\0\0\x01v\0\0\0\0\0\0\0\0",
            "[NoTriple(TripleRow { kind: Resource, id: 2, attribute: Text { bytes: [97] }, value: Text { bytes: [118] }, unit: Text { bytes: [] } })]",
        ),
        (
            b"\x0D\x01\0\0\0\0\0\0\0\x05\0\0\0\x07\x03",
            "[Entry(EntryRow { kind: Object, id: 5, user: 7, level: Own })]",
        ),
        (
            b"\x0E\x02\0\0\0\0\0\0\0\x05\0\0\0\x07",
            "[NoEntry { kind: Collection, id: 5, user: 7 }]",
        ),
        (
            b"\x0F\0\0\0\x01\0\0\0\0\0\0\0\x01d\x01\x0F\0\0\0\0\x02\0\0\0\x03",
            "[Resource(ResourceRow { id: 1, name: Text { bytes: [100] }, kind: Storage, slot: 15, up: false, parent: 2, place: 3 })]",
        ),
    ] {
        both_ways(&rt, alloc, bytes, shown)?;
    }
    Ok(())
}

#[test]
fn changes_of_the_whole_catalogue(rt: HostRuntime) -> Result<(), Fail> {
    let alloc = rt.alloc();
    for (bytes, shown) in [
        (
            b"\x10\0\0\0\0\0\0\0\x02r\n".as_slice(),
            "[Rules { text: Text { bytes: [114, 10] } }]",
        ),
        (
            b"\x11\0\0\0\0\0\0\0\x05\x02",
            "[Orphan(OrphanRow { vault: 5, slot: 2 })]",
        ),
        (b"\x12\0\0\0\0\0\0\0\x05", "[NoOrphan { vault: 5 }]"),
        (
            b"\x13\0\0\0\0\0\0\0\x01\0\0\0\0\0\0\0\x02\0\0\0\0\0\0\0\x03",
            "[Numbers(Numbers { next_vault: 1, run: 2, last: 3 })]",
        ),
        (b"\x15", "[NoPending]"),
        (b"\x15\x15", "[NoPending, NoPending]"),
        (
            b"\x14\0\0\0\0\0\0\0\x01\0\0\0\0\0\0\0\x02\0\0\0\x03\0\0\0\0\0\0\0\x01l\0\0\0\0\0\0\0\x02\x04\x02\x07\0\0\0\0\0\0\0\x08\0\0\0\0\0\0\0\x01\0\0\0\0\0\0\0\x01c\0\0\0\0\0\0\0\0\0\0\0\0\0\0\0\x01f\0\0\0\0\0\0\0\0\0",
            "[Pending(Pending { run: 1, number: 2, user: 3, line: Text { bytes: [108] }, marks: Items { items: [Stop, Fault { slot: 7, parts: 8 }] }, passed: Items { items: [Passed { call: Call { name: Text { bytes: [99] }, args: Items { items: [] } }, failure: Text { bytes: [102] } }] }, running: None, undo: Items { items: [] } })]",
        ),
        (
            b"\x14\0\0\0\0\0\0\0\x01\0\0\0\0\0\0\0\x02\0\0\0\x03\0\0\0\0\0\0\0\x01l\0\0\0\0\0\0\0\x01\x01\0\0\0\0\0\0\0\x09\0\0\0\0\0\0\0\x0A\0\0\0\0\0\0\0\0\0\0\0\0\0\0\0\0\x01\0\0\0\0\0\0\0\x01p\0\0\0\0\0\0\0\x01\0\0\0\0\0\0\0\x01w\0\0\0\0\0\0\0\x01\0\0\0\0\0\0\0\x01u\0\0\0\0\0\0\0\0",
            "[Pending(Pending { run: 1, number: 2, user: 3, line: Text { bytes: [108] }, marks: Items { items: [Ran { word: 9, now: 10, bad: Items { items: [] } }] }, passed: Items { items: [] }, running: Some(Call { name: Text { bytes: [112] }, args: Items { items: [Text { bytes: [119] }] } }), undo: Items { items: [Call { name: Text { bytes: [117] }, args: Items { items: [] } }] } })]",
        ),
    ] {
        both_ways(&rt, alloc, bytes, shown)?;
    }
    Ok(())
}

#[test]
fn changes_with_digests(rt: HostRuntime) -> Result<(), Fail> {
    let alloc = rt.alloc();
    let digest = Digest::from_bytes([b'd'; 32]);
    let object = format!(in alloc;
        "[Object(ObjectRow {{ id: 5, collection: 6, name: Text {{ bytes: [111] }}, size: 7, digest: {digest:?}, time: 8 }})]"
    )?;
    both_ways(
        &rt,
        alloc,
        b"\x07\0\0\0\0\0\0\0\x05\0\0\0\0\0\0\0\x06\0\0\0\0\0\0\0\x01o\0\0\0\0\0\0\0\x07dddddddddddddddddddddddddddddddd\0\0\0\0\0\0\0\x08",
        object.as_str(),
    )?;
    let replica = format!(in alloc;
        "[Replica(ReplicaRow {{ object: 5, number: 6, leaf: 7, good: true, size: 8, digest: {digest:?}, vault: 9 }})]"
    )?;
    both_ways(
        &rt,
        alloc,
        b"\x09\0\0\0\0\0\0\0\x05\0\0\0\x06\0\0\0\x07\x01\0\0\0\0\0\0\0\x08dddddddddddddddddddddddddddddddd\0\0\0\0\0\0\0\x09",
        replica.as_str(),
    )?;
    let pending = format!(in alloc;
        "[Pending(Pending {{ run: 1, number: 2, user: 3, line: Text {{ bytes: [] }}, marks: Items {{ items: [Bad {{ slot: 1, len: 2, found: {digest:?}, parts: 3 }}, Ran {{ word: 4, now: 5, bad: Items {{ items: [BadReplica {{ number: 6, len: 7, found: {digest:?} }}] }} }}] }}, passed: Items {{ items: [] }}, running: None, undo: Items {{ items: [] }} }})]"
    )?;
    both_ways(
        &rt,
        alloc,
        b"\x14\0\0\0\0\0\0\0\x01\0\0\0\0\0\0\0\x02\0\0\0\x03\0\0\0\0\0\0\0\0\0\0\0\0\0\0\0\x02\x03\x01\0\0\0\0\0\0\0\x02dddddddddddddddddddddddddddddddd\0\0\0\0\0\0\0\x03\x01\0\0\0\0\0\0\0\x04\0\0\0\0\0\0\0\x05\0\0\0\0\0\0\0\x01\0\0\0\x06\0\0\0\0\0\0\0\x07dddddddddddddddddddddddddddddddd\0\0\0\0\0\0\0\0\0\0\0\0\0\0\0\0\0",
        pending.as_str(),
    )?;
    Ok(())
}

#[test]
fn bytes_that_spell_nothing(rt: HostRuntime) -> Result<(), Fail> {
    for (bytes, at) in [
        // no such tag
        (b"\xFF".as_slice(), 0),
        (b"\0", 0),
        (b"\x16", 0),
        (b"\x15\x15\xFF\x15", 2),
        // a number that is cut short
        (b"\x12\0\0", 3),
        (b"\x03\0\0\0\x07\0\0", 7),
        // a text that is cut short, whatever its length is said to be, and the first byte that may not stand in one
        (b"\x01\0\0\0\0\0\0\0\x02Z", 10),
        (b"\x01\xFF\xFF\xFF\xFF\xFF\xFF\xFF\xFFZone", 13),
        (b"\x01\xFF\xFF\xFF\xFF\xFF\xFF\xFF\xFFZ\x7Fne", 10),
        (b"\x01\0\0\0\0\0\0\0\x02\n\x1F\x01", 9),
        (b"\x10\0\0\0\0\0\0\0\x03\n\n\x1F", 11),
        // a list of more members than are there
        (
            b"\x14\0\0\0\0\0\0\0\x01\0\0\0\0\0\0\0\x02\0\0\0\x03\0\0\0\0\0\0\0\0\x80\0\0\0\0\0\0\0\x04\x04",
            39,
        ),
        (
            b"\x14\0\0\0\0\0\0\0\x01\0\0\0\0\0\0\0\x02\0\0\0\x03\0\0\0\0\0\0\0\0\x80\0\0\0\0\0\0\0\x04\x05",
            38,
        ),
        // kinds, flags and levels that are not there
        (b"\x02\0\0\0\x07\x04", 5),
        (
            b"\x05\0\0\0\0\0\0\0\x09\0\0\0\0\0\0\0\x01\0\0\0\0\0\0\0\x01c\x02",
            26,
        ),
        (b"\x0B\0", 1),
        (b"\x0D\x03", 1),
        (b"\x0D\x01\0\0\0\0\0\0\0\x05\0\0\0\x07\0", 14),
        (b"\x0D\x01\0\0\0\0\0\0\0\x05\0\0\0\x07\x04", 14),
        (b"\x0E\0", 1),
        (b"\x0F\0\0\0\x01\0\0\0\0\0\0\0\x01d\x05", 14),
    ] {
        let refused = decode(rt.alloc(), bytes).err();
        assert_eq!(rt; refused, Some(CodecError::BadRecord { at }), "{bytes:?}");
    }
    let shown = format!(in rt.alloc(); "{}", CodecError::BadRecord { at: 3 })?;
    assert_eq!(rt; shown.as_str(), "no list of changes, from byte 3 on");
    Ok(())
}

// Records behind that of a new grid, and where they are refused.
use super::{begun, fault_of, with_record};
use std::alloc::{AllocError, Global};
use std::process::Abort;
use std::test::Fail;

// The numbers of a second run, which fit: a tag and 24 bytes.
const RUN: &[u8] = b"\x13\0\0\0\0\0\0\0\x01\0\0\0\0\0\0\0\x01\0\0\0\0\0\0\0\0";

// The place of this byte of a record's body, where the record stands behind the old log: its last gate, which is open
// now, and the length are in front.
fn place_in(main: &[u8], within: usize) -> u64 {
    (main.len() as u64)
        .saturating_add(8)
        .saturating_add(within as u64)
}

// One after another.
fn joined(alloc: Global, first: &[u8], then: &[u8]) -> Result<Vec<u8>, AllocError> {
    let mut bytes = first.to_vec(alloc)?;
    bytes.extend_from_slice(then)?;
    Ok(bytes)
}

// One more record of this body, alone and behind a delta that is taken, is refused at this place in the body.
fn refuses_record(
    rt: &impl Abort,
    alloc: Global,
    main: &[u8],
    body: &[u8],
    place: usize,
) -> Result<(), Fail> {
    let fault = place_in(main, place);
    let wanted = (Some(fault), Some(fault.saturating_add(25)));
    let alone = fault_of(rt, alloc, &with_record(alloc, main, body)?)?;
    let longer = joined(alloc, RUN, body)?;
    let behind = fault_of(rt, alloc, &with_record(alloc, main, &longer)?)?;
    assert_eq!(rt; (alone, behind), wanted, "{body:?}");
    Ok(())
}

#[test]
fn bytes_that_are_no_deltas_are_refused_where_they_stop(rt: HostRuntime) -> Result<(), Fail> {
    let alloc = rt.alloc();
    let main = begun(alloc)?;
    for (body, place) in [
        // There is no such tag.
        (b"\0".as_slice(), 0),
        (b"\x16", 0),
        // A field has a value that means nothing.
        (b"\x02\0\0\0\x09\x07", 5),
        // The bytes end within a number, and within a text, and a text has a byte that none has.
        (b"\x13\0\0", 3),
        (b"\x01\0\0\0\0\0\0\0\x09a", 10),
        (b"\x01\0\0\0\0\0\0\0\x02a\n\x01", 10),
        // A delta is refused, and the bytes behind it are none.
        (b"\x15\x15\0", 2),
    ] {
        refuses_record(&rt, alloc, &main, body, place)?;
    }
    Ok(())
}

// For each kind of delta one that does not fit a new grid, in the order of their tags.
const UNFIT: [&[u8]; 21] = [
    // A second zone, the first user's number, and members and removals of what is not there.
    b"\x01\0\0\0\0\0\0\0\x01y\x01",
    b"\x02\0\0\0\x01\x02\0\0\0\0\0\0\0\x03new",
    b"\x03\0\0\0\x09\0\0\0\x01",
    b"\x04\0\0\0\x02\0\0\0\x01",
    // A collection below none, and the removal of none; an object in none, and the removal of none.
    b"\x05\0\0\0\0\0\0\0\x09\0\0\0\0\0\0\0\x08\0\0\0\0\0\0\0\x01b\0",
    b"\x06\0\0\0\0\0\0\0\x09",
    b"\x07\0\0\0\0\0\0\0\x01\0\0\0\0\0\0\0\x09\0\0\0\0\0\0\0\x01o\0\0\0\0\0\0\0\0\
abcdefghijklmnopqrstuvwxyz012345\0\0\0\0\0\0\0\0",
    b"\x08\0\0\0\0\0\0\0\x01",
    // A replica of no object, and the removal of none.
    b"\x09\0\0\0\0\0\0\0\x01\0\0\0\0\0\0\0\x01\x01\0\0\0\0\0\0\0\0\
abcdefghijklmnopqrstuvwxyz012345\0\0\0\0\0\0\0\x01",
    b"\x0A\0\0\0\0\0\0\0\x01\0\0\0\0",
    // A triple at no object, and the removal of one that `/` does not have.
    b"\x0B\x01\0\0\0\0\0\0\0\x01\0\0\0\0\0\0\0\x01k\0\0\0\0\0\0\0\x01v\0\0\0\0\0\0\0\0",
    b"\x0C\x02\0\0\0\0\0\0\0\0\0\0\0\0\0\0\0\x01k\0\0\0\0\0\0\0\x01v\0\0\0\0\0\0\0\0",
    // Access to no collection, and the removal of what was not given.
    b"\x0D\x02\0\0\0\0\0\0\0\x09\0\0\0\x01\x01",
    b"\x0E\x02\0\0\0\0\0\0\0\x03\0\0\0\x02",
    // The resource with the number 0, and rules that do not stand as they are printed.
    b"\x0F\0\0\0\0\0\0\0\0\0\0\0\x01r\x01\0\x01\0\0\0\0\0\0\0\0",
    b"\x10\0\0\0\0\0\0\0\x09a ( ) { }",
    // An orphan of a file that was never named, and the removal of one.
    b"\x11\0\0\0\0\0\0\0\x01\0",
    b"\x12\0\0\0\0\0\0\0\x01",
    // A next file of the number 0, a pending command of no user, and the end of none.
    b"\x13\0\0\0\0\0\0\0\0\0\0\0\0\0\0\0\0\0\0\0\0\0\0\0\0",
    b"\x14\0\0\0\0\0\0\0\x01\0\0\0\0\0\0\0\x01\0\0\0\x09\0\0\0\0\0\0\0\0\
\0\0\0\0\0\0\0\0\0\0\0\0\0\0\0\0\0\0\0\0\0\0\0\0\0",
    b"\x15",
];

#[test]
fn a_delta_that_does_not_fit_is_refused_where_it_begins(rt: HostRuntime) -> Result<(), Fail> {
    let alloc = rt.alloc();
    let main = begun(alloc)?;
    for body in UNFIT {
        refuses_record(&rt, alloc, &main, body, 0)?;
    }
    Ok(())
}

#[test]
fn rules_are_taken_as_they_are_printed(rt: HostRuntime) -> Result<(), Fail> {
    let alloc = rt.alloc();
    let main = begun(alloc)?;
    for body in [
        // No rules, one, and two of which the first calls the second.
        b"\x10\0\0\0\0\0\0\0\0".as_slice(),
        b"\x10\0\0\0\0\0\0\0\x0Aa ( ) { }\n",
        b"\x10\0\0\0\0\0\0\0\x1Ca ( ) { b ( ) ; }\nb ( ) { }\n",
    ] {
        let longer = with_record(alloc, &main, body)?;
        assert_eq!(rt; fault_of(&rt, alloc, &longer)?, None, "{body:?}");
    }
    Ok(())
}

#[test]
fn other_texts_of_rules_are_refused_where_the_delta_begins(rt: HostRuntime) -> Result<(), Fail> {
    let alloc = rt.alloc();
    let main = begun(alloc)?;
    for body in [
        // Two blanks in a row, a comment, and no rules but a blank.
        b"\x10\0\0\0\0\0\0\0\x0Ba  ( ) { }\n".as_slice(),
        b"\x10\0\0\0\0\0\0\0\x0Ca ( ) { }\n#\n",
        b"\x10\0\0\0\0\0\0\0\x01 ",
        // A text that spells no rules.
        b"\x10\0\0\0\0\0\0\0\x02a\n",
        // A rule with the name of a micro-service, and one that calls what is not there.
        b"\x10\0\0\0\0\0\0\0\x0Cnop ( ) { }\n",
        b"\x10\0\0\0\0\0\0\0\x12a ( ) { b ( ) ; }\n",
    ] {
        refuses_record(&rt, alloc, &main, body, 0)?;
    }
    Ok(())
}

#[test]
fn records_without_a_fault_are_taken(rt: HostRuntime) -> Result<(), Fail> {
    let alloc = rt.alloc();
    // No deltas at all are a record.
    let first = with_record(alloc, &begun(alloc)?, b"")?;
    let second = with_record(alloc, &first, RUN)?;
    let faults = (
        fault_of(&rt, alloc, &first)?,
        fault_of(&rt, alloc, &second)?,
    );
    assert_eq!(rt; faults, (None, None));
    Ok(())
}

#[test]
fn the_first_fault_is_told(rt: HostRuntime) -> Result<(), Fail> {
    let alloc = rt.alloc();
    let main = begun(alloc)?;
    // Of two records at fault it is the first one.
    let first = with_record(alloc, &main, b"\x15")?;
    let both = with_record(alloc, &first, b"\0")?;
    let place = place_in(&main, 0);
    // A log that does not end is told before any record.
    let end = both.len().saturating_sub(1);
    let cut = &both.as_slice()[..end];
    let faults = (fault_of(&rt, alloc, &both)?, fault_of(&rt, alloc, cut)?);
    assert_eq!(rt; faults, (Some(place), Some(end as u64)));
    Ok(())
}

// What main may hold, and where it shows that it is no catalogue.
use super::{begin_over, begun, fault_of, opened};
use grid_journal::JournalError;
use grid_model::Side;
use std::alloc::Global;
use std::process::Abort;
use std::test::Fail;

#[test]
fn a_new_grid_is_read(rt: HostRuntime) -> Result<(), Fail> {
    let alloc = rt.alloc();
    let told = opened(&rt, alloc, &begun(alloc)?)??;
    assert_eq!(rt;
        (told.main_calls, told.spare_calls, told.is_sound),
        (0, 0, true)
    );
    assert_eq!(rt;
        (told.staged, told.stores, told.admin, told.leaf),
        (0, 2, Some(1), None)
    );
    Ok(())
}

// Main is refused at this place.
fn refuses_at(rt: &impl Abort, alloc: Global, main: &[u8], at: u64) -> Result<(), Fail> {
    assert_eq!(rt; fault_of(rt, alloc, main)?, Some(at), "{main:?}");
    Ok(())
}

// Main with this byte turned in its lowest bit is refused at its place.
fn looks_at(rt: &impl Abort, alloc: Global, main: &[u8], at: usize) -> Result<(), Fail> {
    let mut other = main.to_vec(alloc)?;
    if let Some(byte) = other.get_mut(at) {
        *byte ^= 1;
    }
    refuses_at(rt, alloc, &other, at as u64)
}

#[test]
fn the_head_is_looked_at_byte_by_byte(rt: HostRuntime) -> Result<(), Fail> {
    let alloc = rt.alloc();
    let main = begun(alloc)?;
    for at in [0, 1, 2, 3, 4, 5, 6, 7, 8, 16] {
        looks_at(&rt, alloc, &main, at)?;
    }
    Ok(())
}

#[test]
fn what_is_cut_off_is_refused_where_it_does_not_go_on(rt: HostRuntime) -> Result<(), Fail> {
    let alloc = rt.alloc();
    let main = begun(alloc)?;
    // So many bytes alone. The length of the first record stands at 17.
    for (len, at) in [
        (0usize, 0),
        (5, 5),
        (8, 8),
        (9, 16),
        (16, 16),
        (17, 17),
        (20, 17),
        (40, 17),
    ] {
        let cut = &main.as_slice()[..len.min(main.len())];
        refuses_at(&rt, alloc, cut, at)?;
    }
    let gate = main.len().saturating_sub(1);
    refuses_at(&rt, alloc, &main.as_slice()[..gate], gate as u64)
}

#[test]
fn other_bytes_are_no_catalogue(rt: HostRuntime) -> Result<(), Fail> {
    let alloc = rt.alloc();
    for (main, at) in [
        (b"hello".as_slice(), 0),
        (b"Z /z/home/rods\n", 0),
        (b"iRODSgrD\0\0\0\0\0\0\0\0\x01", 7),
        (b"iRODSgrd\x01\0\0\0\0\0\0\0\x01", 8),
        // No record, and one of no deltas, so that there is no zone.
        (b"iRODSgrd\0\0\0\0\0\0\0\0\0", 16),
        (b"iRODSgrd\0\0\0\0\0\0\0\0\x01\0\0\0\0\0\0\0\0\0", 16),
    ] {
        refuses_at(&rt, alloc, main, at)?;
    }
    Ok(())
}

#[test]
fn what_is_not_read_may_be_anything(rt: HostRuntime) -> Result<(), Fail> {
    let alloc = rt.alloc();
    let mut main = begun(alloc)?;
    // An even root, the bytes behind it, the closing gate, and what stands behind the log.
    for at in 8..16 {
        if let Some(byte) = main.get_mut(at) {
            *byte = 0xFE;
        }
    }
    main.pop();
    main.extend_from_slice(&[7, 1, 1, 1])?;
    assert_eq!(rt; fault_of(&rt, alloc, &main)?, None);
    Ok(())
}

// A new grid is refused over these disks, which stay as they are.
fn refuses_to_begin(
    rt: &impl Abort,
    alloc: Global,
    first: &[u8],
    second: &[u8],
    wanted: JournalError,
) -> Result<(), Fail> {
    let (done, main, spare) = begin_over(alloc, first, second)?;
    assert_eq!(rt;
        (done, main.as_slice(), spare.as_slice()),
        (Err(wanted), first, second)
    );
    Ok(())
}

#[test]
fn a_grid_begins_on_empty_disks(rt: HostRuntime) -> Result<(), Fail> {
    let alloc = rt.alloc();
    for (first, second, side, len) in [
        (b"abc".as_slice(), b"".as_slice(), Side::Main, 3),
        (b"", b"d", Side::Spare, 1),
        (b"a", b"bc", Side::Main, 1),
    ] {
        let wanted = JournalError::NotEmpty { side, len };
        refuses_to_begin(&rt, alloc, first, second, wanted)?;
    }
    Ok(())
}

mod images;

use frame_log::{FrameLog, LogError, Record};
use grid_mem::MemDisk;
use grid_outside::Moments;
use std::alloc::Global;
use std::test::Fail;

// What stands before the base.
const HEAD: [u8; 3] = [7, 7, 7];

#[test]
fn records_are_read_again(rt: HostRuntime) -> Result<(), Fail> {
    let alloc = rt.alloc();
    let mut disk = MemDisk::new(alloc, HEAD.to_vec(alloc)?, Vec::new(alloc))?;
    let mut moments = Moments::start();
    let mut log = FrameLog::fresh(alloc, &mut disk, &mut moments, 3, &[5, 6])?;
    assert_eq!(rt; log.gate(), 14);
    log.append(alloc, &mut disk, &mut moments, &[])?;
    log.append(alloc, &mut disk, &mut moments, &[9])?;
    assert_eq!(rt; log.gate(), 33);
    assert_eq!(rt; log.first_len(), 2);
    assert_eq!(rt;
        disk.bytes(),
        [
            7, 7, 7, 1, 0, 0, 0, 0, 0, 0, 0, 2, 5, 6, 1, 0, 0, 0, 0, 0, 0, 0, 0, 1, 0, 0, 0, 0, 0,
            0, 0, 1, 9, 0,
        ]
        .as_slice()
    );
    let (again, records) = FrameLog::open(alloc, &mut disk, 3)?;
    assert_eq!(rt; again.gate(), 33);
    assert_eq!(rt; again.first_len(), 2);
    let records: Vec<Record> = records.into_vec();
    assert_eq!(rt; records.len(), 3);
    for (record, (place, body)) in records
        .iter()
        .zip([(12, [5, 6].as_slice()), (23, &[]), (32, &[9])])
    {
        assert_eq!(rt; record.place, place);
        assert_eq!(rt; record.body.as_slice(), body);
    }
    Ok(())
}

#[test]
fn refusals_name_the_place(rt: HostRuntime) -> Result<(), Fail> {
    let alloc = rt.alloc();
    let cases: [(&[u8], u64, u64); 10] = [
        // The first gate is missing or closed.
        (&[], 0, 0),
        (&[1, 0, 0, 0, 0, 0, 0, 0, 0, 0], 16, 16),
        (&[0], 0, 0),
        (&[7, 7, 2, 0, 0, 0, 0, 0, 0, 0, 0, 0], 2, 2),
        // A length or a body runs past the end.
        (&[1, 0, 0, 0, 0, 0, 0, 0], 0, 1),
        (&[1, 0, 0, 0, 0, 0, 0, 0, 2, 5], 0, 1),
        (&[1, 0x40, 0, 0, 0, 0, 0, 0, 0, 5, 0], 0, 1),
        (&[1, 255, 255, 255, 255, 255, 255, 255, 255, 5, 0], 0, 1),
        (&[1, 0, 0, 0, 0, 0, 0, 0, 0, 1, 0], 0, 10),
        // The gate behind a record is missing.
        (&[1, 0, 0, 0, 0, 0, 0, 0, 1, 5], 0, 10),
    ];
    for (bytes, base, at) in cases {
        let mut disk = MemDisk::new(alloc, bytes.to_vec(alloc)?, Vec::new(alloc))?;
        match FrameLog::open(alloc, &mut disk, base) {
            Ok(_) => assert!(rt; false, "read, though broken at {at}"),
            Err(e) => assert_eq!(rt; e, LogError::NotALog { at }),
        }
    }
    Ok(())
}

// How many records the bytes have from 0 on.
fn count_records(alloc: Global, bytes: &[u8]) -> Result<usize, LogError> {
    let mut disk = MemDisk::new(alloc, bytes.to_vec(alloc)?, Vec::new(alloc))?;
    let (_, records) = FrameLog::open(alloc, &mut disk, 0)?;
    Ok(records.as_slice().len())
}

// A record of no bytes, and a closed gate at 9.
const ONE: [u8; 10] = [1, 0, 0, 0, 0, 0, 0, 0, 0, 0];

#[test]
fn a_stop_leaves_old_or_new(rt: HostRuntime) -> Result<(), Fail> {
    let alloc = rt.alloc();
    // Any bytes behind the closed gate, as many as were to be written or fewer.
    for written in 0..=10 {
        for byte in [0, 1, 255] {
            let mut image = ONE.to_vec(alloc)?;
            for _ in 0..written {
                image.push(byte)?;
            }
            assert_eq!(rt; count_records(alloc, &image)?, 1, "{written} of {byte}");
        }
    }
    // Any gate before a record with the body 5.
    for gate in 0..=255 {
        let image = [
            1, 0, 0, 0, 0, 0, 0, 0, 0, gate, 0, 0, 0, 0, 0, 0, 0, 1, 5, 0,
        ];
        let count = if gate == 1 { 2 } else { 1 };
        assert_eq!(rt; count_records(alloc, &image)?, count, "gate {gate}");
    }
    Ok(())
}

#[test]
fn a_fault_is_told(rt: HostRuntime) -> Result<(), Fail> {
    let alloc = rt.alloc();
    // Opening asks the length and reads once.
    for call in [1, 2] {
        let mut disk = MemDisk::new(alloc, ONE.to_vec(alloc)?, vec![in alloc; call]?)?;
        assert!(rt; FrameLog::open(alloc, &mut disk, 0).is_err_and(|e| e == LogError::DiskFault));
    }
    // Then come a write and a sync behind the gate, and a write and a sync of the gate.
    for (call, count) in [(3, 1), (4, 1), (5, 1), (6, 2)] {
        let mut disk = MemDisk::new(alloc, ONE.to_vec(alloc)?, vec![in alloc; call]?)?;
        let mut moments = Moments::start();
        let (mut log, _) = FrameLog::open(alloc, &mut disk, 0)?;
        assert_eq!(rt;
            log.append(alloc, &mut disk, &mut moments, &[5]),
            Err(LogError::DiskFault),
            "call {call}"
        );
        assert_eq!(rt;
            count_records(alloc, disk.bytes())?,
            count,
            "after call {call}"
        );
    }
    Ok(())
}

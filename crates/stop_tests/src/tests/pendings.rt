// Records by which a command with recoveries is pending that was stopped.
use std::alloc::{AllocError, Global};

// A call of a micro-service: its name, and its arguments.
pub(crate) type Service = (&'static [u8], &'static [&'static [u8]]);

// The third command of the second run, of the first user: its line, how many marks `ran 0 1000` it has, the call that runs, the number
// and the slot of the file that this call is to make, and the recoveries that are still to be run.
#[derive(Clone, Copy)]
pub(crate) struct Stopped {
    pub(crate) line: &'static [u8],
    pub(crate) marks: u64,
    pub(crate) running: Service,
    pub(crate) vault: u64,
    pub(crate) slot: u8,
    pub(crate) undo: &'static [Service],
}

// The mark `ran 0 1000`.
const RAN: &[u8] = b"\x01\0\0\0\0\0\0\0\0\0\0\0\0\0\0\x03\xE8\0\0\0\0\0\0\0\0";

// The second run, and no command that has changed anything.
const RUN: &[u8] = b"\0\0\0\0\0\0\0\x02\0\0\0\0\0\0\0\0";

// The third command of the second run, of the first user.
const THIRD: &[u8] = b"\0\0\0\0\0\0\0\x02\0\0\0\0\0\0\0\x03\0\0\0\x01";

fn push_number(bytes: &mut Vec<u8>, number: u64) -> Result<(), AllocError> {
    bytes.extend_from_slice(&number.to_be_bytes())
}

fn push_text(bytes: &mut Vec<u8>, text: &[u8]) -> Result<(), AllocError> {
    push_number(bytes, text.len() as u64)?;
    bytes.extend_from_slice(text)
}

fn push_service(bytes: &mut Vec<u8>, service: &Service) -> Result<(), AllocError> {
    let (name, args) = *service;
    push_text(bytes, name)?;
    push_number(bytes, args.len() as u64)?;
    for arg in args {
        push_text(bytes, arg)?;
    }
    Ok(())
}

fn push_marks(bytes: &mut Vec<u8>, count: u64) -> Result<(), AllocError> {
    push_number(bytes, count)?;
    for _ in 0..count {
        bytes.extend_from_slice(RAN)?;
    }
    Ok(())
}

fn push_undo(bytes: &mut Vec<u8>, undo: &[Service]) -> Result<(), AllocError> {
    push_number(bytes, undo.len() as u64)?;
    for service in undo {
        push_service(bytes, service)?;
    }
    Ok(())
}

// What the commit before the running call adds: the numbers, the row of the file that no replica has yet, and the command.
fn record_of(alloc: Global, stopped: Stopped) -> Result<Vec<u8>, AllocError> {
    let mut record = b"\x13".to_vec(alloc)?;
    push_number(&mut record, stopped.vault.saturating_add(1))?;
    record.extend_from_slice(RUN)?;
    record.push(0x11)?;
    push_number(&mut record, stopped.vault)?;
    record.push(stopped.slot)?;
    record.push(0x14)?;
    record.extend_from_slice(THIRD)?;
    push_text(&mut record, stopped.line)?;
    push_marks(&mut record, stopped.marks)?;
    push_number(&mut record, 0)?;
    record.push(1)?;
    push_service(&mut record, &stopped.running)?;
    push_undo(&mut record, stopped.undo)?;
    Ok(record)
}

// The bytes of main with that record behind their last gate.
pub(crate) fn with_stopped(
    alloc: Global,
    main: &[u8],
    stopped: Stopped,
) -> Result<Vec<u8>, AllocError> {
    let record = record_of(alloc, stopped)?;
    let mut longer = main.to_vec(alloc)?;
    longer.pop();
    longer.push(1)?;
    push_text(&mut longer, &record)?;
    longer.push(0)?;
    Ok(longer)
}

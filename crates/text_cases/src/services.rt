// Calls of micro-services.
use grid_model::{Call, Text, Texts};
use service_read::read_service;
use std::alloc::{AllocError, Global};

/// The call of a line: its name and its arguments, each behind one blank.
pub(crate) fn call_of(alloc: Global, line: &[u8]) -> Result<Call, AllocError> {
    let mut words = line.split(|byte| *byte == b' ');
    let name = Text::copy_of(alloc, words.next().unwrap_or(b""))?;
    let mut args = Vec::new(alloc);
    for word in words {
        args.push(Text::copy_of(alloc, word)?)?;
    }
    Ok(Call {
        name,
        args: Texts::from_vec(args),
    })
}

/// What the call of the line asks for.
pub(crate) fn show(alloc: Global, line: &[u8]) -> Result<String, AllocError> {
    let call = call_of(alloc, line)?;
    let service = read_service(alloc, &call)?;
    format!(in alloc; "{service:?}")
}

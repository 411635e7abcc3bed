// What is shown of a run and of what it left.
use crate::devices::Left;
use crate::escapes::add_shown;
use crate::held::Held;
use crate::keeping::kept_on;
use grid_model::Digest;
use std::alloc::{AllocError, Global};

// A line with more bytes is shown by their number and their checksum.
const LONGEST: usize = 500;

/// Adds the replies of a run, how it ended, and what main holds then.
pub(crate) fn add_run(
    alloc: Global,
    shown: &mut String,
    before: &Held,
    left: &Left,
) -> Result<(), AllocError> {
    add_replies(alloc, shown, &left.replies)?;
    match &left.status {
        Some(status) => write!(shown, "= {status:?}")?,
        None => shown.push_str("= no run over so many stores")?,
    }
    if left.held.main == before.main {
        shown.push_str(", main stays")?;
    } else {
        add_stand(alloc, shown, &left.held)?;
    }
    if left.spare_calls != 0 || left.held.spare != before.spare {
        shown.push_str(", spare was touched")?;
    }
    shown.push('\n')
}

/// Adds what the catalogue tells that is held.
pub(crate) fn add_stand(alloc: Global, shown: &mut String, held: &Held) -> Result<(), AllocError> {
    match kept_on(alloc, held)? {
        Some(kept) => write!(shown, ", {}", kept.stand),
        None => shown.push_str(", main has no catalogue"),
    }
}

// Adds the replies, line by line. One that was cut short ends with `~`.
fn add_replies(alloc: Global, shown: &mut String, replies: &[u8]) -> Result<(), AllocError> {
    for line in replies.split_inclusive(|byte| *byte == b'\n') {
        match line.strip_suffix(b"\n") {
            Some(line) => add_line(alloc, shown, line)?,
            None => {
                add_line(alloc, shown, line)?;
                shown.push('~')?;
            }
        }
        shown.push('\n')?;
    }
    Ok(())
}

fn add_line(alloc: Global, shown: &mut String, line: &[u8]) -> Result<(), AllocError> {
    if line.len() <= LONGEST {
        return add_shown(shown, line);
    }
    let digest = Digest::of(line).print(alloc)?;
    write!(shown, "~{} bytes ", line.len())?;
    add_shown(shown, digest.as_slice())
}

/// Adds how many rows the catalogue has, the files that no replica has, and all files of the stores.
pub(crate) fn add_rows(alloc: Global, shown: &mut String, held: &Held) -> Result<(), AllocError> {
    if let Some(kept) = kept_on(alloc, held)? {
        shown.push_str(kept.rows.as_str())?;
    }
    for (slot, files) in held.vaults.iter().enumerate() {
        for file in files.clone()?.into_vec() {
            write!(shown, "file vault{slot}/{} ", file.name)?;
            if file.finished {
                add_line(alloc, shown, &file.bytes)?;
            } else {
                shown.push_str("is begun")?;
            }
            shown.push('\n')?;
        }
    }
    Ok(())
}

/// Adds what main holds behind what stands there as before: its head where that is new, a line for each record, and what ends
/// them.
pub(crate) fn add_log(shown: &mut String, before: &[u8], main: &[u8]) -> Result<(), AllocError> {
    let same = before.len().saturating_sub(1).min(main.len());
    let (front, added) = main.split_at(same);
    if !before.starts_with(front) {
        shown.push_str("main is another\n")?;
    }
    let head = if same == 0 { 16.min(added.len()) } else { 0 };
    let (head, mut rest) = added.split_at(head);
    if !head.is_empty() {
        shown.push_str("head ")?;
        add_shown(shown, head)?;
        shown.push('\n')?;
    }
    for _ in 0..rest.len() {
        match first_record(rest) {
            Some((body, behind)) => {
                write!(shown, "record of {} bytes ", body.len())?;
                add_shown(shown, body)?;
                shown.push('\n')?;
                rest = behind;
            }
            None => break,
        }
    }
    shown.push_str("end ")?;
    add_shown(shown, rest)?;
    shown.push('\n')
}

// The body of the record that stands in front, behind an open gate and its length, and what stands behind it.
fn first_record(bytes: &[u8]) -> Option<(&[u8], &[u8])> {
    if bytes.len() < 9 || bytes[0] != 1 {
        return None;
    }
    let mut length: u64 = 0;
    for byte in &bytes[1..9] {
        length = length << 8 | u64::from(*byte);
    }
    let rest = &bytes[9..];
    if length > rest.len() as u64 {
        return None;
    }
    Some(rest.split_at(length as usize))
}

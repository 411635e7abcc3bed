// The bytes of a text that is written in a line.
use std::alloc::{AllocError, Global};

/// The bytes of a text, in which `~n`, `~r` and `~t` stand for a line feed, a carriage return and a tab, `~xFF` for a byte
/// by its two digits, `~7*c` for seven times the byte `c`, `~7#cd` for seven times all up to the next `~`, and `~.` for nothing.
pub(crate) fn unescaped(alloc: Global, text: &str) -> Result<Vec<u8>, AllocError> {
    let mut bytes = Vec::new(alloc);
    let mut parts = text.as_bytes().split(|byte| *byte == b'~');
    bytes.extend_from_slice(parts.next().unwrap_or(b""))?;
    for part in parts {
        add_escaped(&mut bytes, part)?;
    }
    Ok(bytes)
}

// Adds what stands behind a `~`, up to the next one.
fn add_escaped(bytes: &mut Vec<u8>, part: &[u8]) -> Result<(), AllocError> {
    match part.split_first() {
        Some((b'n', rest)) => add_behind(bytes, b'\n', rest),
        Some((b'r', rest)) => add_behind(bytes, b'\r', rest),
        Some((b't', rest)) => add_behind(bytes, b'\t', rest),
        Some((b'x', rest)) => add_by_digits(bytes, rest),
        _ => add_many(bytes, part),
    }
}

// Adds a byte, and these bytes behind it.
fn add_behind(bytes: &mut Vec<u8>, byte: u8, rest: &[u8]) -> Result<(), AllocError> {
    bytes.push(byte)?;
    bytes.extend_from_slice(rest)
}

// Adds the byte of the first two digits, and the rest.
fn add_by_digits(bytes: &mut Vec<u8>, part: &[u8]) -> Result<(), AllocError> {
    match part {
        [high, low, rest @ ..] => add_behind(bytes, digit(*high) << 4 | digit(*low), rest),
        _ => Ok(()),
    }
}

// The value of a digit of base 16.
fn digit(byte: u8) -> u8 {
    match byte {
        b'0'..=b'9' => byte - b'0',
        b'A'..=b'F' => byte - b'A' + 10,
        _ => 0,
    }
}

// Adds so many times as the number in front says the byte behind `*`, and the rest, or all behind `#`.
fn add_many(bytes: &mut Vec<u8>, part: &[u8]) -> Result<(), AllocError> {
    let mut count: u32 = 0;
    for (at, byte) in part.iter().enumerate() {
        let rest = &part[at + 1..];
        match *byte {
            b'*' => return add_first(bytes, rest, count),
            b'#' => return add_times(bytes, rest, count),
            b'.' => return bytes.extend_from_slice(rest),
            _ => count = count.wrapping_mul(10).wrapping_add(u32::from(digit(*byte))),
        }
    }
    Ok(())
}

// Adds the first byte so many times, and the rest.
fn add_first(bytes: &mut Vec<u8>, part: &[u8], count: u32) -> Result<(), AllocError> {
    match part {
        [first, rest @ ..] => {
            add_times(bytes, &[*first], count)?;
            bytes.extend_from_slice(rest)
        }
        [] => Ok(()),
    }
}

// Adds these bytes so many times.
fn add_times(bytes: &mut Vec<u8>, part: &[u8], count: u32) -> Result<(), AllocError> {
    for _ in 0..count {
        bytes.extend_from_slice(part)?;
    }
    Ok(())
}

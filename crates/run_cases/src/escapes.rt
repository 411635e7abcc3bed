// Bytes as they are written in a line.
use std::alloc::{AllocError, Global};

/// The bytes of a text, in which `~n` stands for a line feed, `~0` for a byte 0, `~xFF` for a byte by its two digits, and
/// `~8=5;` and `~4=5;` for the number 5 in eight and in four bytes, the greatest first.
pub(crate) fn unescaped(alloc: Global, text: &str) -> Result<Vec<u8>, AllocError> {
    let mut bytes = Vec::new(alloc);
    let mut parts = text.as_bytes().split(|byte| *byte == b'~');
    bytes.extend_from_slice(parts.next().unwrap_or(b""))?;
    for part in parts {
        add_escaped(&mut bytes, part)?;
    }
    Ok(bytes)
}

// Adds what stands behind a `~`, up to the next one.
fn add_escaped(bytes: &mut Vec<u8>, part: &[u8]) -> Result<(), AllocError> {
    match part {
        [b'n', rest @ ..] => add(bytes, b"\n", rest),
        [b'0', rest @ ..] => add(bytes, b"\0", rest),
        [b'x', high, low, rest @ ..] => add(bytes, &[digit(*high) << 4 | digit(*low)], rest),
        [b'4', b'=', rest @ ..] => add_number(bytes, 4, rest),
        [b'8', b'=', rest @ ..] => add_number(bytes, 8, rest),
        _ => Ok(()),
    }
}

// Adds these bytes, and those behind them.
fn add(bytes: &mut Vec<u8>, front: &[u8], rest: &[u8]) -> Result<(), AllocError> {
    bytes.extend_from_slice(front)?;
    bytes.extend_from_slice(rest)
}

// Adds the number in front of `;` in so many bytes, and what stands behind that.
fn add_number(bytes: &mut Vec<u8>, count: usize, part: &[u8]) -> Result<(), AllocError> {
    let mut words = part.splitn(2, |byte| *byte == b';');
    let mut number: u64 = 0;
    for byte in words.next().unwrap_or(b"") {
        number = number
            .wrapping_mul(10)
            .wrapping_add(u64::from(digit(*byte)));
    }
    let spelled = number.to_be_bytes();
    let front = if count == 4 {
        &spelled[4..]
    } else {
        &spelled[..]
    };
    add(bytes, front, words.next().unwrap_or(b""))
}

// The value of a digit of base 16.
fn digit(byte: u8) -> u8 {
    match byte {
        b'0'..=b'9' => byte - b'0',
        b'A'..=b'F' => byte - b'A' + 10,
        _ => 0,
    }
}

/// Adds these bytes as they are written in a line.
pub(crate) fn add_shown(shown: &mut String, bytes: &[u8]) -> Result<(), AllocError> {
    let mut rest = bytes;
    for _ in 0..bytes.len() {
        if rest.len() >= 8 && rest.starts_with(b"\0\0\0\0\0\0") {
            write!(shown, "~8={};", u16::from_be_bytes([rest[6], rest[7]]))?;
            rest = &rest[8..];
        } else if rest.len() >= 4 && rest.starts_with(b"\0\0\0") {
            write!(shown, "~4={};", rest[3])?;
            rest = &rest[4..];
        } else if let Some((byte, behind)) = rest.split_first() {
            add_byte(shown, *byte)?;
            rest = behind;
        }
    }
    Ok(())
}

// Adds a byte as it is written in a line.
fn add_byte(shown: &mut String, byte: u8) -> Result<(), AllocError> {
    match byte {
        b'\n' => shown.push_str("~n"),
        0 => shown.push_str("~0"),
        b'~' | 0x01..=0x1F | 0x7F..=0xFF => write!(shown, "~x{byte:02X}"),
        _ => shown.push(char::from(byte)),
    }
}

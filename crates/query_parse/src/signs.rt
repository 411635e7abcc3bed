ghost use Rattle.std.specs.Prelude.{◌≡◌, ◌<◌, length, slice_index, IsTrue};
ghost use Rattle.grid_model.specs.QueryTokens.{Front as Begins};
ghost use Rattle.query_parse.specs.Seen.{meaning, is_sign};

use crate::front::Front;
use crate::token::{Kind, Sign};

/// The first byte of a comma or a sign.
pub fn is_sign(byte: u8) -> bool
    ensures { result ≡ is_sign byte }
{
    matches!(byte, b',' | b'=' | b'<' | b'>')
}

/// The byte at this place, or 0, which is in no sign, past the end.
fn byte_at(bytes: &[u8], at: usize) -> u8
    ensures { result ≡ slice_index bytes.now at }
{
    if at < bytes.len() { bytes[at] } else { 0 }
}

/// The sign at the front of what begins with `<`.
fn less<'a>(text: &'a [u8]) -> Front<'a>
    requires some { 0 < length text.now }
    requires begins { slice_index text.now 0 ≡ 0x3C }
    ensures { Begins text.now (meaning result.kind) result.rest.now }
{
    let second = byte_at(text, 1);
    if second == b'>' {
        return Front {
            kind: Kind::Sign(Sign::NotEqual),
            rest: &text[2..],
        };
    }
    if second == b'=' {
        return Front {
            kind: Kind::Sign(Sign::AtMost),
            rest: &text[2..],
        };
    }
    Front {
        kind: Kind::Sign(Sign::Less),
        rest: &text[1..],
    }
}

/// The sign at the front of what begins with `>`.
fn greater<'a>(text: &'a [u8]) -> Front<'a>
    requires some { 0 < length text.now }
    requires begins { slice_index text.now 0 ≡ 0x3E }
    ensures { Begins text.now (meaning result.kind) result.rest.now }
{
    if byte_at(text, 1) == b'=' {
        return Front {
            kind: Kind::Sign(Sign::AtLeast),
            rest: &text[2..],
        };
    }
    Front {
        kind: Kind::Sign(Sign::Greater),
        rest: &text[1..],
    }
}

/// The comma or sign at the front of what begins with one.
pub fn sign<'a>(text: &'a [u8]) -> Front<'a>
    requires some { 0 < length text.now }
    requires begins { IsTrue (is_sign (slice_index text.now 0)) }
    ensures { Begins text.now (meaning result.kind) result.rest.now }
{
    let first = text[0];
    if first == b',' {
        return Front {
            kind: Kind::Comma,
            rest: &text[1..],
        };
    }
    if first == b'=' {
        return Front {
            kind: Kind::Sign(Sign::Equal),
            rest: &text[1..],
        };
    }
    if first == b'<' {
        return less(text);
    }
    greater(text)
}

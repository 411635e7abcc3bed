ghost use Rattle.std.specs.Prelude.{◌≡◌, ◌<◌, ◌≤◌, length};
ghost use Rattle.grid_model.specs.Digests.{SpellsDigest};
ghost use Rattle.reply_fields.specs.Fronts.{ReadsFrom};
ghost use Rattle.reply_fields.specs.PrintedDigests.{HasDigestFront, may_stand_in_digest};

use crate::error::ReplyError;
use grid_model::Digest;
use std::alloc::Global;

/// How many bytes a printed digest has.
const PRINTED_LEN: usize = 49;

/// How a printed digest begins.
const PREFIX: &[u8; 5] = b"sha2:";

/// The symbols of base64 (RFC 4648, section 4).
const SYMBOLS: &[u8; 64] = b"ABCDEFGHIJKLMNOPQRSTUVWXYZabcdefghijklmnopqrstuvwxyz0123456789+/";

/// Those of them whose last two bits are zero, as the last symbol of 32 bytes has them.
const LAST_SYMBOLS: &[u8; 16] = b"AEIMQUYcgkosw048";

/// Reads a digest as it is printed.
pub fn digest(alloc: Global, text: &[u8], at: usize) -> Result<(Digest, usize), ReplyError>
    requires { at ≤ length text.now }
    ensures { ReadsFrom SpellsDigest text.now at result }
{
    let rest = &text[at..];
    let len = digest_len(rest);
    if len < PRINTED_LEN {
        return Err(ReplyError::BadReply {
            at: (at + len) as u64,
        });
    }
    match Digest::read(alloc, &rest[..len])? {
        Some(digest) => Ok((digest, at + len)),
        None => Err(ReplyError::BadReply {
            at: (at + len) as u64,
        }),
    }
}

/// How many bytes at the front may stand at the front of a printed digest.
fn digest_len(rest: &[u8]) -> usize
    ensures { HasDigestFront rest.now result }
{
    let mut len = 0;
    while len < PRINTED_LEN && len < rest.len() && may_stand(len, rest[len]) {
        len += 1;
    }
    len
}

/// Whether the byte may stand at this place of a printed digest.
fn may_stand(place: usize, byte: u8) -> bool
    requires { place < 49 }
    ensures { result ≡ may_stand_in_digest place byte }
{
    if place < 5 {
        byte == PREFIX[place]
    } else if place < 47 {
        SYMBOLS.contains(&byte)
    } else if place < 48 {
        LAST_SYMBOLS.contains(&byte)
    } else {
        byte == b'='
    }
}

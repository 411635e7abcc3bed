ghost use Rattle.std.specs.Prelude.{◌≡◌, MatchOption, IfOk};
ghost use Rattle.grid_journal.specs.Stands.{HasHead, NoHead};
ghost use Rattle.grid_journal.specs.Start.{main_with};

use frame_log::framed;
use std::alloc::{AllocError, Global};

// What main begins with.
const MAGIC: [u8; 8] = *b"iRODSgrd";

// The magic bytes, the root, which says that the log on main stands, and seven bytes that are not read.
const HEAD: [u8; 16] = *b"iRODSgrd\0\0\0\0\0\0\0\0";

/// How many bytes of the head are read: the magic ones and the root.
pub(crate) const READ: usize = 9;

/// The place where the log begins.
pub(crate) const BASE: u64 = 16;

/// The first place at which main, of which these are the first bytes, does not begin as a catalogue does.
pub(crate) fn fault_in(head: &[u8]) -> Option<u64>
    ensures { MatchOption result (HasHead head.now) (NoHead head.now) }
{
    for (at, byte) in MAGIC.iter().enumerate() {
        match head.get(at) {
            Some(found) => {
                if *found != *byte {
                    return Some(at as u64);
                }
            }
            None => return Some(at as u64),
        }
    }
    match head.get(8) {
        Some(root) => { if *root % 2 == 0 { None } else { Some(8) } }
        None => Some(8),
    }
}

/// Main with one record, of this body.
pub(crate) fn main_with_record(alloc: Global, body: &[u8]) -> Result<Vec<u8>, AllocError>
    ensures { IfOk result (λ bytes. bytes.items ≡ main_with body.now) }
{
    let mut bytes = HEAD.to_vec(alloc)?;
    let record = framed(alloc, body)?;
    bytes.extend_from_slice(&record)?;
    Ok(bytes)
}

ghost use Rattle.std.specs.Prelude.{◌≡◌, ℕ, List, ◌+◌, ◌-◌, ◌^◌, ◌<◌, ◌≤◌, [], length, IsTrue, IfOk, MatchOption};
ghost use Rattle.sha2.specs.Hashers.{Holds256};
ghost use Rattle.grid_outside.specs.Device.{Looks};
ghost use Rattle.grid_outside.specs.Fault.{HasCause};
ghost use Rattle.grid_vault.specs.Reading.{GivesPart, ReadsOn, IsAsRecorded, Differs};

use crate::{OldFile, PART};
use grid_model::Digest;
use grid_outside::{Plugin, StoreFault};
use sha2::{Digest as Hash, Sha256};

// The most bytes of one file that are read, since a file has fewer than 2^61.
const LONGEST: u64 = (1 << 61) - 1;

/// What the next part of a file is.
#[derive(Clone, Copy, Debug, PartialEq, Eq)]
pub struct Part {
    /// How many bytes it has, without a byte past the recorded size.
    pub count: usize,
    /// Whether no part comes behind it.
    pub is_last: bool,
}

/// How many bytes a file has and their digest, where they are not what is recorded.
#[derive(Clone, Copy, Debug, PartialEq, Eq)]
pub struct Found {
    pub len: u64,
    pub digest: Digest,
}

/// A file that is read part by part from its first byte on, with the digest of what was read.
#[derive(Drop)]
pub struct FileReader {
    pub read: u64,
    pub hasher: Sha256,
}

impl FileReader {
    /// Nothing is read yet.
    pub fn new() -> FileReader
        ensures read { result.read ≡ 0 }
        ensures hashed { Holds256 result.hasher [] }
    {
        FileReader {
            read: 0,
            hasher: Sha256::new(),
        }
    }

    /// Reads the next part into the front of the buffer, and behind the last one a byte more, which shows that the
    /// file is longer than recorded.
    pub fn next_part<P: Plugin>(
        &mut self,
        store: &mut P,
        file: &OldFile,
        buf: &mut [u8],
    ) -> Result<Part, StoreFault>
        requires room { length buf.old ≡ 65537 }
        requires within { self.old.read ≤ file.now.size }
        requires short { self.old.read < 2 ^ 61 }
        ensures reads { IfOk result (λ part. ReadsOn (P.plugin store.old) file.now part buf.new self.old self.new) }
        ensures looks { Looks (P.plugin store.old) (P.plugin store.new) }
        ensures cause { HasCause (P.plugin store.old).faults (P.plugin store.new).faults result }
    {
        let left = file.size.min(LONGEST) - self.read;
        let wanted = wanted_of(left, file.size);
        let given = read_part(store, file.name, self.read, &mut buf[..wanted])?;
        self.hasher.update(&buf[..given]);
        self.read += given as u64;
        Ok(Part {
            count: (given as u64).min(left) as usize,
            is_last: left <= PART as u64 || given < wanted,
        })
    }

    /// Compares what was read with what is recorded.
    pub fn compare(self, file: &OldFile) -> Option<Found>
        ensures { (bytes : List ℕ) → self.read ≡ length bytes → Holds256 self.hasher bytes →
            MatchOption result (IsAsRecorded file.now bytes) (Differs file.now bytes) }
    {
        let FileReader { read, hasher } = self;
        let digest = Digest::from_bytes(hasher.finalize());
        if read == file.size && digest == file.digest {
            return None;
        }
        Some(Found { len: read, digest })
    }
}

// How many bytes are asked for where so many of the recorded ones are left.
fn wanted_of(left: u64, size: u64) -> usize
    ensures middle { 65536 < left → result ≡ 65536 }
    ensures end { left ≤ 65536 → size < 2 ^ 61 - 1 → result ≡ left + 1 }
    ensures longest { left ≤ 65536 → 2 ^ 61 - 1 ≤ size → result ≡ left }
{
    if left > PART as u64 {
        return PART;
    }
    if size < LONGEST {
        left as usize + 1
    } else {
        left as usize
    }
}

// Reads from this place on until the buffer is full or the file ends, and answers how many bytes it gave.
fn read_part<P: Plugin>(
    store: &mut P,
    name: u64,
    at: u64,
    buf: &mut [u8],
) -> Result<usize, StoreFault>
    requires { at + length buf.old < 2 ^ 64 }
    ensures count { IfOk result (λ n. n ≤ length buf.new) }
    ensures part { IfOk result (λ n. IsTrue (P.plugin store.old).tells → GivesPart name at n (P.plugin store.old).holds buf.new) }
    ensures looks { Looks (P.plugin store.old) (P.plugin store.new) }
    ensures cause { HasCause (P.plugin store.old).faults (P.plugin store.new).faults result }
{
    let mut count = 0;
    'reads: loop {
        let given = store.read(name, at + count as u64, &mut buf[count..])?;
        count += given;
        if given == 0 || count == buf.len() {
            return Ok(count);
        }
    }
}

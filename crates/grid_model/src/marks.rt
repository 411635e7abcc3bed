use crate::{Digest, Items};

/// A replica whose bytes are not what is recorded: its number, how many bytes were read, and their digest.
#[derive(Clone, Copy, Debug, PartialEq, Eq)]
pub struct BadReplica {
    pub number: u32,
    pub len: u64,
    pub found: Digest,
}

/// A list of bad replicas.
pub type BadReplicas = Items<BadReplica>;

/// How a deed, which is work on the stores, ended.
#[derive(Debug, Drop)]
pub enum Mark {
    /// It was done, with this random word, at this time in seconds since 1970. What was verified names the bad replicas.
    Ran {
        word: u64,
        now: u64,
        bad: BadReplicas,
    },
    /// A call of this slot failed, after so many data lines of a get.
    Fault {
        slot: u8,
        parts: u64,
    },
    /// The `len` bytes that were read from this slot are not what is recorded, after so many data lines of a get.
    Bad {
        slot: u8,
        len: u64,
        found: Digest,
        parts: u64,
    },
    /// The server stopped in it.
    Stop,
}

/// A list of marks.
pub type Marks = Items<Mark>;

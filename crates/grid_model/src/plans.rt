use crate::{Deltas, Digest, Items, Refusal};

/// A vault file that is to be made or removed: the slot of its store, and its number there.
#[derive(Clone, Copy, Debug, PartialEq, Eq)]
pub struct NewFile {
    pub slot: u8,
    pub name: u64,
}

/// A list of files to be made.
pub type NewFiles = Items<NewFile>;

/// A vault file that is to be read: the slot of its store, its number there, the number of its replica, and the size
/// in bytes and the SHA-256 that are recorded.
#[derive(Clone, Copy, Debug, PartialEq, Eq)]
pub struct OldFile {
    pub slot: u8,
    pub name: u64,
    pub number: u32,
    pub size: u64,
    pub digest: Digest,
}

/// A list of files to be read.
pub type OldFiles = Items<OldFile>;

/// What a deed is to do: the changes before it calls a store, the files that it makes and reads, and the changes after
/// it was done.
#[derive(Debug, Drop)]
pub struct Plan {
    pub before: Deltas,
    pub files: NewFiles,
    pub read: OldFiles,
    pub after: Deltas,
}

/// Why there is no plan.
#[derive(Clone, Copy, Debug, PartialEq, Eq)]
pub enum PlanError {
    /// The operation is refused.
    Refused(Refusal),
    /// Memory ran out.
    Memory,
}

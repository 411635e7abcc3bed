ghost use Rattle.std.specs.Prelude.{◌≡◌};
ghost use Rattle.row_codec.specs.Tagged.{tag_of};

use grid_model::{Delta, ItemKind};

/// What a change is of, by the byte that it begins with.
#[derive(Clone, Copy, Debug, PartialEq, Eq)]
pub enum Tag {
    Zone,
    User,
    Member,
    NoMember,
    Collection,
    NoCollection,
    Object,
    NoObject,
    Replica,
    NoReplica,
    Triple,
    NoTriple,
    Entry,
    NoEntry,
    Resource,
    Rules,
    Orphan,
    NoOrphan,
    Numbers,
    Pending,
    NoPending,
}

impl Tag {
    /// The tag of a change.
    pub fn of_delta(delta: &Delta) -> Tag
        ensures { result ≡ tag_of delta.now }
    {
        match delta {
            Delta::Zone { .. } => Tag::Zone,
            Delta::User(_) => Tag::User,
            Delta::Member(_) => Tag::Member,
            Delta::NoMember(_) => Tag::NoMember,
            Delta::Collection(_) => Tag::Collection,
            Delta::NoCollection { .. } => Tag::NoCollection,
            Delta::Object(_) => Tag::Object,
            Delta::NoObject { .. } => Tag::NoObject,
            Delta::Replica(_) => Tag::Replica,
            Delta::NoReplica { .. } => Tag::NoReplica,
            Delta::Triple(_) => Tag::Triple,
            Delta::NoTriple(_) => Tag::NoTriple,
            Delta::Entry(_) => Tag::Entry,
            Delta::NoEntry { .. } => Tag::NoEntry,
            Delta::Resource(_) => Tag::Resource,
            Delta::Rules { .. } => Tag::Rules,
            Delta::Orphan(_) => Tag::Orphan,
            Delta::NoOrphan { .. } => Tag::NoOrphan,
            Delta::Numbers(_) => Tag::Numbers,
            Delta::Pending(_) => Tag::Pending,
            Delta::NoPending => Tag::NoPending,
        }
    }
}

/// How a deed ended, by the byte that its mark begins with.
#[derive(Clone, Copy, Debug, PartialEq, Eq)]
pub enum MarkTag {
    Ran,
    Fault,
    Bad,
    Stop,
}

/// The kind of an item that has entries.
#[derive(Clone, Copy, Debug, PartialEq, Eq)]
pub struct EntryKind(pub ItemKind);

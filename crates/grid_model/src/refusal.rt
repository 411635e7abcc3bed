use crate::Digest;

/// What there may be only so many of.
#[derive(Clone, Copy, Debug, PartialEq, Eq)]
pub enum What {
    Users,
    Members,
    Collections,
    Objects,
    Resources,
    Triples,
    Access,
    Uploads,
}

/// Why a tree of resources is not made so.
#[derive(Clone, Copy, Debug, PartialEq, Eq)]
pub enum TreeCause {
    /// The parent stores files itself.
    Leaf,
    /// The child has a parent.
    HasParent,
    /// The child is the parent or above it.
    Cycle,
    /// The parent has all its children.
    Full,
    /// The resource stores nothing.
    Coordinating,
}

/// Why a text is no text of rules.
#[derive(Clone, Copy, Debug, PartialEq, Eq)]
pub enum RuleCause {
    Token,
    Grammar,
    Taken,
    Param,
    TooManyRules,
    Arity,
    Unknown,
    Recovery,
    Variable,
    Typing,
    Literal,
}

/// Why an operation was not done. A refused operation changed nothing. A place `at` counts bytes from 0.
#[derive(Clone, Copy, Debug, PartialEq, Eq)]
pub enum Refusal {
    /// The line is too long.
    TooLong,
    /// The line is no line of words.
    Syntax {
        at: u64,
    },
    /// The verb is unknown.
    UnknownCommand,
    /// The word of this number, from 0, is not of its form, is missing or is surplus.
    BadWord {
        index: u64,
    },
    /// A path is none.
    BadPath {
        at: u64,
    },
    /// A name is none.
    BadName {
        at: u64,
    },
    /// The input ended within the body: so many bytes came, and so many were to come.
    Truncated {
        have: u64,
        want: u64,
    },
    /// The session is nobody's yet.
    NoLogin,
    /// The session has an upload.
    Open,
    /// The session has no upload.
    NoUpload,
    /// More bytes than this are not taken.
    TooLarge {
        limit: u64,
    },
    /// There would be more than so many of them.
    TooMany {
        what: What,
        limit: u64,
    },
    /// The text of this number, from 0, may not stand in a triple.
    BadTriple {
        which: u64,
    },
    NoUser,
    NoMember,
    /// The collection that it should lie in is not there.
    NoCollection,
    NoObject,
    NoResource,
    /// There is no store of this number.
    NoSlot {
        slot: u64,
    },
    /// The resource gives no leaf to write to.
    NoTarget,
    /// There is no replica that could be read.
    NoReplica,
    NoTriple,
    NoAccess,
    NotAdmin,
    /// Something is there already.
    Exists,
    NotEmpty,
    /// The collection is one that stays.
    Fixed,
    /// It would lie in itself.
    Inside,
    /// No good replica would be left.
    LastGood,
    BadTree {
        cause: TreeCause,
    },
    BadRule {
        at: u64,
        cause: RuleCause,
    },
    BadQuery {
        at: u64,
    },
    /// A call of the store of this slot failed.
    Fault {
        slot: u8,
    },
    /// The file in this slot's store is not what is recorded, which is the size and the digest. `len` bytes of it were
    /// read, and their digest is `found`.
    Damaged {
        slot: u8,
        size: u64,
        digest: Digest,
        len: u64,
        found: Digest,
    },
}

/// Why a step of a rule failed.
#[derive(Clone, Copy, Debug, PartialEq, Eq)]
pub enum Failure {
    /// Its micro-service refused.
    Refused(Refusal),
    /// The rule itself failed, with this number.
    Code(i64),
    /// No rule of the name was applicable.
    NoRule,
    /// The rule call would be too deep.
    Depth,
    /// The command has had all its steps.
    Spent,
    /// A computed argument is too long.
    LongText,
    /// The server stopped in it.
    Stopped,
}

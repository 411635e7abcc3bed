ghost use Rattle.std.specs.Prelude.{◌≡◌, ◌<◌, slice_index_or};
ghost use Rattle.reply_reader.specs.Failures.{heads};

use grid_model::{Failure, Refusal};

/// A refusal whose one field is a number of 64 bits.
#[derive(Clone, Copy, Debug, PartialEq, Eq)]
pub enum Numbered {
    Syntax,
    BadWord,
    BadPath,
    BadName,
    TooLarge,
    BadTriple,
    NoSlot,
    BadQuery,
}

/// What a printed failure begins with, which tells the fields that follow.
#[derive(Clone, Copy, Debug)]
pub enum Head {
    /// It has no fields.
    Plain(Failure),
    Numbered(Numbered),
    Truncated,
    TooMany,
    BadTree,
    BadRule,
    Fault,
    Damaged,
    Code,
}

/// How the line of an error begins where a point failed, and then how each failure begins, with the byte behind it.
pub const NAMES: [&[u8]; 42] = [
    b"PreFailed ",
    b"PostFailed ",
    b"TooLong\n",
    b"Syntax ",
    b"UnknownCommand\n",
    b"BadWord ",
    b"BadPath ",
    b"BadName ",
    b"Truncated ",
    b"NoLogin\n",
    b"Open\n",
    b"NoUpload\n",
    b"TooLarge ",
    b"TooMany ",
    b"BadTriple ",
    b"NoUser\n",
    b"NoMember\n",
    b"NoCollection\n",
    b"NoObject\n",
    b"NoResource\n",
    b"NoSlot ",
    b"NoTarget\n",
    b"NoReplica\n",
    b"NoTriple\n",
    b"NoAccess\n",
    b"NotAdmin\n",
    b"Exists\n",
    b"NotEmpty\n",
    b"Fixed\n",
    b"Inside\n",
    b"LastGood\n",
    b"BadTree ",
    b"BadRule ",
    b"BadQuery ",
    b"Fault ",
    b"Damaged ",
    b"Code ",
    b"NoRule\n",
    b"Depth\n",
    b"Spent\n",
    b"LongText\n",
    b"Stopped\n",
];

/// The heads of failures, in the order of their names.
const HEADS: [Head; 40] = [
    Head::Plain(Failure::Refused(Refusal::TooLong)),
    Head::Numbered(Numbered::Syntax),
    Head::Plain(Failure::Refused(Refusal::UnknownCommand)),
    Head::Numbered(Numbered::BadWord),
    Head::Numbered(Numbered::BadPath),
    Head::Numbered(Numbered::BadName),
    Head::Truncated,
    Head::Plain(Failure::Refused(Refusal::NoLogin)),
    Head::Plain(Failure::Refused(Refusal::Open)),
    Head::Plain(Failure::Refused(Refusal::NoUpload)),
    Head::Numbered(Numbered::TooLarge),
    Head::TooMany,
    Head::Numbered(Numbered::BadTriple),
    Head::Plain(Failure::Refused(Refusal::NoUser)),
    Head::Plain(Failure::Refused(Refusal::NoMember)),
    Head::Plain(Failure::Refused(Refusal::NoCollection)),
    Head::Plain(Failure::Refused(Refusal::NoObject)),
    Head::Plain(Failure::Refused(Refusal::NoResource)),
    Head::Numbered(Numbered::NoSlot),
    Head::Plain(Failure::Refused(Refusal::NoTarget)),
    Head::Plain(Failure::Refused(Refusal::NoReplica)),
    Head::Plain(Failure::Refused(Refusal::NoTriple)),
    Head::Plain(Failure::Refused(Refusal::NoAccess)),
    Head::Plain(Failure::Refused(Refusal::NotAdmin)),
    Head::Plain(Failure::Refused(Refusal::Exists)),
    Head::Plain(Failure::Refused(Refusal::NotEmpty)),
    Head::Plain(Failure::Refused(Refusal::Fixed)),
    Head::Plain(Failure::Refused(Refusal::Inside)),
    Head::Plain(Failure::Refused(Refusal::LastGood)),
    Head::BadTree,
    Head::BadRule,
    Head::Numbered(Numbered::BadQuery),
    Head::Fault,
    Head::Damaged,
    Head::Code,
    Head::Plain(Failure::NoRule),
    Head::Plain(Failure::Depth),
    Head::Plain(Failure::Spent),
    Head::Plain(Failure::LongText),
    Head::Plain(Failure::Stopped),
];

/// The head of this number.
pub fn head_at(index: usize) -> Head
    requires { index < 40 }
    ensures { result ≡ slice_index_or heads index Head.Code }
{
    HEADS[index]
}

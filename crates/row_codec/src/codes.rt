ghost use Rattle.std.specs.Prelude.{◌≡◌, ℕ, Option};
ghost use Rattle.grid_model.specs.Deltas.{user_kind, resource_kind, level, flag};
ghost use Rattle.grid_model.specs.Rows.{item_number};
ghost use Rattle.row_codec.specs.Codes.{entry_kind_number, known_flag, known_user_kind, known_item_kind, known_entry_kind, known_level};
ghost use Rattle.row_codec.specs.Codes.{known_resource_kind, mark_number, known_mark, tag_number, known_tag};

use crate::tags::{EntryKind, MarkTag, Tag};
use grid_model::{ItemKind, Level, ResourceKind, UserKind};

/// A value that one byte stands for.
pub trait Coded: Copy {
    ghost number: { Self → ℕ };

    ghost known: { ℕ → Option Self };

    /// The byte.
    fn code(self) -> u8
        ensures { result ≡ number self };

    /// The value that the byte stands for, where there is one.
    fn of(code: u8) -> Option<Self>
        ensures { result ≡ known code };
}

impl Coded for bool {
    ghost number = { flag };

    ghost known = { known_flag };

    fn code(self) -> u8 {
        if self { 1 } else { 0 }
    }

    fn of(code: u8) -> Option<bool> {
        match code {
            0 => Some(false),
            1 => Some(true),
            _ => None,
        }
    }
}

impl Coded for UserKind {
    ghost number = { user_kind };

    ghost known = { known_user_kind };

    fn code(self) -> u8 {
        match self {
            UserKind::Rodsadmin => 1,
            UserKind::Rodsuser => 2,
            UserKind::Rodsgroup => 3,
        }
    }

    fn of(code: u8) -> Option<UserKind> {
        match code {
            1 => Some(UserKind::Rodsadmin),
            2 => Some(UserKind::Rodsuser),
            3 => Some(UserKind::Rodsgroup),
            _ => None,
        }
    }
}

impl Coded for ItemKind {
    ghost number = { item_number };

    ghost known = { known_item_kind };

    fn code(self) -> u8 {
        match self {
            ItemKind::Object => 1,
            ItemKind::Collection => 2,
            ItemKind::Resource => 3,
            ItemKind::User => 4,
        }
    }

    fn of(code: u8) -> Option<ItemKind> {
        match code {
            1 => Some(ItemKind::Object),
            2 => Some(ItemKind::Collection),
            3 => Some(ItemKind::Resource),
            4 => Some(ItemKind::User),
            _ => None,
        }
    }
}

impl Coded for EntryKind {
    ghost number = { entry_kind_number };

    ghost known = { known_entry_kind };

    fn code(self) -> u8 {
        self.0.code()
    }

    fn of(code: u8) -> Option<EntryKind> {
        match code {
            1 => Some(EntryKind(ItemKind::Object)),
            2 => Some(EntryKind(ItemKind::Collection)),
            _ => None,
        }
    }
}

impl Coded for Level {
    ghost number = { level };

    ghost known = { known_level };

    fn code(self) -> u8 {
        match self {
            Level::Null => 0,
            Level::Read => 1,
            Level::Write => 2,
            Level::Own => 3,
        }
    }

    fn of(code: u8) -> Option<Level> {
        match code {
            1 => Some(Level::Read),
            2 => Some(Level::Write),
            3 => Some(Level::Own),
            _ => None,
        }
    }
}

impl Coded for ResourceKind {
    ghost number = { resource_kind };

    ghost known = { known_resource_kind };

    fn code(self) -> u8 {
        match self {
            ResourceKind::Storage => 1,
            ResourceKind::Passthru => 2,
            ResourceKind::Random => 3,
            ResourceKind::Replication => 4,
        }
    }

    fn of(code: u8) -> Option<ResourceKind> {
        match code {
            1 => Some(ResourceKind::Storage),
            2 => Some(ResourceKind::Passthru),
            3 => Some(ResourceKind::Random),
            4 => Some(ResourceKind::Replication),
            _ => None,
        }
    }
}

impl Coded for MarkTag {
    ghost number = { mark_number };

    ghost known = { known_mark };

    fn code(self) -> u8 {
        match self {
            MarkTag::Ran => 1,
            MarkTag::Fault => 2,
            MarkTag::Bad => 3,
            MarkTag::Stop => 4,
        }
    }

    fn of(code: u8) -> Option<MarkTag> {
        match code {
            1 => Some(MarkTag::Ran),
            2 => Some(MarkTag::Fault),
            3 => Some(MarkTag::Bad),
            4 => Some(MarkTag::Stop),
            _ => None,
        }
    }
}

impl Coded for Tag {
    ghost number = { tag_number };

    ghost known = { known_tag };

    fn code(self) -> u8 {
        match self {
            Tag::Zone => 1,
            Tag::User => 2,
            Tag::Member => 3,
            Tag::NoMember => 4,
            Tag::Collection => 5,
            Tag::NoCollection => 6,
            Tag::Object => 7,
            Tag::NoObject => 8,
            Tag::Replica => 9,
            Tag::NoReplica => 10,
            Tag::Triple => 11,
            Tag::NoTriple => 12,
            Tag::Entry => 13,
            Tag::NoEntry => 14,
            Tag::Resource => 15,
            Tag::Rules => 16,
            Tag::Orphan => 17,
            Tag::NoOrphan => 18,
            Tag::Numbers => 19,
            Tag::Pending => 20,
            Tag::NoPending => 21,
        }
    }

    fn of(code: u8) -> Option<Tag> {
        Some(match code {
            1 => Tag::Zone,
            2 => Tag::User,
            3 => Tag::Member,
            4 => Tag::NoMember,
            5 => Tag::Collection,
            6 => Tag::NoCollection,
            7 => Tag::Object,
            8 => Tag::NoObject,
            9 => Tag::Replica,
            10 => Tag::NoReplica,
            11 => Tag::Triple,
            12 => Tag::NoTriple,
            13 => Tag::Entry,
            14 => Tag::NoEntry,
            15 => Tag::Resource,
            16 => Tag::Rules,
            17 => Tag::Orphan,
            18 => Tag::NoOrphan,
            19 => Tag::Numbers,
            20 => Tag::Pending,
            21 => Tag::NoPending,
            _ => return None,
        })
    }
}

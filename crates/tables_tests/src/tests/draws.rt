//! Random changes with small numbers, so that many of them fit and many do not.
ghost use Rattle.std.specs.Prelude.{◌<◌};

use super::changes::{Change, Collection, Object, Replica, Resource, TEXTS, Triple, User};
use grid_model::{EntryRow, ItemKind, Level, MemberRow, OrphanRow, ResourceKind, UserKind};
use rand_core::utils::NextWord;
use rand_pcg::Pcg32;

/// Ids of all kinds are below this.
pub(crate) const IDS: u32 = 6;

/// Vault numbers are below this.
pub(crate) const VAULTS: u32 = 10;

#[derive(Drop)]
pub(crate) struct Draws {
    generator: Pcg32,
}

impl Draws {
    pub(crate) fn new(seed: u64) -> Draws {
        Draws {
            generator: Pcg32::new(seed, 1),
        }
    }

    fn below(&mut self, bound: u32) -> u32
        requires { 0 < bound }
        ensures { result < bound }
    {
        self.generator.next_word() % bound
    }

    fn id(&mut self) -> u64 {
        u64::from(self.below(IDS))
    }

    fn text(&mut self) -> u8 {
        self.below(u32::from(TEXTS)) as u8
    }

    fn item(&mut self) -> ItemKind {
        match self.below(5) {
            0 => ItemKind::Resource,
            1 => ItemKind::User,
            2 => ItemKind::Collection,
            _ => ItemKind::Object,
        }
    }

    fn user_kind(&mut self) -> UserKind {
        match self.below(3) {
            0 => UserKind::Rodsadmin,
            1 => UserKind::Rodsuser,
            _ => UserKind::Rodsgroup,
        }
    }

    fn level(&mut self) -> Level {
        match self.below(8) {
            0 => Level::Null,
            1 | 2 => Level::Read,
            3 => Level::Write,
            _ => Level::Own,
        }
    }

    fn resource_kind(&mut self) -> ResourceKind {
        match self.below(5) {
            0 => ResourceKind::Passthru,
            1 => ResourceKind::Random,
            2 => ResourceKind::Replication,
            _ => ResourceKind::Storage,
        }
    }

    fn user(&mut self) -> User {
        User {
            id: self.below(IDS),
            kind: self.user_kind(),
            name: self.text(),
        }
    }

    fn member(&mut self) -> MemberRow {
        MemberRow {
            group: self.below(IDS),
            user: self.below(IDS),
        }
    }

    // `/` at least every other time
    fn parent(&mut self) -> u64 {
        if self.below(2) == 0 {
            return 0;
        }
        self.id()
    }

    // `/` one time in eight, since it may be taken away
    fn collection(&mut self) -> Collection {
        if self.below(8) == 0 {
            return Collection {
                id: 0,
                parent: 0,
                name: 0,
            };
        }
        Collection {
            id: self.id(),
            parent: self.parent(),
            name: self.text(),
        }
    }

    fn object(&mut self) -> Object {
        Object {
            id: self.id(),
            collection: self.parent(),
            name: self.text(),
        }
    }

    fn replica(&mut self) -> Replica {
        Replica {
            object: self.id(),
            number: self.below(3),
            leaf: self.below(IDS),
            vault: u64::from(self.below(VAULTS)),
        }
    }

    fn triple(&mut self) -> Triple {
        Triple {
            kind: self.item(),
            id: self.id(),
            value: self.text(),
        }
    }

    fn entry(&mut self) -> EntryRow {
        EntryRow {
            kind: self.item(),
            id: self.id(),
            user: self.below(IDS),
            level: self.level(),
        }
    }

    fn resource(&mut self) -> Resource {
        Resource {
            kind: self.resource_kind(),
            id: self.below(IDS),
            name: self.text(),
            slot: self.below(2) as u8,
            parent: self.below(4),
            place: self.below(3),
        }
    }

    fn orphan(&mut self) -> OrphanRow {
        OrphanRow {
            vault: u64::from(self.below(VAULTS)),
            slot: self.below(3) as u8,
        }
    }

    // a change of items, which are put more often than they are taken away
    fn tree_change(&mut self) -> Change {
        match self.below(16) {
            0 | 1 | 2 | 3 | 4 => Change::Collection(self.collection()),
            5 => Change::NoCollection(self.id()),
            6 | 7 | 8 | 9 | 10 => Change::Object(self.object()),
            11 => Change::NoObject(self.id()),
            _ => Change::Resource(self.resource()),
        }
    }

    // a change of what belongs to items
    fn mark_change(&mut self) -> Change {
        match self.below(10) {
            0 | 1 | 2 => Change::Replica(self.replica()),
            3 => Change::NoReplica {
                object: self.id(),
                number: self.below(3),
            },
            4 => Change::Triple(self.triple()),
            5 => Change::NoTriple(self.triple()),
            6 | 7 => Change::Entry(self.entry()),
            8 => Change::NoEntry(self.entry()),
            _ => Change::Orphan(self.orphan()),
        }
    }

    // a change of users, or of what there is one of
    fn other_change(&mut self) -> Change {
        match self.below(10) {
            0 | 1 => Change::User(self.user()),
            2 | 3 | 4 => Change::Member(self.member()),
            5 => Change::NoMember(self.member()),
            6 => Change::NoOrphan(u64::from(self.below(VAULTS))),
            7 => Change::Numbers(u64::from(self.below(VAULTS))),
            8 => Change::Pending(self.below(IDS)),
            _ => self.lone_change(),
        }
    }

    fn lone_change(&mut self) -> Change {
        match self.below(3) {
            0 => Change::NoPending,
            1 => Change::Rules(self.text()),
            _ => Change::Zone {
                name: self.text(),
                stores: self.below(18) as u8,
            },
        }
    }

    pub(crate) fn change(&mut self) -> Change {
        match self.below(5) {
            0 | 1 => self.tree_change(),
            2 | 3 => self.mark_change(),
            _ => self.other_change(),
        }
    }
}

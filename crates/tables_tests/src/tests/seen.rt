//! All that can be seen of the tables and of the plain rows, as lists of numbers.

use super::changes::{TEXTS, number_of, text};
use super::plain::Plain;
use grid_model::{Item, ItemKind, Level, MemberRow, Path, ResourceKind, Text, UserKind};
use grid_tables::{Kind, Tables};
use std::alloc::{AllocError, Global};
use std::process::Abort;

/// What is not there.
const NONE: u64 = 99;

#[derive(Drop)]
pub(crate) struct Seen {
    alloc: Global,
    ids: u32,
    vaults: u32,
    numbers: Vec<u64>,
}

fn level_number(level: Level) -> u64 {
    match level {
        Level::Null => 0,
        Level::Read => 1,
        Level::Write => 2,
        Level::Own => 3,
    }
}

fn user_number(kind: UserKind) -> u64 {
    match kind {
        UserKind::Rodsadmin => 1,
        UserKind::Rodsuser => 2,
        UserKind::Rodsgroup => 3,
    }
}

fn resource_number(kind: ResourceKind) -> u64 {
    match kind {
        ResourceKind::Storage => 1,
        ResourceKind::Passthru => 2,
        ResourceKind::Random => 3,
        ResourceKind::Replication => 4,
    }
}

fn item(kind: ItemKind, id: u32) -> Item {
    match kind {
        ItemKind::Object => Item::Object(u64::from(id)),
        ItemKind::Collection => Item::Collection(u64::from(id)),
        ItemKind::Resource => Item::Resource(id),
        ItemKind::User => Item::User(id),
    }
}

impl Seen {
    // Nothing yet. Ids and numbers of replicas from the one on are not looked for, nor vault numbers from the other one on.
    fn new(alloc: Global, ids: u32, vaults: u32) -> Seen {
        Seen {
            alloc,
            ids,
            vaults,
            numbers: Vec::new(alloc),
        }
    }

    fn add(&mut self, numbers: &[u64]) -> Result<(), AllocError> {
        for number in numbers {
            self.numbers.push(*number)?;
        }
        Ok(())
    }

    // a path from its last name on, and what stands there
    fn add_path(&mut self, path: &Path, there: Option<u64>) -> Result<(), AllocError> {
        for name in path.names().iter().rev() {
            self.add(&[u64::from(number_of(name))])?;
        }
        self.add(&[NONE, there.unwrap_or(NONE)])
    }

    // What the tables show of everything.
    fn see_tables(&mut self, tables: &Tables) -> Result<(), AllocError> {
        self.see_counts(tables)?;
        self.see_users(tables)?;
        self.see_resources(tables)?;
        for id in 0..self.ids {
            self.see_collection(tables, u64::from(id))?;
            self.see_object(tables, u64::from(id))?;
            for kind in [
                ItemKind::Object,
                ItemKind::Collection,
                ItemKind::Resource,
                ItemKind::User,
            ] {
                self.see_marks(tables, item(kind, id))?;
            }
        }
        self.see_rest(tables)
    }

    fn see_counts(&mut self, tables: &Tables) -> Result<(), AllocError> {
        for kind in [
            Kind::Users,
            Kind::Collections,
            Kind::Objects,
            Kind::Resources,
            Kind::Members,
            Kind::Triples,
            Kind::Entries,
        ] {
            self.add(&[tables.count(kind)])?;
        }
        Ok(())
    }

    fn see_users(&mut self, tables: &Tables) -> Result<(), AllocError> {
        for id in 0..self.ids {
            if let Some(row) = tables.user(id) {
                self.add(&[u64::from(row.id), user_number(row.kind)])?;
                let named = tables.user_named(&row.name);
                self.add(&[named.map_or(NONE, u64::from)])?;
                self.add(&[u64::from(number_of(&row.name))])?;
            }
        }
        for row in tables.members() {
            self.add(&[u64::from(row.group), u64::from(row.user)])?;
        }
        Ok(())
    }

    fn see_resources(&mut self, tables: &Tables) -> Result<(), AllocError> {
        for id in 0..self.ids {
            if let Some(row) = tables.resource(id) {
                self.add(&[u64::from(row.id), resource_number(row.kind)])?;
                self.add(&[u64::from(row.slot), u64::from(row.parent)])?;
                self.add(&[u64::from(row.place), u64::from(number_of(&row.name))])?;
                let named = tables.resource_named(&row.name);
                self.add(&[named.map_or(NONE, u64::from)])?;
            }
        }
        Ok(())
    }

    fn see_collection(&mut self, tables: &Tables, id: u64) -> Result<(), AllocError> {
        if let Some(row) = tables.collection(id) {
            self.add(&[row.id, row.parent])?;
            let path = tables.path_of(self.alloc, Item::Collection(id))?;
            self.add_path(&path, tables.collection_at(&path))?;
        }
        Ok(())
    }

    fn see_object(&mut self, tables: &Tables, id: u64) -> Result<(), AllocError> {
        if let Some(row) = tables.object(id) {
            self.add(&[row.id, row.collection])?;
            let path = tables.path_of(self.alloc, Item::Object(id))?;
            self.add_path(&path, tables.object_at(&path))?;
        }
        for row in tables.replicas_of(id) {
            self.add(&[row.object, u64::from(row.number)])?;
            self.add(&[u64::from(row.leaf), row.vault])?;
        }
        Ok(())
    }

    fn see_marks(&mut self, tables: &Tables, item: Item) -> Result<(), AllocError> {
        for row in tables.access_of(item) {
            self.add(&[u64::from(row.user), level_number(row.level)])?;
        }
        for number in 0..TEXTS {
            let value = Text::copy_of(self.alloc, text(number))?;
            for row in tables.triples_of(item) {
                if row.value == value {
                    self.add(&[u64::from(number)])?;
                }
            }
        }
        Ok(())
    }

    fn see_rest(&mut self, tables: &Tables) -> Result<(), AllocError> {
        for row in tables.orphans() {
            self.add(&[row.vault, u64::from(row.slot)])?;
        }
        let pending = tables.pending().map_or(NONE, |row| u64::from(row.user));
        self.add(&[pending, u64::from(number_of(tables.rules()))])?;
        self.add(&[u64::from(tables.stores()), tables.numbers().next_vault])
    }
}

impl Seen {
    // What the plain rows show of everything, in the same order.
    fn see_plain(&mut self, plain: &Plain) -> Result<(), AllocError> {
        self.plain_counts(plain)?;
        self.plain_users(plain)?;
        self.plain_resources(plain)?;
        for id in 0..self.ids {
            self.plain_collection(plain, u64::from(id))?;
            self.plain_object(plain, u64::from(id))?;
            for kind in [
                ItemKind::Object,
                ItemKind::Collection,
                ItemKind::Resource,
                ItemKind::User,
            ] {
                self.plain_marks(plain, kind, u64::from(id))?;
            }
        }
        self.plain_rest(plain)
    }

    fn plain_counts(&mut self, plain: &Plain) -> Result<(), AllocError> {
        for count in [
            plain.users.len(),
            plain.collections.len(),
            plain.objects.len(),
            plain.resources.len(),
            plain.members.len(),
            plain.triples.len(),
            plain.entries.len(),
        ] {
            self.add(&[count as u64])?;
        }
        Ok(())
    }

    fn plain_users(&mut self, plain: &Plain) -> Result<(), AllocError> {
        for id in 0..self.ids {
            for row in &plain.users {
                if row.id == id {
                    self.add(&[u64::from(row.id), user_number(row.kind)])?;
                    self.add(&[u64::from(row.id), u64::from(row.name)])?;
                }
            }
        }
        for group in 0..self.ids {
            for user in 0..self.ids {
                if plain.is_in(MemberRow { group, user }) {
                    self.add(&[u64::from(group), u64::from(user)])?;
                }
            }
        }
        Ok(())
    }

    fn plain_resources(&mut self, plain: &Plain) -> Result<(), AllocError> {
        for id in 0..self.ids {
            if let Some(row) = plain.resource(id) {
                self.add(&[u64::from(row.id), resource_number(row.kind)])?;
                self.add(&[u64::from(row.slot), u64::from(row.parent)])?;
                self.add(&[u64::from(row.place), u64::from(row.name)])?;
                self.add(&[u64::from(row.id)])?;
            }
        }
        Ok(())
    }

    // the names from a collection up to `/`
    fn plain_way(&mut self, plain: &Plain, id: u64) -> Result<(), AllocError> {
        let mut current = id;
        for _step in 0..self.ids {
            if let Some(row) = plain.collection(current) {
                if current != 0 {
                    self.add(&[u64::from(row.name)])?;
                    current = row.parent;
                }
            }
        }
        Ok(())
    }

    fn plain_collection(&mut self, plain: &Plain, id: u64) -> Result<(), AllocError> {
        if let Some(row) = plain.collection(id) {
            self.add(&[row.id, row.parent])?;
            self.plain_way(plain, id)?;
            self.add(&[NONE, id])?;
        }
        Ok(())
    }

    fn plain_object(&mut self, plain: &Plain, id: u64) -> Result<(), AllocError> {
        if let Some(row) = plain.object(id) {
            self.add(&[row.id, row.collection, u64::from(row.name)])?;
            self.plain_way(plain, row.collection)?;
            self.add(&[NONE, id])?;
        }
        for number in 0..self.ids {
            if let Some(row) = plain.replica_at(id, number) {
                self.add(&[row.object, u64::from(row.number)])?;
                self.add(&[u64::from(row.leaf), row.vault])?;
            }
        }
        Ok(())
    }

    fn plain_marks(&mut self, plain: &Plain, kind: ItemKind, id: u64) -> Result<(), AllocError> {
        for user in 0..self.ids {
            if let Some(level) = plain.level_of(kind, id, user) {
                self.add(&[u64::from(user), level_number(level)])?;
            }
        }
        for number in 0..TEXTS {
            for row in &plain.triples {
                if row.kind == kind && row.id == id && row.value == number {
                    self.add(&[u64::from(number)])?;
                }
            }
        }
        Ok(())
    }

    fn plain_rest(&mut self, plain: &Plain) -> Result<(), AllocError> {
        for vault in 0..self.vaults {
            if let Some(slot) = plain.slot_of_orphan(u64::from(vault)) {
                self.add(&[u64::from(vault), u64::from(slot)])?;
            }
        }
        self.add(&[
            plain.pending.map_or(NONE, u64::from),
            u64::from(plain.rules),
        ])?;
        self.add(&[u64::from(plain.stores), plain.next_vault])
    }
}

/// The tables and the plain rows show the same of ids and of vault numbers below these.
pub(crate) fn show_the_same(
    rt: &impl Abort,
    alloc: Global,
    tables: &Tables,
    plain: &Plain,
    (ids, vaults): (u32, u32),
    note: u32,
) -> Result<(), AllocError> {
    let mut shown = Seen::new(alloc, ids, vaults);
    shown.see_tables(tables)?;
    let mut wanted = Seen::new(alloc, ids, vaults);
    wanted.see_plain(plain)?;
    assert_eq!(rt;
        shown.numbers.as_slice(),
        wanted.numbers.as_slice(),
        "{note}"
    );
    Ok(())
}

ghost use Rattle.std.specs.Prelude.{◌≡◌, Ok, Err, IsOk, OnOk, OnErr, IfErr};
ghost use Rattle.grid_model.specs.Applying.{apply};
ghost use Rattle.grid_model.specs.Rows.{empty_cat};
ghost use Rattle.grid_tables.specs.declared.error.TableError.TheVariants.{BadDelta, Memory};

use crate::TableError;
use crate::index_key::{AccessOfUser, BoxedItem, GroupOfUser, NamedId};
use crate::indexed::Indexed;
use crate::named::Named;
use crate::table::Table;
use crate::vaults::Replicas;
use grid_model::{
    CollectionRow, Delta, EntryRow, MemberRow, Numbers, ObjectRow, OrphanRow, Pending, ResourceRow,
    Text, TripleRow, UserRow,
};
use std::alloc::Global;
use std::marker::Model;

/// The rows of the catalogue. Contracts see the catalogue.
#[derive(Debug, Drop)]
pub struct Tables {
    pub(crate) zone: Option<Text>,
    pub(crate) stores: u8,
    pub(crate) users: Indexed<UserRow, NamedId>,
    pub(crate) members: Indexed<MemberRow, GroupOfUser>,
    pub(crate) collections: Named<CollectionRow>,
    pub(crate) objects: Named<ObjectRow>,
    pub(crate) replicas: Replicas,
    pub(crate) triples: Indexed<TripleRow, BoxedItem>,
    pub(crate) entries: Indexed<EntryRow, AccessOfUser>,
    pub(crate) resources: Indexed<ResourceRow, NamedId>,
    pub(crate) rules: Text,
    pub(crate) orphans: Table<OrphanRow>,
    pub(crate) numbers: Numbers,
    pub(crate) pending: Option<Pending>,
}

impl Model for Tables {
    ghost use Rattle.grid_model.specs.Rows.{Cat};

    ghost Value = { Cat };

    ghost view = { λ t. record {
      zone = t.zone;
      stores = t.stores;
      users = t.users;
      members = t.members;
      collections = t.collections;
      objects = t.objects;
      replicas = t.replicas;
      triples = t.triples;
      entries = t.entries;
      resources = t.resources;
      rules = t.rules;
      orphans = t.orphans;
      numbers = t.numbers;
      pending = t.pending;
    } };
}

impl Tables {
    /// The tables with no rows. It takes no memory.
    pub fn empty(alloc: Global) -> Tables
        ensures { result ≡ empty_cat }
    {
        Tables {
            zone: None,
            stores: 0,
            users: Indexed::empty(alloc),
            members: Indexed::empty(alloc),
            collections: Named::empty(alloc),
            objects: Named::empty(alloc),
            replicas: Replicas::empty(alloc),
            triples: Indexed::empty(alloc),
            entries: Indexed::empty(alloc),
            resources: Indexed::empty(alloc),
            rules: Text::from_vec(Vec::new(alloc)),
            orphans: Table::empty(alloc),
            numbers: Numbers {
                next_vault: 1,
                run: 0,
                last: 0,
            },
            pending: None,
        }
    }
    /// Applies a delta. Refuses with `BadDelta` and the number of its kind exactly what does not fit the rows that are
    /// there; the text of a delta 16 is not looked at. After a refusal and for want of memory the tables are as before.
    pub fn apply(&mut self, delta: Delta) -> Result<(), TableError>
        ensures applied { OnOk result (apply self.old delta ≡ Ok self.new) }
        ensures refused { IfErr result (λ error. (cause : _) → error ≡ BadDelta cause → apply self.old delta ≡ Err cause) }
        ensures memory { result ≡ Err Memory → IsOk (apply self.old delta) }
        ensures unchanged { OnErr result (self.new ≡ self.old) }
    {
        match delta {
            Delta::Zone { name, stores } => self.apply_zone(name, stores),
            Delta::User(row) => self.apply_user(row),
            Delta::Member(row) => self.apply_member(row),
            Delta::NoMember(row) => self.apply_no_member(row),
            Delta::Collection(row) => self.apply_collection(row),
            Delta::NoCollection { id } => self.apply_no_collection(id),
            Delta::Object(row) => self.apply_object(row),
            Delta::NoObject { id } => self.apply_no_object(id),
            Delta::Replica(row) => self.apply_replica(row),
            Delta::NoReplica { object, number } => self.apply_no_replica(object, number),
            Delta::Triple(row) => self.apply_triple(row),
            Delta::NoTriple(row) => self.apply_no_triple(row),
            Delta::Entry(row) => self.apply_entry(row),
            Delta::NoEntry { kind, id, user } => self.apply_no_entry(kind, id, user),
            Delta::Resource(row) => self.apply_resource(row),
            Delta::Rules { text } => {
                self.apply_rules(text);
                Ok(())
            }
            Delta::Orphan(row) => self.apply_orphan(row),
            Delta::NoOrphan { vault } => self.apply_no_orphan(vault),
            Delta::Numbers(numbers) => self.apply_numbers(numbers),
            Delta::Pending(pending) => self.apply_pending(pending),
            Delta::NoPending => self.apply_no_pending(),
        }
    }
}

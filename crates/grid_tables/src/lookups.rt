ghost use Rattle.std.specs.Prelude.{◌≡◌, ◌==◌, ◌<◌, ◌+◌, ◌&&◌, true, false, filter, find, option_map, IfSome, IfNone};
ghost use Rattle.std.specs.Option.{option_copied};
ghost use Rattle.grid_model.specs.Names.{same_text};
ghost use Rattle.grid_model.specs.Rows.{IsCat, has_collection, has_object, has_resource, has_user, user, replicas_of, triples_of, access_of, kind_of, id_of};
ghost use Rattle.grid_tables.specs.IndexKeys.{AreKeysOf};
ghost use Rattle.grid_tables.specs.Indexes.{IsIndex, place_cmp};
ghost use Rattle.grid_tables.specs.KeyOrders.{access_of_user_cmp, access_of_row, group_cmp, group_of, leaf_cmp, leaf_of, valued_cmp, valued_of};

use crate::{AccessOfUser, BoxedItem, ChildIds, GroupOfUser, ReplicaOnLeaf, Tables};
use grid_model::{
    EntryRow, Item, ItemKind, MemberRow, Numbers, OrphanRow, Pending, ReplicaRow, ResourceRow,
    Text, TripleRow, UserRow,
};
use sorted_list::Run;

/// Look-ups. None of them takes memory.
impl Tables {
    /// The name of the zone, once it has one.
    pub fn zone(&self) -> Option<&Text>
        ensures { option_copied result ≡ self.now.zone }
    {
        self.zone.as_ref()
    }

    /// How many stores there are: 0 without a zone, else 1 to 16.
    pub fn stores(&self) -> u8
        ensures { result ≡ self.now.stores }
    {
        self.stores
    }

    /// The user or the group with this id.
    pub fn user(&self, id: u32) -> Option<&UserRow>
        ensures { option_copied result ≡ user self.now id }
    {
        self.users.get(u64::from(id))
    }

    /// The id of the user or the group with this name.
    pub fn user_named(&self, name: &Text) -> Option<u32>
        ensures { result ≡ option_map (λ r. r.id) (find (λ r. same_text r.name name.now) self.now.users) }
    {
        let _rows = self.users.as_slice();
        match self.users.first(name) {
            Some(key) => Some(key.id),
            None => None,
        }
    }

    /// The id of the resource with this name.
    pub fn resource_named(&self, name: &Text) -> Option<u32>
        ensures { result ≡ option_map (λ r. r.id) (find (λ r. same_text r.name name.now) self.now.resources) }
    {
        let _rows = self.resources.as_slice();
        match self.resources.first(name) {
            Some(key) => Some(key.id),
            None => None,
        }
    }

    /// The users and groups, by id.
    pub fn users(&self) -> &[UserRow]
        ensures { result.now ≡ self.now.users }
    {
        self.users.as_slice()
    }

    /// The resources, by id.
    pub fn resources(&self) -> &[ResourceRow]
        ensures { result.now ≡ self.now.resources }
    {
        self.resources.as_slice()
    }

    /// An id from 1 on that no collection has, above all of theirs; none where 2^64 - 1 is taken.
    pub fn next_collection_id(&self) -> Option<u64>
        ensures fresh { IfSome result (λ id. has_collection self.now id ≡ false) }
        ensures some { IfSome result (λ id. 0 < id) }
        ensures none { IfNone result (has_collection self.now u64.MAX ≡ true) }
    {
        self.collections.next_id()
    }

    /// An id from 1 on that no object has, above all of theirs; none where 2^64 - 1 is taken.
    pub fn next_object_id(&self) -> Option<u64>
        ensures fresh { IfSome result (λ id. has_object self.now id ≡ false) }
        ensures some { IfSome result (λ id. 0 < id) }
        ensures none { IfNone result (has_object self.now u64.MAX ≡ true) }
    {
        self.objects.next_id()
    }

    /// An id from 1 on that no user and no group has, above all of theirs; none where 2^32 - 1 is taken.
    pub fn next_user_id(&self) -> Option<u32>
        ensures fresh { IfSome result (λ id. has_user self.now id ≡ false) }
        ensures some { IfSome result (λ id. 0 < id) }
        ensures none { IfNone result (has_user self.now u32.MAX ≡ true) }
    {
        match self.users.last() {
            Some(row) => next_after(row.id),
            None => Some(1),
        }
    }

    /// An id from 1 on that no resource has, above all of theirs; none where 2^32 - 1 is taken.
    pub fn next_resource_id(&self) -> Option<u32>
        ensures fresh { IfSome result (λ id. has_resource self.now id ≡ false) }
        ensures some { IfSome result (λ id. 0 < id) }
        ensures none { IfNone result (has_resource self.now u32.MAX ≡ true) }
    {
        match self.resources.last() {
            Some(row) => next_after(row.id),
            None => Some(1),
        }
    }

    /// The ids of the collections in this one, in the order of their names. `/` is in itself, and the first there.
    pub fn collections_in(&self, collection: u64) -> ChildIds<'_>
        ensures { IsIndex (λ r. r.id) (place_cmp (λ r. r.parent) (λ r. r.name)) (filter (λ r. r.parent == collection) self.now.collections) result }
    {
        self.collections.children(collection)
    }

    /// The ids of the objects in this collection, in the order of their names.
    pub fn objects_in(&self, collection: u64) -> ChildIds<'_>
        ensures { IsIndex (λ r. r.id) (place_cmp (λ r. r.collection) (λ r. r.name)) (filter (λ r. r.collection == collection) self.now.objects) result }
    {
        self.objects.children(collection)
    }

    /// The members of all groups, by group and then by user.
    pub fn members(&self) -> &[MemberRow]
        ensures { result.now ≡ self.now.members }
    {
        self.members.as_slice()
    }

    /// The groups that a user is in, in rising order.
    pub fn groups_of(&self, user: u32) -> Run<'_, GroupOfUser>
        ensures { AreKeysOf group_of group_cmp (filter (λ m. m.user == user) self.now.members) result }
    {
        self.members.at(user)
    }

    /// The items that give a user or a group access, objects first, by id.
    pub fn items_open_to(&self, user: u32) -> Run<'_, AccessOfUser>
        ensures { AreKeysOf access_of_row access_of_user_cmp (filter (λ e. e.user == user) self.now.entries) result }
    {
        self.entries.at(user)
    }

    /// The replicas on a leaf, by object and number.
    pub fn replicas_on(&self, leaf: u32) -> Run<'_, ReplicaOnLeaf>
        ensures { AreKeysOf leaf_of leaf_cmp (filter (λ r. r.leaf == leaf) self.now.replicas) result }
    {
        self.replicas.on_leaf(leaf)
    }

    /// The vault files that no replica has, by vault number.
    pub fn orphans(&self) -> &[OrphanRow]
        ensures { result.now ≡ self.now.orphans }
    {
        self.orphans.as_slice()
    }

    /// The command that is not done, if there is one.
    pub fn pending(&self) -> Option<&Pending>
        ensures { option_copied result ≡ self.now.pending }
    {
        self.pending.as_ref()
    }

    /// The text of the rules as it is printed, empty before any.
    pub fn rules(&self) -> &Text
        ensures { result.now ≡ self.now.rules }
    {
        &self.rules
    }

    /// The next vault number, the number of the run, and that of its last command that changed something.
    pub fn numbers(&self) -> Numbers
        ensures { result ≡ self.now.numbers }
    {
        self.numbers
    }

    /// The replicas of an object, by number.
    pub fn replicas_of(&self, object: u64) -> &[ReplicaRow]
        ensures { result.now ≡ replicas_of self.now object }
    {
        self.replicas.of_object(object)
    }

    /// The metadata of an item, in the order of attribute, value and unit.
    pub fn triples_of(&self, item: Item) -> &[TripleRow]
        ensures { result.now ≡ triples_of self.now (kind_of item) (id_of item) }
    {
        let (kind, id) = kind_and_id(item);
        self.triples.of_item(kind, id)
    }

    /// The items that have an attribute of this name, each once for each value that it has: by value, objects first, then
    /// collections, resources and users, by id.
    pub fn items_with(&self, attribute: &Text) -> Run<'_, BoxedItem>
        ensures { AreKeysOf valued_of valued_cmp (filter (λ t. same_text t.attribute attribute.now) self.now.triples) result }
    {
        self.triples.at(attribute)
    }

    /// The items that have an attribute of this name with this value, each once: objects first, then collections, resources and
    /// users, by id.
    pub fn items_with_value(&self, attribute: &Text, value: &Text) -> Run<'_, BoxedItem>
        ensures { AreKeysOf valued_of valued_cmp
            (filter (λ t. same_text t.attribute attribute.now && same_text t.value value.now) self.now.triples) result }
    {
        self.triples.at((attribute, value))
    }

    /// The access that an item gives, by user.
    pub fn access_of(&self, item: Item) -> &[EntryRow]
        ensures { result.now ≡ access_of self.now (kind_of item) (id_of item) }
    {
        let (kind, id) = kind_and_id(item);
        self.entries.of_item(kind, id)
    }

    /// The keys of each table strictly rise, and what has a name has one. It does nothing.
    pub fn in_order(&self)
        ensures { IsCat self.now }
    {
        let _users = self.users.as_slice();
        let _members = self.members.as_slice();
        let _collections = self.collections.len();
        let _objects = self.objects.len();
        self.replicas.in_order();
        self.triples.in_order();
        self.entries.in_order();
        let _resources = self.resources.as_slice();
        let _orphans = self.orphans.as_slice();
    }
}

// The id behind this one; none behind 2^32 - 1.
fn next_after(last: u32) -> Option<u32>
    ensures some { IfSome result (λ id. id ≡ last + 1) }
    ensures none { IfNone result (last ≡ u32.MAX) }
{
    if last == u32::MAX {
        return None;
    }
    Some(last + 1)
}

/// The kind and the id of an item.
fn kind_and_id(item: Item) -> (ItemKind, u64)
    ensures kind { result.0 ≡ kind_of item }
    ensures id { result.1 ≡ id_of item }
{
    match item {
        Item::Object(id) => (ItemKind::Object, id),
        Item::Collection(id) => (ItemKind::Collection, id),
        Item::Resource(id) => (ItemKind::Resource, u64::from(id)),
        Item::User(id) => (ItemKind::User, u64::from(id)),
    }
}

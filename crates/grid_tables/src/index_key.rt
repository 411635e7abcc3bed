ghost use Rattle.std.specs.Prelude.{◌≡◌, ⊤, IfOk};
ghost use Rattle.std.specs.Ordering.{nat_cmp, ordering_then};
ghost use Rattle.std.specs.declared.cmp.Ordering.{Ordering};
ghost use Rattle.std.specs.declared.cmp.Ordering.TheVariants.{Equal};
ghost use Rattle.sorted_list.specs.Fronts.{key_falls, key_once};
ghost use Rattle.std.specs.Cmp.{IsTotalOrder};
ghost use Rattle.grid_model.specs.Names.{text_cmp};
ghost use Rattle.grid_model.specs.Rows.{item_number};
ghost use Rattle.std.proofs.Common.{ap};
ghost use Rattle.grid_tables.specs.KeyOrders.{name_cmp, name_total, name_whole, name_falls, number_own};
ghost use Rattle.grid_tables.specs.KeyOrders.{group_cmp, group_total, group_whole, group_of, group_own, group_falls};
ghost use Rattle.grid_tables.specs.KeyOrders.{access_of_user_cmp, access_total, access_whole, access_of_row, access_own, access_falls};
ghost use Rattle.grid_tables.specs.KeyOrders.{leaf_cmp, leaf_total, leaf_whole, leaf_of, leaf_own, leaf_falls};
ghost use Rattle.grid_tables.specs.KeyOrders.{valued_cmp, valued_total, valued_whole, valued_of, attribute_falls, valued_falls};

use crate::kinds::{item_number, then_text};
use crate::row::Row;
use grid_model::{
    EntryRow, ItemKind, MemberRow, ReplicaRow, ResourceRow, Text, TripleRow, UserRow,
};
use sorted_list::{Front, Key, Whole};
use std::alloc::{AllocError, Global};
use std::cmp::Ordering;
use std::marker::Model;

/// A key by which rows of a table are looked for beside their own.
pub(crate) trait IndexKey<T: Row>: Key {
    ghost of: { T → Self };

    /// The key of a row. Fails for want of memory alone.
    fn key_of(alloc: Global, row: &T) -> Result<Self, AllocError>
        ensures { IfOk result (λ key. key ≡ of row.now) };

    /// How the key of a row stands to another key.
    fn compare_key(row: &T, other: &Self) -> Ordering
        ensures { result ≡ Self.order (of row.now) other.now };

    ghost whole: { (a b : Self) → Self.order a b ≡ Equal → a ≡ b };
}

/// A key that no two rows of a table have.
pub(crate) trait OwnKey<T: Row>: IndexKey<T> {
    ghost own: { (a b : T) → Self.of a ≡ Self.of b → T.row_cmp a b ≡ Equal };
}

/// A row, where its key is looked for.
pub(crate) struct OfRow<'a, T> {
    row: &'a T,
}

impl<'a, T> OfRow<'a, T> {
    /// By the key of this row.
    pub(crate) fn new(row: &'a T) -> OfRow<'a, T>
        ensures { result.row.now ≡ row.now }
    {
        OfRow { row }
    }
}

impl<'a, T> Clone for OfRow<'a, T> {
    ghost is_clone = { λ s r. r ≡ s };

    ghost is_infallible = { λ _. ⊤ };

    fn clone(&self) -> Result<OfRow<'a, T>, AllocError> {
        Ok(OfRow { row: self.row })
    }
}

impl<'a, T> Copy for OfRow<'a, T> {}

impl<'a, T: Row, K: IndexKey<T>> Front<K> for OfRow<'a, T> {
    ghost side = { λ q. K.order (K.of q.row.now) };

    ghost falls = { λ q a b less. key_falls K.total (K.of q.row.now) a b less };

    fn side(&self, key: &K) -> Ordering {
        K::compare_key(self.row, key)
    }
}

impl<'a, T: Row, K: IndexKey<T>> Whole<K> for OfRow<'a, T> {
    ghost once = { λ q a b less same. key_once K.total (K.of q.row.now) a b less same };
}

/// The name of a user, a group or a resource, with its id.
#[derive(Debug, Drop)]
pub(crate) struct NamedId {
    pub(crate) name: Text,
    pub(crate) id: u32,
}

impl Key for NamedId {
    ghost order = { name_cmp };

    ghost total = { name_total };

    fn order(&self, other: &NamedId) -> Ordering {
        self.name.cmp(&other.name).then(self.id.cmp(&other.id))
    }
}

impl IndexKey<UserRow> for NamedId {
    ghost of = { λ r. record { name = r.name; id = r.id } };

    ghost whole = { name_whole };

    fn key_of(alloc: Global, row: &UserRow) -> Result<NamedId, AllocError> {
        let name = Text::copy_of(alloc, row.name.as_slice())?;
        Ok(NamedId { name, id: row.id })
    }

    fn compare_key(row: &UserRow, other: &NamedId) -> Ordering {
        row.name.cmp(&other.name).then(row.id.cmp(&other.id))
    }
}

impl OwnKey<UserRow> for NamedId {
    ghost own = { λ a b same. number_own a.id b.id (ap (λ k. k.id) same) };
}

impl IndexKey<ResourceRow> for NamedId {
    ghost of = { λ r. record { name = r.name; id = r.id } };

    ghost whole = { name_whole };

    fn key_of(alloc: Global, row: &ResourceRow) -> Result<NamedId, AllocError> {
        let name = Text::copy_of(alloc, row.name.as_slice())?;
        Ok(NamedId { name, id: row.id })
    }

    fn compare_key(row: &ResourceRow, other: &NamedId) -> Ordering {
        row.name.cmp(&other.name).then(row.id.cmp(&other.id))
    }
}

impl OwnKey<ResourceRow> for NamedId {
    ghost own = { λ a b same. number_own a.id b.id (ap (λ k. k.id) same) };
}

impl Front<NamedId> for &Text {
    ghost side = { λ q k. text_cmp q.now k.name };

    ghost falls = { λ q a b less. name_falls q.now a b less };

    fn side(&self, key: &NamedId) -> Ordering {
        (*self).cmp(&key.name)
    }
}

/// A group that a user is in.
#[derive(Clone, Copy, Debug, PartialEq, Eq)]
pub struct GroupOfUser {
    /// The user.
    pub user: u32,
    /// The group.
    pub group: u32,
}

impl Key for GroupOfUser {
    ghost order = { group_cmp };

    ghost total = { group_total };

    fn order(&self, other: &GroupOfUser) -> Ordering {
        self.user
            .cmp(&other.user)
            .then(self.group.cmp(&other.group))
    }
}

impl IndexKey<MemberRow> for GroupOfUser {
    ghost of = { group_of };

    ghost whole = { group_whole };

    fn key_of(_alloc: Global, row: &MemberRow) -> Result<GroupOfUser, AllocError> {
        Ok(GroupOfUser {
            user: row.user,
            group: row.group,
        })
    }

    fn compare_key(row: &MemberRow, other: &GroupOfUser) -> Ordering {
        row.user.cmp(&other.user).then(row.group.cmp(&other.group))
    }
}

impl OwnKey<MemberRow> for GroupOfUser {
    ghost own = { group_own };
}

impl Front<GroupOfUser> for u32 {
    ghost side = { λ q k. nat_cmp q k.user };

    ghost falls = { group_falls };

    fn side(&self, key: &GroupOfUser) -> Ordering {
        self.cmp(&key.user)
    }
}

/// An item that gives a user or a group access.
#[derive(Clone, Copy, Debug, PartialEq, Eq)]
pub struct AccessOfUser {
    /// The user or the group.
    pub user: u32,
    /// What the item is: an object or a collection.
    pub kind: ItemKind,
    /// Its id.
    pub id: u64,
}

impl Key for AccessOfUser {
    ghost order = { access_of_user_cmp };

    ghost total = { access_total };

    fn order(&self, other: &AccessOfUser) -> Ordering {
        self.user
            .cmp(&other.user)
            .then(item_number(self.kind).cmp(&item_number(other.kind)))
            .then(self.id.cmp(&other.id))
    }
}

impl IndexKey<EntryRow> for AccessOfUser {
    ghost of = { access_of_row };

    ghost whole = { access_whole };

    fn key_of(_alloc: Global, row: &EntryRow) -> Result<AccessOfUser, AllocError> {
        Ok(AccessOfUser {
            user: row.user,
            kind: row.kind,
            id: row.id,
        })
    }

    fn compare_key(row: &EntryRow, other: &AccessOfUser) -> Ordering {
        row.user
            .cmp(&other.user)
            .then(item_number(row.kind).cmp(&item_number(other.kind)))
            .then(row.id.cmp(&other.id))
    }
}

impl OwnKey<EntryRow> for AccessOfUser {
    ghost own = { access_own };
}

impl Front<AccessOfUser> for u32 {
    ghost side = { λ q k. nat_cmp q k.user };

    ghost falls = { access_falls };

    fn side(&self, key: &AccessOfUser) -> Ordering {
        self.cmp(&key.user)
    }
}

/// A replica by the leaf that it is on.
#[derive(Clone, Copy, Debug, PartialEq, Eq)]
pub struct ReplicaOnLeaf {
    /// The resource.
    pub leaf: u32,
    /// The object.
    pub object: u64,
    /// The number of the replica among those of the object.
    pub number: u32,
}

impl Key for ReplicaOnLeaf {
    ghost order = { leaf_cmp };

    ghost total = { leaf_total };

    fn order(&self, other: &ReplicaOnLeaf) -> Ordering {
        self.leaf
            .cmp(&other.leaf)
            .then(self.object.cmp(&other.object))
            .then(self.number.cmp(&other.number))
    }
}

impl IndexKey<ReplicaRow> for ReplicaOnLeaf {
    ghost of = { leaf_of };

    ghost whole = { leaf_whole };

    fn key_of(_alloc: Global, row: &ReplicaRow) -> Result<ReplicaOnLeaf, AllocError> {
        Ok(ReplicaOnLeaf {
            leaf: row.leaf,
            object: row.object,
            number: row.number,
        })
    }

    fn compare_key(row: &ReplicaRow, other: &ReplicaOnLeaf) -> Ordering {
        row.leaf
            .cmp(&other.leaf)
            .then(row.object.cmp(&other.object))
            .then(row.number.cmp(&other.number))
    }
}

impl OwnKey<ReplicaRow> for ReplicaOnLeaf {
    ghost own = { leaf_own };
}

impl Front<ReplicaOnLeaf> for u32 {
    ghost side = { λ q k. nat_cmp q k.leaf };

    ghost falls = { leaf_falls };

    fn side(&self, key: &ReplicaOnLeaf) -> Ordering {
        self.cmp(&key.leaf)
    }
}

/// An item that has an attribute with a value.
#[derive(Debug, Drop)]
pub struct ItemWithValue {
    /// The name of the attribute.
    pub attribute: Text,
    /// The value.
    pub value: Text,
    /// What the item is.
    pub kind: ItemKind,
    /// Its id.
    pub id: u64,
}

/// An item that has an attribute with a value, in a block of memory of its own: among others, eight bytes are moved for it.
#[derive(Debug, Drop)]
pub struct BoxedItem {
    inside: Box<ItemWithValue>,
}

impl Model for BoxedItem {
    ghost use Rattle.grid_tables.specs.declared.index_key.ItemWithValue.{ItemWithValue};

    ghost Value = { ItemWithValue };

    ghost view = { λ b. b.inside.value };
}

impl BoxedItem {
    // The item in a block of its own. Fails for want of memory alone.
    fn new(alloc: Global, item: ItemWithValue) -> Result<BoxedItem, AllocError>
        ensures { IfOk result (λ boxed. boxed ≡ item) }
    {
        let inside = Box::new(alloc, item)?;
        Ok(BoxedItem { inside })
    }

    /// The item. It takes no memory.
    pub fn item(&self) -> &ItemWithValue
        ensures { result.now ≡ self.now }
    {
        &self.inside
    }
}

impl Key for BoxedItem {
    ghost order = { valued_cmp };

    ghost total = { valued_total };

    fn order(&self, other: &BoxedItem) -> Ordering {
        let (one, other) = (self.item(), other.item());
        then_text(
            one.attribute.cmp(&other.attribute),
            &one.value,
            &other.value,
        )
        .then(item_number(one.kind).cmp(&item_number(other.kind)))
        .then(one.id.cmp(&other.id))
    }
}

impl IndexKey<TripleRow> for BoxedItem {
    ghost of = { valued_of };

    ghost whole = { valued_whole };

    fn key_of(alloc: Global, row: &TripleRow) -> Result<BoxedItem, AllocError> {
        let attribute = Text::copy_of(alloc, row.attribute.as_slice())?;
        let value = Text::copy_of(alloc, row.value.as_slice())?;
        let item = ItemWithValue {
            attribute,
            value,
            kind: row.kind,
            id: row.id,
        };
        BoxedItem::new(alloc, item)
    }

    fn compare_key(row: &TripleRow, other: &BoxedItem) -> Ordering {
        let other = other.item();
        then_text(
            row.attribute.cmp(&other.attribute),
            &row.value,
            &other.value,
        )
        .then(item_number(row.kind).cmp(&item_number(other.kind)))
        .then(row.id.cmp(&other.id))
    }
}

/// By the attribute.
impl Front<BoxedItem> for &Text {
    ghost side = { λ q k. text_cmp q.now k.attribute };

    ghost falls = { λ q a b less. attribute_falls q.now a b less };

    fn side(&self, key: &BoxedItem) -> Ordering {
        (*self).cmp(&key.item().attribute)
    }
}

/// By the attribute, and then by the value.
impl Front<BoxedItem> for (&Text, &Text) {
    ghost side = { λ q k. ordering_then (text_cmp q.0.now k.attribute) (text_cmp q.1.now k.value) };

    ghost falls = { λ q a b less. valued_falls q.0.now q.1.now a b less };

    fn side(&self, key: &BoxedItem) -> Ordering {
        let key = key.item();
        then_text(self.0.cmp(&key.attribute), self.1, &key.value)
    }
}

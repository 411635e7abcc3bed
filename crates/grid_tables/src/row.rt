ghost use Rattle.std.specs.Prelude.{◌≡◌, ◌≤◌, ℕ, Bool, true};
ghost use Rattle.std.proofs.Common.{refl};
ghost use Rattle.std.specs.Ordering.{is_eq, nat_cmp, ordering_index};
ghost use Rattle.std.specs.declared.cmp.Ordering.{Ordering};
ghost use Rattle.std.specs.declared.cmp.Ordering.TheVariants.{Less};
ghost use Rattle.std.specs.Cmp.{IsTotalOrder};
ghost use Rattle.grid_model.specs.declared.grid.ItemKind.{ItemKind};
ghost use Rattle.grid_model.specs.declared.grid.ItemKind.TheVariants as kinds;
ghost use Rattle.grid_model.specs.Rows.{item_number, same_item, is_named_user, is_named_object, is_named_resource, user_cmp, member_cmp, collection_cmp};
ghost use Rattle.grid_model.specs.Rows.{object_cmp, replica_cmp, triple_cmp, entry_cmp, resource_cmp, orphan_cmp};
ghost use Rattle.grid_model.proofs.RowOrders.{user_cmp_total, member_cmp_total, collection_cmp_total, object_cmp_total, replica_cmp_total};
ghost use Rattle.grid_model.proofs.RowOrders.{triple_cmp_total, entry_cmp_total, resource_cmp_total, orphan_cmp_total};
ghost use Rattle.grid_tables.specs.Roots.{is_whole_collection};
ghost use Rattle.grid_tables.specs.Items.{order_of_item, belongs_to, replica_falls, triple_falls, entry_falls};
ghost use Rattle.grid_tables.specs.GroupLaws.{item_leads, object_leads};

use crate::grouped::{GroupId, Grouped};
use crate::kinds::{item_number, order_of_item};
use grid_model::{
    CollectionRow, EntryRow, ItemKind, MemberRow, ObjectRow, OrphanRow, ReplicaRow, ResourceRow,
    TripleRow, UserRow,
};
use std::cmp::Ordering;

/// A row of a table, which is put there by its key. What `fits` says of it holds of every row of a table.
pub(crate) trait Row {
    ghost row_cmp: { Self → Self → Ordering };

    ghost fits: { Self → Bool };

    /// How the keys of two rows stand to one another.
    fn cmp_key(&self, other: &Self) -> Ordering
        ensures { result ≡ row_cmp self.now other.now };

    ghost total: { IsTotalOrder row_cmp };
}

impl Row for UserRow {
    ghost row_cmp = { user_cmp };

    ghost fits = { is_named_user };

    ghost total = { user_cmp_total };

    fn cmp_key(&self, other: &UserRow) -> Ordering {
        self.id.cmp(&other.id)
    }
}

impl Row for MemberRow {
    ghost row_cmp = { member_cmp };

    ghost fits = { λ _. true };

    ghost total = { member_cmp_total };

    fn cmp_key(&self, other: &MemberRow) -> Ordering {
        self.group
            .cmp(&other.group)
            .then(self.user.cmp(&other.user))
    }
}

impl Row for CollectionRow {
    ghost row_cmp = { collection_cmp };

    ghost fits = { is_whole_collection };

    ghost total = { collection_cmp_total };

    fn cmp_key(&self, other: &CollectionRow) -> Ordering {
        self.id.cmp(&other.id)
    }
}

impl Row for ObjectRow {
    ghost row_cmp = { object_cmp };

    ghost fits = { is_named_object };

    ghost total = { object_cmp_total };

    fn cmp_key(&self, other: &ObjectRow) -> Ordering {
        self.id.cmp(&other.id)
    }
}

impl Row for ReplicaRow {
    ghost row_cmp = { replica_cmp };

    ghost fits = { λ _. true };

    ghost total = { replica_cmp_total };

    fn cmp_key(&self, other: &ReplicaRow) -> Ordering {
        self.object
            .cmp(&other.object)
            .then(self.number.cmp(&other.number))
    }
}

impl Row for TripleRow {
    ghost row_cmp = { triple_cmp };

    ghost fits = { λ _. true };

    ghost total = { triple_cmp_total };

    fn cmp_key(&self, other: &TripleRow) -> Ordering {
        item_number(self.kind)
            .cmp(&item_number(other.kind))
            .then(self.id.cmp(&other.id))
            .then(self.attribute.cmp(&other.attribute))
            .then(self.value.cmp(&other.value))
            .then(self.unit.cmp(&other.unit))
    }
}

impl Row for EntryRow {
    ghost row_cmp = { entry_cmp };

    ghost fits = { λ _. true };

    ghost total = { entry_cmp_total };

    fn cmp_key(&self, other: &EntryRow) -> Ordering {
        item_number(self.kind)
            .cmp(&item_number(other.kind))
            .then(self.id.cmp(&other.id))
            .then(self.user.cmp(&other.user))
    }
}

impl Row for ResourceRow {
    ghost row_cmp = { resource_cmp };

    ghost fits = { is_named_resource };

    ghost total = { resource_cmp_total };

    fn cmp_key(&self, other: &ResourceRow) -> Ordering {
        self.id.cmp(&other.id)
    }
}

impl Row for OrphanRow {
    ghost row_cmp = { orphan_cmp };

    ghost fits = { λ _. true };

    ghost total = { orphan_cmp_total };

    fn cmp_key(&self, other: &OrphanRow) -> Ordering {
        self.vault.cmp(&other.vault)
    }
}

/// A row that belongs to an item. The rows of one item stand next to one another.
pub(crate) trait OfItem: Grouped {
    ghost is_of: { Self → ItemKind → ℕ → Bool };

    ghost item_order: { ItemKind → ℕ → Self → Ordering };

    ghost item_group: { ItemKind → ℕ → ℕ × ℕ };

    /// How the item of this kind and id stands to the one that it belongs to.
    fn item_order(&self, kind: ItemKind, id: u64) -> Ordering
        ensures { result ≡ item_order kind id self.now };

    /// The number of the group that the rows of an item are in.
    fn item_group(kind: ItemKind, id: u64) -> GroupId
        ensures { result ≡ item_group kind id };

    ghost belongs: { (kind : ItemKind) (id : ℕ) (r : Self) → is_of r kind id ≡ is_eq (item_order kind id r) };

    ghost falls: { (k : ItemKind) (i : ℕ) (a b : Self) → Self.Row.row_cmp a b ≡ Less → ordering_index (item_order k i b) ≤ ordering_index (item_order k i a) };

    ghost in_group: { (kind : ItemKind) (id : ℕ) (r : Self) → is_of r kind id ≡ true → Self.group r ≡ item_group kind id };
}

impl OfItem for ReplicaRow {
    ghost is_of = { λ r. same_item kinds.Object r.object };

    ghost item_order = { λ kind id r. order_of_item kind id kinds.Object r.object };

    ghost belongs = { λ kind id r. belongs_to kind id kinds.Object r.object };

    ghost falls = { λ kind id a b. replica_falls kind id a b };

    ghost item_group = { λ _ id. (0, id) };

    ghost in_group = { λ kind id r same. object_leads kind id r.object same };

    fn item_order(&self, kind: ItemKind, id: u64) -> Ordering {
        order_of_item(kind, id, ItemKind::Object, self.object)
    }

    fn item_group(_kind: ItemKind, id: u64) -> GroupId {
        (0, id)
    }
}

impl OfItem for TripleRow {
    ghost is_of = { λ t. same_item t.kind t.id };

    ghost item_order = { λ kind id t. order_of_item kind id t.kind t.id };

    ghost belongs = { λ kind id t. belongs_to kind id t.kind t.id };

    ghost falls = { λ kind id a b. triple_falls kind id a b };

    ghost item_group = { λ kind id. (item_number kind, id) };

    ghost in_group = { λ kind id r same. item_leads kind id r.kind r.id same };

    fn item_order(&self, kind: ItemKind, id: u64) -> Ordering {
        order_of_item(kind, id, self.kind, self.id)
    }

    fn item_group(kind: ItemKind, id: u64) -> GroupId {
        (item_number(kind), id)
    }
}

impl OfItem for EntryRow {
    ghost is_of = { λ e. same_item e.kind e.id };

    ghost item_order = { λ kind id e. order_of_item kind id e.kind e.id };

    ghost belongs = { λ kind id e. belongs_to kind id e.kind e.id };

    ghost falls = { λ kind id a b. entry_falls kind id a b };

    ghost item_group = { λ kind id. (item_number kind, id) };

    ghost in_group = { λ kind id r same. item_leads kind id r.kind r.id same };

    fn item_order(&self, kind: ItemKind, id: u64) -> Ordering {
        order_of_item(kind, id, self.kind, self.id)
    }

    fn item_group(kind: ItemKind, id: u64) -> GroupId {
        (item_number(kind), id)
    }
}

/// A row whose key is a number.
pub(crate) trait Numbered: Row {
    ghost number: { Self → ℕ };

    /// Its id.
    fn number(&self) -> u64
        ensures { result ≡ number self.now };

    ghost by_number: { (one other : Self) → Self.row_cmp one other ≡ nat_cmp (number one) (number other) };
}

impl Numbered for UserRow {
    ghost number = { λ r. r.id };

    ghost by_number = { λ one other. refl };

    fn number(&self) -> u64 {
        u64::from(self.id)
    }
}

impl Numbered for CollectionRow {
    ghost number = { λ r. r.id };

    ghost by_number = { λ one other. refl };

    fn number(&self) -> u64 {
        self.id
    }
}

impl Numbered for ObjectRow {
    ghost number = { λ r. r.id };

    ghost by_number = { λ one other. refl };

    fn number(&self) -> u64 {
        self.id
    }
}

impl Numbered for ResourceRow {
    ghost number = { λ r. r.id };

    ghost by_number = { λ one other. refl };

    fn number(&self) -> u64 {
        u64::from(self.id)
    }
}

impl Numbered for OrphanRow {
    ghost number = { λ r. r.vault };

    ghost by_number = { λ one other. refl };

    fn number(&self) -> u64 {
        self.vault
    }
}

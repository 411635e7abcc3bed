ghost use Rattle.std.specs.Prelude.{◌≡◌, ℕ, true};
ghost use Rattle.std.specs.declared.cmp.Ordering.TheVariants.{Less, Equal};
ghost use Rattle.std.proofs.Common.{refl};
ghost use Rattle.grid_model.specs.Rows.{item_number};
ghost use Rattle.grid_tables.specs.GroupLists.{group_id_cmp, only_group};
ghost use Rattle.grid_tables.specs.GroupLaws.{tied_group, replica_below, replica_tied, replica_leads};
ghost use Rattle.grid_tables.specs.GroupLaws.{triple_below, triple_tied, entry_below, entry_tied, entry_leads};

use crate::kinds::item_number;
use crate::probe::{EntryKey, Probe, ReplicaKey};
use crate::row::Row;
use grid_model::{EntryRow, MemberRow, ReplicaRow, ResourceRow, TripleRow, UserRow};

/// The number of a group: first of the kind of an item, and then of the item.
pub(crate) type GroupId = (u8, u64);

/// The number of the only group of rows that are all in one.
pub(crate) const ONE_GROUP: GroupId = (0, 0);

/// A row of a group. The rows of one group stand next to one another, in a list of their own.
pub(crate) trait Grouped: Row {
    ghost group: { Self → ℕ × ℕ };

    /// The number of its group.
    fn group(&self) -> GroupId
        ensures { result ≡ group self.now };

    ghost group_below: { (a b : Self) → group_id_cmp (group a) (group b) ≡ Less → Self.row_cmp a b ≡ Less };

    ghost group_tied: { (a b : Self) → Self.row_cmp a b ≡ Equal → group a ≡ group b };
}

/// A row that is handed out in one list with all others, and is in one group with them.
pub(crate) trait InOneGroup: Grouped {
    ghost only: { (r : Self) → Self.group r ≡ (0, 0) };
}

/// A key that says in which group its row is.
pub(crate) trait GroupKey<T: Grouped>: Probe<T> {
    ghost leads_to: { Self → ℕ × ℕ };

    /// The number of the group.
    fn row_group(&self) -> GroupId
        ensures { result ≡ leads_to self.now };

    ghost leads: { (q : Self) (r : T) → Self.is_key_of q r ≡ true → T.group r ≡ leads_to q };
}

impl<T: Grouped> GroupKey<T> for &T {
    ghost leads_to = { λ q. T.group q.now };

    ghost leads = { λ q r same. tied_group T.row_cmp T.group T.group_tied r q.now same };

    fn row_group(&self) -> GroupId {
        (*self).group()
    }
}

/// By the object.
impl Grouped for ReplicaRow {
    ghost group = { λ r. (0, r.object) };

    ghost group_below = { replica_below };

    ghost group_tied = { replica_tied };

    fn group(&self) -> GroupId {
        (0, self.object)
    }
}

impl GroupKey<ReplicaRow> for ReplicaKey {
    ghost leads_to = { λ q. (0, q.object) };

    ghost leads = { λ q r same. replica_leads q.object q.number r same };

    fn row_group(&self) -> GroupId {
        (0, self.object)
    }
}

impl Grouped for UserRow {
    ghost group = { λ _. (0, 0) };

    ghost group_below = { λ a b low. only_group low };

    ghost group_tied = { λ a b same. refl };

    fn group(&self) -> GroupId {
        ONE_GROUP
    }
}

impl InOneGroup for UserRow {
    ghost only = { λ r. refl };
}

impl GroupKey<UserRow> for u64 {
    ghost leads_to = { λ _. (0, 0) };

    ghost leads = { λ q r same. refl };

    fn row_group(&self) -> GroupId {
        ONE_GROUP
    }
}

impl Grouped for MemberRow {
    ghost group = { λ _. (0, 0) };

    ghost group_below = { λ a b low. only_group low };

    ghost group_tied = { λ a b same. refl };

    fn group(&self) -> GroupId {
        ONE_GROUP
    }
}

impl InOneGroup for MemberRow {
    ghost only = { λ r. refl };
}

impl GroupKey<MemberRow> for MemberRow {
    ghost leads_to = { λ _. (0, 0) };

    ghost leads = { λ q r same. refl };

    fn row_group(&self) -> GroupId {
        ONE_GROUP
    }
}

/// By the item.
impl Grouped for TripleRow {
    ghost group = { λ r. (item_number r.kind, r.id) };

    ghost group_below = { triple_below };

    ghost group_tied = { triple_tied };

    fn group(&self) -> GroupId {
        (item_number(self.kind), self.id)
    }
}

/// By the item.
impl Grouped for EntryRow {
    ghost group = { λ r. (item_number r.kind, r.id) };

    ghost group_below = { entry_below };

    ghost group_tied = { entry_tied };

    fn group(&self) -> GroupId {
        (item_number(self.kind), self.id)
    }
}

impl GroupKey<EntryRow> for EntryKey {
    ghost leads_to = { λ q. (item_number q.kind, q.id) };

    ghost leads = { λ q r same. entry_leads q.kind q.id q.user r same };

    fn row_group(&self) -> GroupId {
        (item_number(self.kind), self.id)
    }
}

impl Grouped for ResourceRow {
    ghost group = { λ _. (0, 0) };

    ghost group_below = { λ a b low. only_group low };

    ghost group_tied = { λ a b same. refl };

    fn group(&self) -> GroupId {
        ONE_GROUP
    }
}

impl InOneGroup for ResourceRow {
    ghost only = { λ r. refl };
}

impl GroupKey<ResourceRow> for u64 {
    ghost leads_to = { λ _. (0, 0) };

    ghost leads = { λ q r same. refl };

    fn row_group(&self) -> GroupId {
        ONE_GROUP
    }
}

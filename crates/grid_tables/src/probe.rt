ghost use Rattle.std.specs.Prelude.{◌≡◌, ◌==◌, ◌&&◌, Bool, IsTrue};
ghost use Rattle.std.proofs.Common.{sym, ◌∙◌};
ghost use Rattle.std.specs.declared.cmp.Ordering.{Ordering};
ghost use Rattle.std.specs.declared.cmp.Ordering.TheVariants.{Less};
ghost use Rattle.std.specs.Ordering.{eq_by_cmp, is_eq, is_le, nat_cmp, ordering_then};
ghost use Rattle.std.specs.BTreeMap.Comparable.{le_lt_trans};
ghost use Rattle.grid_model.specs.Applying.{is_entry, is_replica};
ghost use Rattle.grid_model.specs.Rows.{item_number};
ghost use Rattle.grid_model.proofs.RowOrders.{member_cmp_total};
ghost use Rattle.grid_tables.specs.Probes.{same_number, same_pair, same_entry, tied, below_number, below_pair, below_entry};

use crate::kinds::item_number;
use crate::row::{Numbered, Row};
use grid_model::{EntryRow, ItemKind, MemberRow, ReplicaRow};
use std::cmp::Ordering;

/// A key by which a row is looked for. At most one row of a table has it.
pub(crate) trait Probe<T: Row>: Copy {
    ghost compare: { Self → T → Ordering };

    ghost is_key_of: { Self → T → Bool };

    /// How it stands to the key of a row.
    fn compare(&self, row: &T) -> Ordering
        ensures { result ≡ compare self.now row.now };

    ghost decides: { (q : Self) (r : T) → is_key_of q r ≡ is_eq (compare q r) };

    ghost below_greater: { (q : Self) (a b : T) → T.row_cmp a b ≡ Less → IsTrue (is_le (compare q a)) → compare q b ≡ Less };
}

impl<T: Row> Probe<T> for &T {
    ghost compare = { λ q. T.row_cmp q.now };

    ghost is_key_of = { λ q r. eq_by_cmp T.row_cmp r q.now };

    ghost decides = { λ q r. tied T.total q.now r };

    ghost below_greater = { λ q a b less le. le_lt_trans T.total q.now a b le less };

    fn compare(&self, row: &T) -> Ordering {
        (*self).cmp_key(row)
    }
}

impl<T: Numbered> Probe<T> for u64 {
    ghost compare = { λ q r. nat_cmp q (T.number r) };

    ghost is_key_of = { λ q r. T.number r == q };

    ghost decides = { λ q r. same_number q (T.number r) };

    ghost below_greater = { λ q a b less le. below_number q (T.number a) (T.number b) (sym (T.by_number a b) ∙ less) le };

    fn compare(&self, row: &T) -> Ordering {
        self.cmp(&row.number())
    }
}

impl Probe<MemberRow> for MemberRow {
    ghost compare = { λ q r. ordering_then (nat_cmp q.group r.group) (nat_cmp q.user r.user) };

    ghost is_key_of = { λ q r. (r.group == q.group) && (r.user == q.user) };

    ghost decides = { λ q r. same_pair q.group q.user r.group r.user };

    ghost below_greater = { λ q a b less le. le_lt_trans member_cmp_total q a b le less };

    fn compare(&self, row: &MemberRow) -> Ordering {
        self.cmp_key(row)
    }
}

/// The key of a replica.
#[derive(Clone, Copy, Debug, PartialEq, Eq)]
pub(crate) struct ReplicaKey {
    pub(crate) object: u64,
    pub(crate) number: u32,
}

impl Probe<ReplicaRow> for ReplicaKey {
    ghost compare = { λ q r. ordering_then (nat_cmp q.object r.object) (nat_cmp q.number r.number) };

    ghost is_key_of = { λ q. is_replica q.object q.number };

    ghost decides = { λ q r. same_pair q.object q.number r.object r.number };

    ghost below_greater = { λ q a b less le. below_pair q.object q.number a.object a.number b.object b.number le less };

    fn compare(&self, row: &ReplicaRow) -> Ordering {
        self.object
            .cmp(&row.object)
            .then(self.number.cmp(&row.number))
    }
}

/// The key of an entry.
#[derive(Clone, Copy, Debug, PartialEq, Eq)]
pub(crate) struct EntryKey {
    pub(crate) kind: ItemKind,
    pub(crate) id: u64,
    pub(crate) user: u32,
}

impl Probe<EntryRow> for EntryKey {
    ghost compare = { λ q r. ordering_then (nat_cmp (item_number q.kind) (item_number r.kind)) (ordering_then (nat_cmp q.id r.id) (nat_cmp q.user r.user)) };

    ghost is_key_of = { λ q. is_entry q.kind q.id q.user };

    ghost decides = { λ q r. same_entry (item_number q.kind) q.id q.user (item_number r.kind) r.id r.user };

    ghost below_greater = { λ q a b l m. below_entry (item_number q.kind) q.id q.user (item_number a.kind) a.id a.user (item_number b.kind) b.id b.user m l };

    fn compare(&self, row: &EntryRow) -> Ordering {
        item_number(self.kind)
            .cmp(&item_number(row.kind))
            .then(self.id.cmp(&row.id))
            .then(self.user.cmp(&row.user))
    }
}

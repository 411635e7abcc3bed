ghost use Rattle.std.specs.Prelude.{◌≡◌};
ghost use Rattle.grid_model.specs.Applying.{gives_access, is_given, is_group_kind, is_storage, same_kind};
ghost use Rattle.grid_model.specs.Names.{is_name, text_cmp};
ghost use Rattle.std.specs.Ordering.{ordering_then};
ghost use Rattle.grid_model.specs.Rows.{item_number};
ghost use Rattle.grid_tables.specs.Items.{order_of_item};

use crate::texts::text_order;
use grid_model::{ItemKind, Level, ResourceKind, Text, UserKind, check_name};
use std::cmp::Ordering;

/// Whether a text is a name.
pub(crate) fn is_name(text: &Text) -> bool
    ensures { result ≡ is_name text.now }
{
    check_name(text.as_slice()).is_ok()
}

/// Whether an entry of the users' table is a group.
pub(crate) fn is_group_kind(kind: UserKind) -> bool
    ensures { result ≡ is_group_kind kind }
{
    match kind {
        UserKind::Rodsgroup => true,
        UserKind::Rodsadmin | UserKind::Rodsuser => false,
    }
}

/// Whether a resource is a leaf.
pub(crate) fn is_storage(kind: ResourceKind) -> bool
    ensures { result ≡ is_storage kind }
{
    match kind {
        ResourceKind::Storage => true,
        ResourceKind::Passthru | ResourceKind::Random | ResourceKind::Replication => false,
    }
}

/// Whether two resources are of one kind.
pub(crate) fn is_same_kind(one: ResourceKind, other: ResourceKind) -> bool
    ensures { result ≡ same_kind one other }
{
    match one {
        ResourceKind::Storage => matches!(other, ResourceKind::Storage),
        ResourceKind::Passthru => matches!(other, ResourceKind::Passthru),
        ResourceKind::Random => matches!(other, ResourceKind::Random),
        ResourceKind::Replication => matches!(other, ResourceKind::Replication),
    }
}

/// Whether an item of this kind gives access to users.
pub(crate) fn gives_access(kind: ItemKind) -> bool
    ensures { result ≡ gives_access kind }
{
    match kind {
        ItemKind::Object | ItemKind::Collection => true,
        ItemKind::Resource | ItemKind::User => false,
    }
}

/// Whether an entry may give this level.
pub(crate) fn is_given(level: Level) -> bool
    ensures { result ≡ is_given level }
{
    match level {
        Level::Read | Level::Write | Level::Own => true,
        Level::Null => false,
    }
}

/// The number by which an item's kind is ordered.
pub(crate) fn item_number(kind: ItemKind) -> u8
    ensures { result ≡ item_number kind }
{
    match kind {
        ItemKind::Object => 1,
        ItemKind::Collection => 2,
        ItemKind::Resource => 3,
        ItemKind::User => 4,
    }
}

/// How an item stands to another one, by the number of the kind and then by the id.
pub(crate) fn order_of_item(kind: ItemKind, id: u64, other_kind: ItemKind, other: u64) -> Ordering
    ensures { result ≡ order_of_item kind id other_kind other }
{
    item_number(kind)
        .cmp(&item_number(other_kind))
        .then(id.cmp(&other))
}

/// An order, and where that ties, the order of two texts, which are not looked at else.
pub(crate) fn then_text(order: Ordering, one: &Text, other: &Text) -> Ordering
    ensures { result ≡ ordering_then order (text_cmp one.now other.now) }
{
    match order {
        Ordering::Less => Ordering::Less,
        Ordering::Equal => text_order(one.as_slice(), other.as_slice()),
        Ordering::Greater => Ordering::Greater,
    }
}

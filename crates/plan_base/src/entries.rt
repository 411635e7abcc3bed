ghost use Rattle.std.specs.Prelude.{◌≡◌, ◌==◌, ◌++◌, not, filter, IsTrue, OnOk};
ghost use Rattle.std.specs.List.{list_all, AllByRecursion};
ghost use Rattle.grid_model.specs.Applying.{IsMade, gives_access, is_given};
ghost use Rattle.grid_journal.specs.Journal.{can_be_kept};
ghost use Rattle.plan_base.specs.NewItems.{hands_on, handed_rows, handed_to, new_entries};

use grid_model::{Delta, EntryRow, Item, ItemKind, Level};
use grid_tables::Tables;
use std::alloc::AllocError;

/// Adds the changes that give access at a new object or collection with this id, made by the user in the collection: each
/// entry of another user or group that the collection hands on, if it does, and own for the user. Fails for want of memory
/// alone.
pub fn push_new_entries(
    tables: &Tables,
    deltas: &mut Vec<Delta>,
    user: u32,
    collection: u64,
    kind: ItemKind,
    id: u64,
) -> Result<(), AllocError>
    requires made { IsMade tables.now }
    requires gives { IsTrue (gives_access kind) }
    ensures entries { OnOk result (deltas.new.items ≡ deltas.old.items ++ new_entries tables.now user collection kind id) }
    ensures spelled { OnOk result (IsTrue (list_all can_be_kept deltas.old.items) → IsTrue (list_all can_be_kept deltas.new.items)) }
{
    let rows = handed_rows(tables, collection);
    push_handed(rows, deltas, user, kind, id)?;
    deltas.push(entry(kind, id, user, Level::Own))?;
    Ok(())
}

/// Whether the collection with this id hands its access on to what is made in it. It takes no memory.
pub fn hands_on(tables: &Tables, id: u64) -> bool
    ensures { result ≡ hands_on tables.now id }
{
    match tables.collection(id) {
        None => false,
        Some(row) => row.inherit,
    }
}

// The entries that the collection with this id hands on.
fn handed_rows(tables: &Tables, id: u64) -> &[EntryRow]
    requires { IsMade tables.now }
    ensures rows { result.now ≡ handed_rows tables.now id }
    ensures given { AllByRecursion (λ e. IsTrue (is_given e.level)) result.now }
{
    if hands_on(tables, id) {
        tables.access_of(Item::Collection(id))
    } else {
        &[]
    }
}

// Adds these entries but those of this user, for the item of this kind and id.
fn push_handed(
    rows: &[EntryRow],
    deltas: &mut Vec<Delta>,
    user: u32,
    kind: ItemKind,
    id: u64,
) -> Result<(), AllocError>
    requires given { AllByRecursion (λ e. IsTrue (is_given e.level)) rows.now }
    requires gives { IsTrue (gives_access kind) }
    ensures entries { OnOk result (deltas.new.items ≡ deltas.old.items ++ handed_to kind id (filter (λ e. not (e.user == user)) rows.now)) }
    ensures spelled { OnOk result (IsTrue (list_all can_be_kept deltas.old.items) → IsTrue (list_all can_be_kept deltas.new.items)) }
{
    for row in rows {
        if row.user != user {
            deltas.push(entry(kind, id, row.user, row.level))?;
        }
    }
    Ok(())
}

// The change that gives a user or a group this level at the item of this kind and id.
fn entry(kind: ItemKind, id: u64, user: u32, level: Level) -> Delta
    requires given { IsTrue (is_given level) }
    requires gives { IsTrue (gives_access kind) }
    ensures entry { result ≡ Delta.Entry (record { kind = kind; id = id; user = user; level = level }) }
    ensures spelled { IsTrue (can_be_kept result) }
{
    Delta::Entry(EntryRow {
        kind,
        id,
        user,
        level,
    })
}

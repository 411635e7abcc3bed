ghost use Rattle.std.specs.Prelude.{◌≡◌, false, IsTrue, IfOk};
ghost use Rattle.std.specs.List.{list_all};
ghost use Rattle.grid_model.specs.Names.{is_name};
ghost use Rattle.grid_model.specs.Deltas.{delta_fits, text};
ghost use Rattle.grid_model.specs.declared.deltas.Delta.TheVariants as delta;
ghost use Rattle.grid_model.specs.declared.grid.ItemKind.TheVariants.{Collection};
ghost use Rattle.grid_journal.specs.Start.{start_deltas as deltas_of_start};

use grid_model::{
    CollectionRow, Delta, Deltas, EntryRow, ItemKind, Level, Numbers, Text, UserKind, UserRow,
};
use std::alloc::{AllocError, Global};

/// The deltas that make the catalogue of a new grid of tables without rows.
pub(crate) fn start_deltas(
    alloc: Global,
    zone: &Text,
    admin: &Text,
    stores: u8,
) -> Result<Deltas, AllocError>
    requires zone { IsTrue (is_name zone.now) }
    requires admin { IsTrue (is_name admin.now) }
    ensures deltas { IfOk result (λ deltas. deltas ≡ deltas_of_start zone.now admin.now stores) }
    ensures fit { IfOk result (λ deltas. IsTrue (list_all delta_fits deltas)) }
{
    let zone_name = copy_of_name(alloc, zone.as_slice())?;
    let zone_collection = Text::copy_of(alloc, zone.as_slice())?;
    let admin_name = copy_of_name(alloc, admin.as_slice())?;
    let admin_home = Text::copy_of(alloc, admin.as_slice())?;
    let everybody = Text::copy_of(alloc, b"public")?;
    let home = Text::copy_of(alloc, b"home")?;
    let root = Text::from_vec(Vec::new(alloc));
    let deltas = vec![in alloc;
        Delta::Zone {
            name: zone_name,
            stores
        },
        user(1, UserKind::Rodsadmin, admin_name),
        user(2, UserKind::Rodsgroup, everybody),
        collection(0, 0, root),
        collection(1, 0, zone_collection),
        collection(2, 1, home),
        collection(3, 2, admin_home),
        entry(0, 2, Level::Read),
        entry(1, 2, Level::Read),
        entry(2, 2, Level::Read),
        entry(3, 1, Level::Own),
        Delta::Numbers(Numbers {
            next_vault: 1,
            run: 0,
            last: 0
        }),
    ]?;
    Ok(Deltas::from_vec(deltas))
}

// A copy of a name, which can stand in a delta.
fn copy_of_name(alloc: Global, name: &[u8]) -> Result<Text, AllocError>
    requires { IsTrue (is_name name.now) }
    ensures copy { IfOk result (λ copy. copy ≡ name.now) }
    ensures fits { IsTrue (text name.now).fits }
{
    Text::copy_of(alloc, name)
}

fn user(id: u32, kind: UserKind, name: Text) -> Delta
    ensures { result ≡ delta.User (record { id = id; kind = kind; name = name }) }
{
    Delta::User(UserRow { id, kind, name })
}

// A collection that does not hand its access on.
fn collection(id: u64, parent: u64, name: Text) -> Delta
    ensures { result ≡ delta.Collection (record { id = id; parent = parent; name = name; inherit = false }) }
{
    Delta::Collection(CollectionRow {
        id,
        parent,
        name,
        inherit: false,
    })
}

// What a user may do at a collection.
fn entry(id: u64, user: u32, level: Level) -> Delta
    ensures { result ≡ delta.Entry (record { kind = Collection; id = id; user = user; level = level }) }
{
    Delta::Entry(EntryRow {
        kind: ItemKind::Collection,
        id,
        user,
        level,
    })
}

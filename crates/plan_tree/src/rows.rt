ghost use Rattle.std.specs.Prelude.{◌≡◌, find, IsTrue, IfOk};
ghost use Rattle.std.specs.Option.{option_copied};
ghost use Rattle.grid_journal.specs.Journal.{can_be_kept};
ghost use Rattle.grid_model.specs.Applying.{IsMade, is_storage};
ghost use Rattle.grid_model.specs.Names.{is_name, same_text};
ghost use Rattle.grid_model.specs.declared.deltas.Delta.TheVariants as delta;

use grid_model::{ResourceKind, ResourceRow, Text};
use grid_tables::Tables;
use plan_base::name_is_text;
use std::alloc::{AllocError, Global};

// The row of the resource of this name. It takes no memory.
pub(crate) fn row_named<'a>(tables: &'a Tables, name: &Text) -> Option<&'a ResourceRow>
    requires { IsMade tables.now }
    ensures { option_copied result ≡ find (λ r. same_text r.name name.now) tables.now.resources }
{
    match tables.resource_named(name) {
        None => None,
        Some(id) => tables.resource(id),
    }
}

// Whether a resource of this kind keeps files.
pub(crate) fn keeps_files(kind: ResourceKind) -> bool
    ensures { result ≡ is_storage kind }
{
    match kind {
        ResourceKind::Storage => true,
        ResourceKind::Passthru | ResourceKind::Random | ResourceKind::Replication => false,
    }
}

// The row of a resource that is up or down from now on. Fails for want of memory alone.
pub(crate) fn with_status(
    alloc: Global,
    row: &ResourceRow,
    up: bool,
) -> Result<ResourceRow, AllocError>
    requires { IsTrue (is_name row.now.name) }
    ensures row { IfOk result (λ next. next ≡ record row.now { up = up }) }
    ensures spelled { IfOk result (λ next. IsTrue (can_be_kept (delta.Resource next))) }
{
    let bytes = row.name.as_slice();
    name_is_text(bytes);
    let name = Text::copy_of(alloc, bytes)?;
    let (id, slot, parent, place) = (row.id, row.slot, row.parent, row.place);
    Ok(ResourceRow {
        id,
        name,
        kind: row.kind,
        slot,
        up,
        parent,
        place,
    })
}

// The row of a resource at this place among the children of a parent. Fails for want of memory alone.
pub(crate) fn with_place(
    alloc: Global,
    row: &ResourceRow,
    parent: u32,
    place: u32,
) -> Result<ResourceRow, AllocError>
    requires { IsTrue (is_name row.now.name) }
    ensures row { IfOk result (λ next. next ≡ record row.now { parent = parent; place = place }) }
    ensures spelled { IfOk result (λ next. IsTrue (can_be_kept (delta.Resource next))) }
{
    let bytes = row.name.as_slice();
    name_is_text(bytes);
    let name = Text::copy_of(alloc, bytes)?;
    let (id, slot) = (row.id, row.slot);
    Ok(ResourceRow {
        id,
        name,
        kind: row.kind,
        slot,
        up: row.up,
        parent,
        place,
    })
}

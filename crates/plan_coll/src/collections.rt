ghost use Rattle.std.specs.Prelude.{◌≡◌, IsTrue, IfOk};
ghost use Rattle.grid_journal.specs.Journal.{can_be_kept};
ghost use Rattle.grid_model.specs.Names.{is_name};
ghost use Rattle.grid_model.specs.declared.deltas.Delta.TheVariants as delta;

use grid_model::{CollectionRow, Text};
use plan_base::name_is_text;
use std::alloc::{AllocError, Global};

// The row of a collection with a copy of this name. Fails for want of memory alone.
pub(crate) fn collection_row(
    alloc: Global,
    id: u64,
    parent: u64,
    name: &[u8],
    inherit: bool,
) -> Result<CollectionRow, AllocError>
    requires { IsTrue (is_name name.now) }
    ensures row { IfOk result (λ row. row ≡ record { id = id; parent = parent; name = name.now; inherit = inherit }) }
    ensures spelled { IfOk result (λ row. IsTrue (can_be_kept (delta.Collection row))) }
{
    name_is_text(name);
    let name = Text::copy_of(alloc, name)?;
    Ok(CollectionRow {
        id,
        parent,
        name,
        inherit,
    })
}

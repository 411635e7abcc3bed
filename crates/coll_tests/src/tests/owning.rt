//! The owner of tables. To drop some is dear to prove, so there is one, which forgets them in the end.

ghost use Rattle.grid_model.specs.Applying.{IsMade};

use super::listings::listings_are_as_wanted;
use super::plans::steps_come_to_what_is_wanted;
use super::services::calls_come_to_what_is_wanted;
use super::start::fill;
use grid_tables::Tables;
use std::alloc::Global;
use std::mem::forget;
use std::process::Abort;
use std::test::Fail;

/// What is tried of the small grid.
#[derive(Clone, Copy)]
pub(crate) enum Part {
    Plans,
    Services,
    Listings,
}

/// Tries a part over a new small grid.
pub(crate) fn try_part(rt: &impl Abort, alloc: Global, part: Part) -> Result<(), Fail> {
    let mut tables = Tables::empty(alloc);
    let result = try_over(rt, alloc, part, &mut tables);
    forget(tables);
    result
}

fn try_over(rt: &impl Abort, alloc: Global, part: Part, tables: &mut Tables) -> Result<(), Fail>
    requires { IsMade tables.old }
{
    fill(alloc, tables)?;
    match part {
        Part::Plans => steps_come_to_what_is_wanted(rt, alloc, tables),
        Part::Services => calls_come_to_what_is_wanted(rt, alloc, tables),
        Part::Listings => listings_are_as_wanted(rt, alloc, tables),
    }
}

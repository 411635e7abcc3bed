ghost use Rattle.std.specs.Prelude.{◌≡◌, IfOk, IsTrue};
ghost use Rattle.cmd_read.specs.Orders.{NamesThing};
ghost use Rattle.grid_journal.specs.Journal.{AreSpelled};
ghost use Rattle.grid_model.specs.Applying.{IsMade, is_user};
ghost use Rattle.grid_model.specs.Grid.{Thing};
ghost use Rattle.grid_model.specs.Operations.Table.{addmeta, rmmeta};
ghost use Rattle.grid_model.specs.RowGrids.{user_name};
ghost use Rattle.grid_model.specs.Writable.{is_word};
ghost use Rattle.plan_meta.specs.Things.{thing_by};
ghost use Rattle.row_run.specs.Planned.{PlansSaid};
ghost use Rattle.row_run.specs.Verbs.{NamesSome};

use grid_model::{Deltas, ItemKind, PathError, PlanError, Text};
use grid_tables::Tables;
use plan_meta::{ThingName, plan_addmeta, plan_rmmeta, thing_named};
use std::alloc::{AllocError, Global};

// The thing that is told by this kind and this path or name. Fails for want of memory alone.
fn told_thing(alloc: Global, item: ItemKind, name: &Text) -> Result<ThingName, AllocError>
    requires told { NamesSome item name.now }
    ensures { IfOk result (λ told. (thing : Thing) → NamesThing item name.now thing → thing ≡ thing_by told) }
{
    match thing_named(alloc, item, name) {
        Ok(thing) => Ok(thing),
        Err(PathError::Memory) => Err(AllocError),
        Err(PathError::BadPath { at: _ }) => unreachable!(),
    }
}

/// The plan to say this of the thing from now on.
pub(crate) fn plan_said(
    alloc: Global,
    tables: &Tables,
    user: u32,
    item: ItemKind,
    name: &Text,
    attribute: &Text,
    value: &Text,
    unit: &Text,
) -> Result<Deltas, PlanError>
    requires made { IsMade tables.now }
    requires user { IsTrue (is_user tables.now user) }
    requires told { NamesSome item name.now }
    requires attribute { IsTrue (is_word attribute.now) }
    requires value { IsTrue (is_word value.now) }
    requires unit { IsTrue (is_word unit.now) }
    ensures { PlansSaid tables.now (user_name tables.now user) item name.now
        (λ thing. addmeta (record { of = thing; attribute = attribute.now; value = value.now; unit = unit.now })) result }
{
    match told_thing(alloc, item, name) {
        Err(AllocError) => Err(PlanError::Memory),
        Ok(thing) => plan_addmeta(alloc, tables, user, &thing, attribute, value, unit),
    }
}

/// The plan to say this of the thing no longer.
pub(crate) fn plan_unsaid(
    alloc: Global,
    tables: &Tables,
    user: u32,
    item: ItemKind,
    name: &Text,
    attribute: &Text,
    value: &Text,
    unit: &Text,
) -> Result<Deltas, PlanError>
    requires made { IsMade tables.now }
    requires user { IsTrue (is_user tables.now user) }
    requires spelled { AreSpelled tables.now.triples }
    requires told { NamesSome item name.now }
    ensures { PlansSaid tables.now (user_name tables.now user) item name.now
        (λ thing. rmmeta (record { of = thing; attribute = attribute.now; value = value.now; unit = unit.now })) result }
{
    match told_thing(alloc, item, name) {
        Err(AllocError) => Err(PlanError::Memory),
        Ok(thing) => plan_rmmeta(alloc, tables, user, &thing, attribute, value, unit),
    }
}

ghost use Rattle.std.specs.Prelude.{IsTrue};
ghost use Rattle.grid_model.specs.Applying.{IsMade, is_user};
ghost use Rattle.grid_model.specs.Operations.Table.{modresc};
ghost use Rattle.grid_model.specs.RowGrids.{user_name};
ghost use Rattle.plan_base.specs.Plans.{PlansChange};

use crate::rows::{keeps_files, row_named, with_status};
use grid_model::{Delta, Deltas, PlanError, Refusal, Text, TreeCause};
use grid_tables::Tables;
use plan_base::is_admin;
use std::alloc::Global;

/// Plans that a resource that keeps files is up or down from now on (`modresc`). Where it is so already no change is
/// planned.
pub fn plan_modresc(
    alloc: Global,
    tables: &Tables,
    user: u32,
    name: &Text,
    up: bool,
) -> Result<Deltas, PlanError>
    requires made { IsMade tables.now }
    requires user { IsTrue (is_user tables.now user) }
    ensures { PlansChange tables.now (user_name tables.now user) (modresc name.now up) result }
{
    if !is_admin(tables, user) {
        return Err(PlanError::Refused(Refusal::NotAdmin));
    }
    let row = match row_named(tables, name) {
        None => return Err(PlanError::Refused(Refusal::NoResource)),
        Some(row) => row,
    };
    if !keeps_files(row.kind) {
        let cause = TreeCause::Coordinating;
        return Err(PlanError::Refused(Refusal::BadTree { cause }));
    }
    if row.up == up {
        return Ok(Deltas::from_vec(Vec::new(alloc)));
    }
    let next = match with_status(alloc, row, up) {
        Err(_) => return Err(PlanError::Memory),
        Ok(next) => next,
    };
    match vec![in alloc; Delta::Resource(next)] {
        Err(_) => Err(PlanError::Memory),
        Ok(deltas) => Ok(Deltas::from_vec(deltas)),
    }
}

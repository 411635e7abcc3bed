ghost use Rattle.std.specs.Prelude.{◌≡◌, ◌<◌, false, length, IsTrue, IfOk, MatchOption};
ghost use Rattle.grid_model.specs.Applying.{IsMade, is_user};
ghost use Rattle.grid_model.specs.Names.{is_name};
ghost use Rattle.grid_model.specs.Operations.Resources.{can_stand_at};
ghost use Rattle.grid_model.specs.Operations.Table.{mkresc};
ghost use Rattle.grid_model.specs.RowGrids.{user_name};
ghost use Rattle.grid_model.specs.declared.grid.ResourceKind.TheVariants.{Storage};
ghost use Rattle.plan_base.specs.Plans.{PlansChange};
ghost use Rattle.plan_tree.specs.NewResources.{IsResourceFor, IsSlotFor};

use crate::rows::keeps_files;
use grid_model::{Delta, Deltas, PlanError, Refusal, ResourceKind, ResourceRow, Text};
use grid_tables::{Kind, Tables};
use plan_base::{has_room, is_admin, name_is_text, next_resource_id};
use std::alloc::{AllocError, Global};

/// Plans that there is a resource of this name and kind, up and without a parent (`mkresc`). What keeps files does so in
/// the store of the slot, and a resource of another kind has the slot 0.
pub fn plan_mkresc(
    alloc: Global,
    tables: &Tables,
    user: u32,
    name: &Text,
    kind: ResourceKind,
    slot: u64,
) -> Result<Deltas, PlanError>
    requires made { IsMade tables.now }
    requires user { IsTrue (is_user tables.now user) }
    requires named { IsTrue (is_name name.now) }
    requires slot { (kind ≡ Storage → ⊥) → slot ≡ 0 }
    ensures { PlansChange tables.now (user_name tables.now user) (mkresc name.now kind slot) result }
{
    if !is_admin(tables, user) {
        return Err(PlanError::Refused(Refusal::NotAdmin));
    }
    if tables.resource_named(name).is_some() {
        return Err(PlanError::Refused(Refusal::Exists));
    }
    if let Err(refusal) = has_room(tables, Kind::Resources, 1) {
        return Err(PlanError::Refused(refusal));
    }
    let own = match own_slot(tables, kind, slot) {
        None => return Err(PlanError::Refused(Refusal::NoSlot { slot })),
        Some(own) => own,
    };
    let row = match new_row(alloc, tables, name, kind, own) {
        Err(_) => return Err(PlanError::Memory),
        Ok(row) => row,
    };
    match vec![in alloc; Delta::Resource(row)] {
        Err(_) => Err(PlanError::Memory),
        Ok(deltas) => Ok(Deltas::from_vec(deltas)),
    }
}

// The slot of a resource of this kind, none where it has to be that of a store and is not.
fn own_slot(tables: &Tables, kind: ResourceKind, slot: u64) -> Option<u8>
    requires { (kind ≡ Storage → ⊥) → slot ≡ 0 }
    ensures { MatchOption result (can_stand_at kind slot tables.now.stores ≡ false) (IsSlotFor tables.now kind slot) }
{
    if !keeps_files(kind) {
        return Some(0);
    }
    if slot < u64::from(tables.stores()) {
        return Some(slot as u8);
    }
    None
}

// The row of a new resource of this name. Fails for want of memory alone.
fn new_row(
    alloc: Global,
    tables: &Tables,
    name: &Text,
    kind: ResourceKind,
    slot: u8,
) -> Result<ResourceRow, AllocError>
    requires few { length tables.now.resources < 4294967295 }
    requires named { IsTrue (is_name name.now) }
    ensures { IfOk result (IsResourceFor tables.now name.now kind slot) }
{
    let id = next_resource_id(alloc, tables)?;
    let bytes = name.as_slice();
    name_is_text(bytes);
    let name = Text::copy_of(alloc, bytes)?;
    Ok(ResourceRow {
        id,
        name,
        kind,
        slot,
        up: true,
        parent: 0,
        place: 0,
    })
}

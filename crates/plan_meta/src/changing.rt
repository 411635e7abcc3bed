ghost use Rattle.std.specs.Prelude.{◌≡◌, ◌∷◌, [], IsTrue, IfOk};
ghost use Rattle.std.specs.List.{list_all};
ghost use Rattle.grid_journal.specs.Journal.{AreSpelled, can_be_kept};
ghost use Rattle.grid_model.specs.Applying.{IsMade, is_user};
ghost use Rattle.grid_model.specs.Operations.Table.{addmeta, rmmeta};
ghost use Rattle.grid_model.specs.RowGrids.{user_name};
ghost use Rattle.grid_model.specs.Writable.{is_word};
ghost use Rattle.plan_base.specs.Plans.{PlansChange};
ghost use Rattle.plan_meta.specs.Things.{row_saying, thing_by};

use crate::ThingName;
use crate::items::item_to_tag;
use crate::words::{is_said, row_is_kept, row_saying, words_fit};
use grid_model::{Delta, Deltas, Item, PlanError, Refusal, Text};
use grid_tables::{Kind, Tables};
use plan_base::has_room;
use std::alloc::{AllocError, Global};

/// Plans that this is said of the thing (`addmeta`). The texts are words, as those of a line are. Refused are, in this order, a
/// thing that is not there or not the user's to change, texts that do not fit (`BadTriple`), what is said already (`Exists`), and
/// one triple too many (`TooMany`).
pub fn plan_addmeta(
    alloc: Global,
    tables: &Tables,
    user: u32,
    thing: &ThingName,
    attribute: &Text,
    value: &Text,
    unit: &Text,
) -> Result<Deltas, PlanError>
    requires made { IsMade tables.now }
    requires user { IsTrue (is_user tables.now user) }
    requires attribute { IsTrue (is_word attribute.now) }
    requires value { IsTrue (is_word value.now) }
    requires unit { IsTrue (is_word unit.now) }
    ensures { PlansChange tables.now (user_name tables.now user)
        (addmeta (record { of = thing_by thing.now; attribute = attribute.now; value = value.now; unit = unit.now })) result }
{
    let item = match item_to_tag(tables, user, thing) {
        Err(refusal) => return Err(PlanError::Refused(refusal)),
        Ok(item) => item,
    };
    if let Err(refusal) = words_fit(attribute, value, unit) {
        return Err(PlanError::Refused(refusal));
    }
    if is_said(tables, item, attribute, value, unit) {
        return Err(PlanError::Refused(Refusal::Exists));
    }
    if let Err(refusal) = has_room(tables, Kind::Triples, 1) {
        return Err(PlanError::Refused(refusal));
    }
    match add_change(alloc, item, attribute, value, unit) {
        Err(_) => Err(PlanError::Memory),
        Ok(deltas) => Ok(deltas),
    }
}

// The change that says this of the item. Fails for want of memory alone.
fn add_change(
    alloc: Global,
    item: Item,
    attribute: &Text,
    value: &Text,
    unit: &Text,
) -> Result<Deltas, AllocError>
    requires attribute { IsTrue (is_word attribute.now) }
    requires value { IsTrue (is_word value.now) }
    requires unit { IsTrue (is_word unit.now) }
    ensures change { IfOk result (λ deltas. deltas ≡ Delta.Triple (row_saying item attribute.now value.now unit.now) ∷ []) }
    ensures spelled { IfOk result (λ deltas. IsTrue (list_all can_be_kept deltas)) }
{
    let row = row_saying(alloc, item, attribute, value, unit)?;
    row_is_kept(&row);
    Ok(Deltas::from_vec(vec![in alloc; Delta::Triple(row)]?))
}

/// Plans that this is no longer said of the thing (`rmmeta`). Refused are, in this order, a thing that is not there or not the
/// user's to change, texts that do not fit (`BadTriple`), and what is not said (`NoTriple`).
pub fn plan_rmmeta(
    alloc: Global,
    tables: &Tables,
    user: u32,
    thing: &ThingName,
    attribute: &Text,
    value: &Text,
    unit: &Text,
) -> Result<Deltas, PlanError>
    requires made { IsMade tables.now }
    requires user { IsTrue (is_user tables.now user) }
    requires spelled { AreSpelled tables.now.triples }
    ensures { PlansChange tables.now (user_name tables.now user)
        (rmmeta (record { of = thing_by thing.now; attribute = attribute.now; value = value.now; unit = unit.now })) result }
{
    let item = match item_to_tag(tables, user, thing) {
        Err(refusal) => return Err(PlanError::Refused(refusal)),
        Ok(item) => item,
    };
    if let Err(refusal) = words_fit(attribute, value, unit) {
        return Err(PlanError::Refused(refusal));
    }
    if !is_said(tables, item, attribute, value, unit) {
        return Err(PlanError::Refused(Refusal::NoTriple));
    }
    match drop_change(alloc, item, attribute, value, unit) {
        Err(_) => Err(PlanError::Memory),
        Ok(deltas) => Ok(deltas),
    }
}

// The change by which this is no longer said of the item. Fails for want of memory alone.
fn drop_change(
    alloc: Global,
    item: Item,
    attribute: &Text,
    value: &Text,
    unit: &Text,
) -> Result<Deltas, AllocError>
    ensures { IfOk result (λ deltas. deltas ≡ Delta.NoTriple (row_saying item attribute.now value.now unit.now) ∷ []) }
{
    let row = row_saying(alloc, item, attribute, value, unit)?;
    Ok(Deltas::from_vec(vec![in alloc; Delta::NoTriple(row)]?))
}

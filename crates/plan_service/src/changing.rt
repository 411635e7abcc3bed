ghost use Rattle.std.specs.Prelude.{◌≡◌, Some, IsTrue};
ghost use Rattle.grid_journal.specs.Journal.{AreSpelled};
ghost use Rattle.grid_model.specs.Applying.{IsMade, is_user};
ghost use Rattle.grid_model.specs.Doing.{do_operation};
ghost use Rattle.grid_model.specs.Names.{Text as TextOf};
ghost use Rattle.grid_model.specs.Operations.Table.{Operation, addmeta, rmmeta};
ghost use Rattle.grid_model.specs.RowGrids.{user_name};
ghost use Rattle.grid_model.specs.Rows.{Cat};
ghost use Rattle.grid_model.specs.Services.{operation};
ghost use Rattle.grid_model.specs.declared.calls.Call.{Call as CallOf};
ghost use Rattle.plan_base.specs.Plans.{PlansChange};
ghost use Rattle.plan_meta.specs.Things.{thing_by};
ghost use Rattle.plan_service.specs.ServicePlans.{AddsWords, PlansDoing};
ghost use Rattle.service_read.specs.ReadServices.{subject_thing, whole_triple};

use crate::{ServiceError, ServicePlan};
use grid_model::{Deltas, PlanError};
use grid_tables::Tables;
use plan_meta::{ThingName, plan_addmeta, plan_rmmeta};
use service_read::{Subject, Triple};
use std::alloc::Global;

/// The plan of an operation that changes rows alone, by the changes that are planned of it.
pub(crate) fn changes_of(planned: Result<Deltas, PlanError>) -> Result<ServicePlan, ServiceError>
    ensures { (c : Cat) (user : TextOf) (call : CallOf) (op : Operation) → PlansChange c user op planned →
        PlansDoing c user call (do_operation call user op) result }
{
    match planned {
        Ok(deltas) => Ok(ServicePlan::Changes(deltas)),
        Err(why) => Err(ServiceError::from(why)),
    }
}

/// Plans that this is said of a thing.
pub(crate) fn plan_said(
    alloc: Global,
    tables: &Tables,
    user: u32,
    triple: Triple<'_>,
) -> Result<Deltas, PlanError>
    requires made { IsMade tables.now }
    requires user { IsTrue (is_user tables.now user) }
    requires words { AddsWords (Some (operation (addmeta (whole_triple triple)))) }
    ensures { PlansChange tables.now (user_name tables.now user) (addmeta (whole_triple triple.entry)) result }
{
    let thing = thing_of(triple.of);
    plan_addmeta(
        alloc,
        tables,
        user,
        &thing,
        triple.attribute,
        triple.value,
        triple.unit,
    )
}

/// Plans that this is no longer said of a thing.
pub(crate) fn plan_unsaid(
    alloc: Global,
    tables: &Tables,
    user: u32,
    triple: Triple<'_>,
) -> Result<Deltas, PlanError>
    requires made { IsMade tables.now }
    requires user { IsTrue (is_user tables.now user) }
    requires spelled { AreSpelled tables.now.triples }
    ensures { PlansChange tables.now (user_name tables.now user) (rmmeta (whole_triple triple.entry)) result }
{
    let thing = thing_of(triple.of);
    plan_rmmeta(
        alloc,
        tables,
        user,
        &thing,
        triple.attribute,
        triple.value,
        triple.unit,
    )
}

// What metadata is of, as a plan names it.
fn thing_of(subject: Subject) -> ThingName
    ensures { thing_by result ≡ subject_thing subject }
{
    match subject {
        Subject::Object(path) => ThingName::ObjectAt(path),
        Subject::Collection(path) => ThingName::CollectionAt(path),
        Subject::Resource(name) => ThingName::ResourceNamed(name),
        Subject::User(name) => ThingName::UserNamed(name),
    }
}

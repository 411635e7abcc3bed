ghost use Rattle.std.specs.Prelude.{Some, IsTrue};
ghost use Rattle.std.specs.List.{list_all};
ghost use Rattle.grid_journal.specs.Journal.{AreSpelled};
ghost use Rattle.grid_model.specs.Applying.{IsMade, is_user};
ghost use Rattle.grid_model.specs.Doing.{do_service};
ghost use Rattle.grid_model.specs.RowGrids.{user_name};
ghost use Rattle.grid_model.specs.Services.{service};
ghost use Rattle.grid_model.specs.Writable.{is_word};
ghost use Rattle.grid_model.specs.declared.calls.Call.{Call as CallOf};
ghost use Rattle.plan_service.specs.ServicePlans.{AddsWords, PlansDoing, PlansCall};
ghost use Rattle.service_read.specs.ReadServices.{service_of};

use crate::changing::{changes_of, plan_said, plan_unsaid};
use crate::deeds::{chksum_deed, copy_deed, repl_deed};
use crate::{ServiceError, ServicePlan};
use grid_model::{Call, Deltas, Failure, Refusal};
use grid_tables::Tables;
use plan_coll::{plan_chmod, plan_mkdir, plan_move, plan_rmdir};
use plan_drop::{plan_rm, plan_trim};
use service_read::{Service, read_service};
use std::alloc::Global;

/// Plans what a call of a micro-service by the user with this id does. Where it fails whatever marks come it is `Failed`: with
/// `NoRule` if there is no such micro-service with such arguments, and else refused, with `BadPath` for an argument that is to be a
/// path and is none, or by its operation. It calls no store.
pub fn plan_call(
    alloc: Global,
    tables: &Tables,
    user: u32,
    call: &Call,
) -> Result<ServicePlan, ServiceError>
    requires made { IsMade tables.now }
    requires user { IsTrue (is_user tables.now user) }
    requires spelled { AreSpelled tables.now.triples }
    requires words { AddsWords (service call.now) }
    ensures { PlansCall tables.now (user_name tables.now user) call.now result }
{
    match read_service(alloc, call) {
        Err(_) => Err(ServiceError::Memory),
        Ok(None) => Err(ServiceError::Failed(Failure::NoRule)),
        Ok(Some(service)) => plan_service(alloc, tables, user, service),
    }
}

// The same of what the call asks for.
fn plan_service(
    alloc: Global,
    tables: &Tables,
    user: u32,
    service: Service<'_>,
) -> Result<ServicePlan, ServiceError>
    requires made { IsMade tables.now }
    requires user { IsTrue (is_user tables.now user) }
    requires spelled { AreSpelled tables.now.triples }
    requires words { AddsWords (Some (service_of service)) }
    ensures { (call : CallOf) →
        PlansDoing tables.now (user_name tables.now user) call (do_service call (user_name tables.now user) (Some (service_of service.entry))) result }
{
    match service {
        Service::Nothing => Ok(ServicePlan::Changes(Deltas::from_vec(Vec::new(alloc)))),
        Service::MkDir { path } => changes_of(plan_mkdir(alloc, tables, user, &path)),
        Service::RmDir { path } => changes_of(plan_rmdir(alloc, tables, user, &path)),
        Service::Mv { from, to } => changes_of(plan_move(alloc, tables, user, &from, &to)),
        Service::Repl { path, resource } => repl_deed(alloc, tables, user, path, resource),
        Service::ChkSum { path } => chksum_deed(alloc, tables, user, path),
        Service::Copy { from, to, resource } => {
            copy_deed(alloc, tables, user, from, to, resource)
        }
        Service::Trim { path, resource } => {
            changes_of(plan_trim(alloc, tables, user, &path, resource))
        }
        Service::Rm { path } => changes_of(plan_rm(alloc, tables, user, &path)),
        Service::AddMeta(triple) => changes_of(plan_said(alloc, tables, user, triple)),
        Service::RmMeta(triple) => changes_of(plan_unsaid(alloc, tables, user, triple)),
        Service::ChMod { level, name, path } => {
            changes_of(plan_chmod(alloc, tables, user, level, name, &path))
        }
        Service::NoPath { at } => {
            Err(ServiceError::Failed(Failure::Refused(Refusal::BadPath { at })))
        }
    }
}

/// A call whose arguments are words adds words. It does nothing.
pub fn words_are_added(call: &Call)
    requires { IsTrue (list_all is_word call.now.args) }
    ensures { AddsWords (service call.now) }
{}

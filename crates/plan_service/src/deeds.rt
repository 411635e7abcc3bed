ghost use Rattle.std.specs.Prelude.{IsTrue};
ghost use Rattle.grid_model.specs.Applying.{IsMade, is_user};
ghost use Rattle.grid_model.specs.Doing.{do_operation};
ghost use Rattle.grid_model.specs.Operations.Table.{chksum, copy, repl};
ghost use Rattle.grid_model.specs.RowGrids.{user_name};
ghost use Rattle.grid_model.specs.declared.calls.Call.{Call as CallOf};
ghost use Rattle.plan_service.specs.ServicePlans.{PlansDoing};

use crate::{ServiceError, ServicePlan};
use grid_model::{Path, Text};
use grid_tables::Tables;
use plan_object::{chksum_files, copy_source, repl_source};
use std::alloc::Global;

/// The deed that copies a file of the object at the path to the targets of the resource.
pub(crate) fn repl_deed(
    alloc: Global,
    tables: &Tables,
    user: u32,
    path: Path,
    resource: &Text,
) -> Result<ServicePlan, ServiceError>
    requires made { IsMade tables.now }
    requires user { IsTrue (is_user tables.now user) }
    ensures { (call : CallOf) →
        PlansDoing tables.now (user_name tables.now user) call (do_operation call (user_name tables.now user) (repl path resource.now)) result }
{
    let from = match repl_source(alloc, tables, user, &path, resource) {
        Err(why) => return Err(ServiceError::from(why)),
        Ok(from) => from,
    };
    match Text::copy_of(alloc, resource.as_slice()) {
        Err(_) => Err(ServiceError::Memory),
        Ok(resource) => Ok(ServicePlan::Repl {
            path,
            resource,
            from,
        }),
    }
}

/// The deed that copies a file of the object at the one path to a new object at the other, on the resource.
pub(crate) fn copy_deed(
    alloc: Global,
    tables: &Tables,
    user: u32,
    from: Path,
    to: Path,
    resource: &Text,
) -> Result<ServicePlan, ServiceError>
    requires made { IsMade tables.now }
    requires user { IsTrue (is_user tables.now user) }
    ensures { (call : CallOf) →
        PlansDoing tables.now (user_name tables.now user) call (do_operation call (user_name tables.now user) (copy from to resource.now)) result }
{
    let file = match copy_source(alloc, tables, user, &from, &to, resource) {
        Err(why) => return Err(ServiceError::from(why)),
        Ok(file) => file,
    };
    match Text::copy_of(alloc, resource.as_slice()) {
        Err(_) => Err(ServiceError::Memory),
        Ok(resource) => Ok(ServicePlan::Copy {
            from,
            to,
            resource,
            file,
        }),
    }
}

/// The deed that reads the files of the object at the path.
pub(crate) fn chksum_deed(
    alloc: Global,
    tables: &Tables,
    user: u32,
    path: Path,
) -> Result<ServicePlan, ServiceError>
    requires made { IsMade tables.now }
    requires user { IsTrue (is_user tables.now user) }
    ensures { (call : CallOf) →
        PlansDoing tables.now (user_name tables.now user) call (do_operation call (user_name tables.now user) (chksum path)) result }
{
    match chksum_files(alloc, tables, user, &path) {
        Err(why) => Err(ServiceError::from(why)),
        Ok(files) => Ok(ServicePlan::Chksum { path, files }),
    }
}

ghost use Rattle.std.specs.Prelude.{◌≡◌, IfErr, IfOk, Some, option_map};
ghost use Rattle.grid_model.specs.Services.{service};
ghost use Rattle.service_read.specs.ReadServices.{Explains, reading_by, service_of};

use crate::arguments::{
    level_at, no_arguments, one_path, path_and_resource, paths_and_resource, tagged_thing,
    two_paths,
};
use crate::error::ServiceError;
use crate::names::{ServiceName, service_named};
use crate::services::Service;
use grid_model::{Call, Text};
use std::alloc::{AllocError, Global};

/// What the micro-service is asked for with these arguments.
fn read_arguments<'c>(
    alloc: Global,
    name: ServiceName,
    args: &'c [Text],
) -> Result<Service<'c>, ServiceError>
    ensures service { IfOk result (λ service. reading_by name args.now ≡ Some (service_of service)) }
    ensures refused { IfErr result (λ error. Explains error (reading_by name args.now)) }
{
    match name {
        ServiceName::Nop => {
            no_arguments(args)?;
            Ok(Service::Nothing)
        }
        ServiceName::CollCreate => {
            let path = one_path(alloc, args)?;
            Ok(Service::MkDir { path })
        }
        ServiceName::RmColl => {
            let path = one_path(alloc, args)?;
            Ok(Service::RmDir { path })
        }
        ServiceName::DataObjRename => {
            let (from, to) = two_paths(alloc, args)?;
            Ok(Service::Mv { from, to })
        }
        ServiceName::DataObjRepl => match path_and_resource(alloc, args) {
            Err(error) => Err(error),
            Ok((path, resource)) => Ok(Service::Repl { path, resource }),
        },
        ServiceName::DataObjChksum => {
            let path = one_path(alloc, args)?;
            Ok(Service::ChkSum { path })
        }
        ServiceName::DataObjCopy => match paths_and_resource(alloc, args) {
            Err(error) => Err(error),
            Ok((from, to, resource)) => Ok(Service::Copy { from, to, resource }),
        },
        ServiceName::DataObjTrim => match path_and_resource(alloc, args) {
            Err(error) => Err(error),
            Ok((path, resource)) => Ok(Service::Trim { path, resource }),
        },
        ServiceName::DataObjUnlink => {
            let path = one_path(alloc, args)?;
            Ok(Service::Rm { path })
        }
        ServiceName::AddAvu => match tagged_thing(alloc, args) {
            Err(error) => Err(error),
            Ok(triple) => Ok(Service::AddMeta(triple)),
        },
        ServiceName::RmAvu => match tagged_thing(alloc, args) {
            Err(error) => Err(error),
            Ok(triple) => Ok(Service::RmMeta(triple)),
        },
        ServiceName::SetAcl => match level_at(alloc, args) {
            Err(error) => Err(error),
            Ok((level, name, path)) => Ok(Service::ChMod { level, name, path }),
        },
    }
}

/// What the call asks for, and `None` where it is none of a micro-service with its arguments, as a call of rules is. The steps
/// `cut`, `succeed` and `fail` are none either. Fails for want of memory alone.
pub fn read_service(alloc: Global, call: &Call) -> Result<Option<Service<'_>>, AllocError>
    ensures { IfOk result (λ found. option_map service_of found ≡ service call.now) }
{
    let name = match service_named(&call.name) {
        None => return Ok(None),
        Some(name) => name,
    };
    match read_arguments(alloc, name, call.args.as_slice()) {
        Ok(service) => Ok(Some(service)),
        Err(ServiceError::NoService) => Ok(None),
        Err(ServiceError::NoPath { at }) => Ok(Some(Service::NoPath { at })),
        Err(ServiceError::Memory) => Err(AllocError),
    }
}

ghost use Rattle.std.specs.Prelude.{◌≡◌};
ghost use Rattle.plan_service.specs.ServicePlans.{error_by};

use grid_model::{Failure, PlanError};
use thiserror::Error;

/// Why a call of a micro-service has no plan.
#[derive(Clone, Copy, Debug, PartialEq, Eq, Error)]
pub enum ServiceError {
    /// It fails so, whatever marks come.
    #[error("the call fails")]
    Failed(Failure),
    /// Memory ran out.
    #[error("out of memory")]
    Memory,
}

impl From<PlanError> for ServiceError {
    ghost from_gives = { λ why error. error ≡ error_by why };

    fn from(why: PlanError) -> ServiceError {
        match why {
            PlanError::Refused(refusal) => ServiceError::Failed(Failure::Refused(refusal)),
            PlanError::Memory => ServiceError::Memory,
        }
    }
}

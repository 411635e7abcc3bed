ghost use Rattle.rule_check.specs.declared.error.RuleError.TheVariants.{Memory};
ghost use Rattle.std.specs.Prelude.{◌≡◌};

use grid_model::RuleCause;
use std::alloc::{AllocError, AllocFailed};
use thiserror::Error;

/// Why rules, or a call, are refused.
#[derive(Clone, Copy, Debug, PartialEq, Eq, Error)]
pub enum RuleError {
    /// Of all that is wrong, what stands at the least place, and there comes first in the order of the causes.
    #[error("the rules are wrong at byte {at}")]
    Bad { at: u64, cause: RuleCause },
    /// There was no memory.
    #[error("out of memory")]
    Memory,
}

impl From<AllocError> for RuleError {
    ghost from_gives = { λ _ e. e ≡ Memory };

    fn from(_: AllocError) -> Self {
        RuleError::Memory
    }
}

impl<T: Drop> From<AllocFailed<T>> for RuleError {
    ghost from_gives = { λ _ e. e ≡ Memory };

    fn from(_: AllocFailed<T>) -> Self {
        RuleError::Memory
    }
}

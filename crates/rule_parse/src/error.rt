ghost use Rattle.rule_parse.specs.declared.error.RuleError.TheVariants.{Memory};
ghost use Rattle.std.specs.Prelude.{◌≡◌};

use grid_model::RuleCause;
use std::alloc::{AllocError, AllocFailed};
use thiserror::Error;

/// Why a text gives no rules, or no call.
#[derive(Clone, Copy, Debug, PartialEq, Eq, Error)]
pub enum RuleError {
    /// The text spells none.
    #[error("no rule goes on so at byte {at}")]
    BadRule {
        /// With `Token` the length of the longest front of the text that begins one of tokens, and with `Grammar` the
        /// place of the first token with which those so far begin no rules, or the text's length.
        at: u64,
        /// `Token` or `Grammar`.
        cause: RuleCause,
    },
    /// There was no memory.
    #[error("out of memory")]
    Memory,
}

impl From<AllocError> for RuleError {
    ghost from_gives = { λ _ e. e ≡ Memory };

    fn from(_: AllocError) -> Self {
        RuleError::Memory
    }
}

impl<T: Drop> From<AllocFailed<T>> for RuleError {
    ghost from_gives = { λ _ e. e ≡ Memory };

    fn from(_: AllocFailed<T>) -> Self {
        RuleError::Memory
    }
}

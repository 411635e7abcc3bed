ghost use Rattle.grid_model.specs.Checks.{checked_rules, first_fault, rules_faults};
ghost use Rattle.grid_model.specs.Completing.{IsOfGrid};
ghost use Rattle.grid_model.specs.Parsed.{RuleAt, rule_of};
ghost use Rattle.grid_model.specs.Refusing.{Or};
ghost use Rattle.grid_model.specs.RuleText.{Rule};
ghost use Rattle.grid_model.specs.declared.refusal.Refusal.{Refusal as RefusalOf};
ghost use Rattle.grid_model.specs.declared.refusal.Refusal.TheVariants as refusal;
ghost use Rattle.grid_model.specs.declared.refusal.RuleCause.{RuleCause};
ghost use Rattle.rule_keep.specs.Kept.{IsReadSo, unchecked, unread};
ghost use Rattle.rule_parse.specs.Grammar.{SpellsRules};
ghost use Rattle.rule_parse.specs.RuleOrders.{ReadsRules};
ghost use Rattle.rule_parse.specs.RuleTexts.{IsRefusedText, IsTextOf};
ghost use Rattle.std.specs.Prelude.{◌≡◌, ℕ, None, Err, IfOk, IsErrOf, List, map};

use grid_model::{PlanError, Refusal, Rules};
use rule_check::{RuleError as CheckError, check_rules};
use rule_parse::{RuleError, read_rules};
use std::alloc::Global;

/// How many bytes a text of rules has at most where it is set.
const MOST_BYTES: usize = 65_536;

/// The rules that a text sets. What it gives is spelled by the text and has no fault.
///
/// # Errors
///
/// Refused as `TooLarge` where the text has more than 65,536 bytes, and else as `BadRule` where it spells no rules or
/// those that it spells are not allowed, at the first place and for the cause that count. `Memory` where there is no
/// memory.
pub fn rules_from(alloc: Global, text: &[u8]) -> Result<Rules, PlanError>
    ensures is { (rules : Or (List Rule)) → ReadsRules text.now rules → IsReadSo rules result }
    ensures of_grid { (r : RefusalOf) → IsErrOf result (PlanError.Refused r) → IsOfGrid r }
    ensures checked { IfOk result (λ rs. first_fault (rules_faults (map rule_of rs)) ≡ None) }
    ensures spelled { IfOk result (λ rs. IsTextOf SpellsRules text.now (map rule_of rs)) }
{
    if text.len() > MOST_BYTES {
        return Err(PlanError::Refused(Refusal::TooLarge {
            limit: MOST_BYTES as u64,
        }));
    }
    checked_from(alloc, text)
}

/// The rules that a text of any length spells, if they are allowed.
pub(crate) fn checked_from(alloc: Global, text: &[u8]) -> Result<Rules, PlanError>
    ensures is { (rs : List RuleAt) → IsTextOf SpellsRules text.now rs → IsReadSo (checked_rules rs) result }
    ensures refused { (place : ℕ) (cause : RuleCause) → IsRefusedText SpellsRules text.now place cause
        → IsReadSo (Err (refusal.BadRule place cause)) result }
    ensures of_grid { (r : RefusalOf) → IsErrOf result (PlanError.Refused r) → IsOfGrid r }
    ensures checked { IfOk result (λ rs. first_fault (rules_faults (map rule_of rs)) ≡ None) }
    ensures spelled { IfOk result (λ rs. IsTextOf SpellsRules text.now (map rule_of rs)) }
{
    let rules = match read_rules(alloc, text) {
        Ok(rules) => rules,
        Err(error) => return Err(unread(error)),
    };
    match check_rules(alloc, &rules) {
        Ok(()) => Ok(rules),
        Err(error) => Err(unchecked(error)),
    }
}

// Why a text that is read so is refused.
fn unread(error: RuleError) -> PlanError
    ensures { result ≡ unread error }
{
    match error {
        RuleError::BadRule { at, cause } => PlanError::Refused(Refusal::BadRule { at, cause }),
        RuleError::Memory => PlanError::Memory,
    }
}

// Why rules that are looked at so are refused.
fn unchecked(error: CheckError) -> PlanError
    ensures { result ≡ unchecked error }
{
    match error {
        CheckError::Bad { at, cause } => PlanError::Refused(Refusal::BadRule { at, cause }),
        CheckError::Memory => PlanError::Memory,
    }
}

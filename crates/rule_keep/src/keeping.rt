ghost use Rattle.grid_model.specs.Checks.{first_fault, rules_faults};
ghost use Rattle.grid_model.specs.Parsed.{plain_rule, rule_of};
ghost use Rattle.grid_model.specs.RuleText.{Rule};
ghost use Rattle.rule_keep.specs.Kept.{IsKeptText};
ghost use Rattle.std.specs.Prelude.{◌≡◌, None, IfNone, IfOk, IfSome, List, map};

use crate::setting::checked_from;
use grid_model::{PlanError, Rules, Text};
use rule_parse::print_rules;
use std::alloc::{AllocError, Global};

/// The rules of which this is the text that is kept: the one that is printed of rules that are allowed. There are none
/// where the text spells no such rules, or spells them otherwise than they are printed.
///
/// # Errors
///
/// Fails for want of memory alone.
pub fn kept_rules(alloc: Global, text: &Text) -> Result<Option<Rules>, AllocError>
    ensures some { IfOk result (λ found. IfSome found (λ rs. IsKeptText text.now (map plain_rule (map rule_of rs)))) }
    ensures checked { IfOk result (λ found. IfSome found (λ rs. first_fault (rules_faults (map rule_of rs)) ≡ None)) }
    ensures none { IfOk result (λ found. IfNone found ((rules : List Rule) → ¬ IsKeptText text.now rules)) }
{
    let rules = match checked_from(alloc, text.as_slice()) {
        Ok(rules) => rules,
        Err(PlanError::Refused(_)) => return Ok(None),
        Err(PlanError::Memory) => return Err(AllocError),
    };
    let printed = print_rules(alloc, &rules)?;
    if printed.is_same(text) {
        Ok(Some(rules))
    } else {
        Ok(None)
    }
}

ghost use Rattle.grid_model.specs.Parsed.{call_of, rule_of};
ghost use Rattle.grid_model.specs.declared.refusal.RuleCause.{RuleCause};
ghost use Rattle.rule_lex.specs.Seen.{rule_token_of};
ghost use Rattle.rule_parse.specs.Grammar.{SpellsCall, SpellsRules};
ghost use Rattle.rule_parse.specs.RuleTexts.{located, RulesStopAt};
ghost use Rattle.rule_parse.specs.Seen.{IsStop};
ghost use Rattle.std.specs.Prelude.{ℕ, map, IfOk, IsErrOf};

use crate::calling::Calling;
use crate::error::RuleError;
use crate::reading::Reading;
use grid_model::{Call0, RuleCause, Rules};
use rule_lex::Tokens;
use std::alloc::Global;

/// The rules that these tokens of a text of this length spell.
pub fn rules_from(alloc: Global, tokens: Tokens<'_>, end: usize) -> Result<Rules, RuleError>
    ensures rules { IfOk result (λ rules. SpellsRules (map located (map rule_token_of tokens.entry.items)) (map rule_of rules)) }
    ensures stops { (place : ℕ) (cause : RuleCause) → IsErrOf result (RuleError.BadRule place cause)
        → IsStop SpellsRules (map rule_token_of tokens.entry.items) end place cause }
{
    let mut reading = Reading::new(alloc);
    for token in tokens {
        let at = token.at as u64;
        match reading.take(alloc, at, token.value) {
            Ok(true) => {}
            Ok(false) => {
                drop(reading);
                return Err(RuleError::BadRule {
                    at,
                    cause: RuleCause::Grammar,
                });
            }
            Err(error) => {
                drop(reading);
                return Err(RuleError::from(error));
            }
        }
    }
    match reading.finish() {
        Some(rules) => Ok(rules),
        None => Err(RuleError::BadRule {
            at: end as u64,
            cause: RuleCause::Grammar,
        }),
    }
}

/// The call that these tokens of a text of this length spell.
pub fn call_from(alloc: Global, tokens: Tokens<'_>, end: usize) -> Result<Call0, RuleError>
    ensures call { IfOk result (λ call. SpellsCall (map located (map rule_token_of tokens.entry.items)) (call_of call)) }
    ensures stops { (place : ℕ) (cause : RuleCause) → IsErrOf result (RuleError.BadRule place cause)
        → IsStop SpellsCall (map rule_token_of tokens.entry.items) end place cause }
{
    let mut calling = Calling::new(alloc);
    for token in tokens {
        let at = token.at as u64;
        match calling.take(alloc, at, token.value) {
            Ok(true) => {}
            Ok(false) => {
                drop(calling);
                return Err(RuleError::BadRule {
                    at,
                    cause: RuleCause::Grammar,
                });
            }
            Err(error) => {
                drop(calling);
                return Err(RuleError::from(error));
            }
        }
    }
    match calling.whole() {
        Some(call) => Ok(call),
        None => Err(RuleError::BadRule {
            at: end as u64,
            cause: RuleCause::Grammar,
        }),
    }
}

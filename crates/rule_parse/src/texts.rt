ghost use Rattle.grid_model.specs.Parsed.{CallAt, RuleAt, call_of, rule_of};
ghost use Rattle.grid_model.specs.declared.refusal.RuleCause.{RuleCause};
ghost use Rattle.grid_model.specs.declared.refusal.RuleCause.TheVariants as causes;
ghost use Rattle.rule_lex.specs.Places as lexed;
ghost use Rattle.rule_lex.specs.Seen.{rule_token_of};
ghost use Rattle.rule_lex.specs.Tokens.{PlacedToken, SpellsRuleTokens};
ghost use Rattle.rule_parse.specs.Grammar.{SpellsCall, SpellsRules};
ghost use Rattle.rule_parse.specs.RuleTexts.{IsTextOf, IsRefusedText};
ghost use Rattle.std.specs.Prelude.{◌≡◌, ◌⊎◌, ℕ, List, map, IfOk, MatchResult, IsErrOf};

use crate::error::RuleError;
use crate::parser::{call_from, rules_from};
use grid_model::{Call0, RuleCause, Rules};
use rule_lex::{LexError, Tokens, lex};
use std::alloc::Global;

/// The tokens of a text, with its refusal as that of rules.
fn tokens_of(alloc: Global, text: &[u8]) -> Result<Tokens<'_>, RuleError>
    ensures tokens { IfOk result (λ tokens. SpellsRuleTokens 0 text.now (map rule_token_of tokens.items)) }
    ensures only { (all : List PlacedToken) → SpellsRuleTokens 0 text.now all
        → MatchResult result (λ tokens. map rule_token_of tokens.items ≡ all) (λ e. e ≡ RuleError.Memory) }
    ensures bad_token { (at : ℕ) (cause : RuleCause) → IsErrOf result (RuleError.BadRule at cause)
        → (cause ≡ causes.Token) × lexed.IsSourceRefusedAt text.now at }
{
    match lex(alloc, text) {
        Ok(tokens) => Ok(tokens),
        Err(LexError::BadToken { at }) => Err(RuleError::BadRule {
            at: at as u64,
            cause: RuleCause::Token,
        }),
        Err(LexError::Memory) => Err(RuleError::Memory),
    }
}

/// The rules that a text spells.
///
/// # Errors
///
/// `BadRule` for a text that spells none: with `Token` where it is not made of tokens, at the length of its longest
/// front that begins a text which is, and else with `Grammar` at the first token with which those so far begin no rules,
/// or at the text's length where they begin some. `Memory` where there is no memory.
pub fn read_rules(alloc: Global, text: &[u8]) -> Result<Rules, RuleError>
    ensures rules { IfOk result (λ rules. IsTextOf SpellsRules text.now (map rule_of rules)) }
    // What spells rules is read as those, unless there is no memory.
    ensures only { (rules : List RuleAt) → IsTextOf SpellsRules text.now rules
        → MatchResult result (λ found. map rule_of found ≡ rules) (λ e. e ≡ RuleError.Memory) }
    ensures bad_rule { (at : ℕ) (cause : RuleCause) → IsErrOf result (RuleError.BadRule at cause)
        → IsRefusedText SpellsRules text.now at cause }
    // What is refused at a place is refused there, unless there is no memory.
    ensures refused { (at : ℕ) (cause : RuleCause) → IsRefusedText SpellsRules text.now at cause
        → MatchResult result (λ found. ⊥) (λ e. (e ≡ RuleError.BadRule at cause) ⊎ (e ≡ RuleError.Memory)) }
{
    match tokens_of(alloc, text) {
        Ok(tokens) => rules_from(alloc, tokens, text.len()),
        Err(error) => Err(error),
    }
}

/// The call that a text spells.
///
/// # Errors
///
/// As for [`read_rules`], where `Grammar` speaks of a call.
pub fn read_call(alloc: Global, text: &[u8]) -> Result<Call0, RuleError>
    ensures call { IfOk result (λ call. IsTextOf SpellsCall text.now (call_of call)) }
    // What spells a call is read as that one, unless there is no memory.
    ensures only { (call : CallAt) → IsTextOf SpellsCall text.now call
        → MatchResult result (λ found. call_of found ≡ call) (λ e. e ≡ RuleError.Memory) }
    ensures bad_rule { (at : ℕ) (cause : RuleCause) → IsErrOf result (RuleError.BadRule at cause)
        → IsRefusedText SpellsCall text.now at cause }
    // What is refused at a place is refused there, unless there is no memory.
    ensures refused { (at : ℕ) (cause : RuleCause) → IsRefusedText SpellsCall text.now at cause
        → MatchResult result (λ found. ⊥) (λ e. (e ≡ RuleError.BadRule at cause) ⊎ (e ≡ RuleError.Memory)) }
{
    match tokens_of(alloc, text) {
        Ok(tokens) => call_from(alloc, tokens, text.len()),
        Err(error) => Err(error),
    }
}

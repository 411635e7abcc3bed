ghost use Rattle.std.specs.Prelude.{◌≡◌, ℕ, List, IfOk, MatchResult, map, IsErrOf};
ghost use Rattle.rule_lex.specs.Places.{IsSourceRefusedAt};
ghost use Rattle.rule_lex.specs.Seen.{rule_token_of};
ghost use Rattle.rule_lex.specs.Tokens.{PlacedToken, SpellsRuleTokens};

use crate::error::LexError;
use crate::front::{Front, front_of};
use crate::skip::skip;
use crate::token::{Token, Tokens};
use std::alloc::Global;

/// The tokens of a text, each the longest that stands at its place, with their bytes and places.
///
/// Spaces, tabs, carriage returns, line ends and comments, from `#` to the end of the line, separate tokens.
///
/// # Errors
///
/// `BadToken` where the text is not made of tokens, at the length of its longest front that begins such a text, and
/// `Memory` where there is no memory.
pub fn lex<'a>(alloc: Global, text: &'a [u8]) -> Result<Tokens<'a>, LexError>
    ensures tokens { IfOk result (λ tokens. SpellsRuleTokens 0 text.now (map rule_token_of tokens.items)) }
    // What is made of tokens is read as they are, unless there is no memory.
    ensures only { (all : List PlacedToken) → SpellsRuleTokens 0 text.now all
        → MatchResult result (λ tokens. map rule_token_of tokens.items ≡ all) (λ e. e ≡ LexError.Memory) }
    ensures bad_token { (at : ℕ) → IsErrOf result (LexError.BadToken at) → IsSourceRefusedAt text.now at }
{
    let mut tokens = Vec::new(alloc);
    let mut at = skip(text, 0);
    while at < text.len() {
        match front_of(alloc, &text[at..])? {
            Front::Token(len, value) => {
                let end = at + len;
                let spelled = &text[at..end];
                tokens.push(Token { at, spelled, value })?;
                at = skip(text, end);
            }
            Front::Bad(len) => return Err(LexError::BadToken { at: at + len }),
        }
    }
    Ok(tokens)
}

ghost use Rattle.std.specs.Prelude.{IfOk, map, length};
ghost use Rattle.grid_model.specs.QueryTokens.{SpellsTokens};
ghost use Rattle.query_parse.specs.Seen.{query_token_of};

use crate::front::front_of;
use crate::token::{Kind, Token};
use std::alloc::{AllocError, Global};

/// The tokens of a text. What begins none is the last, and is wrong.
pub fn lex(alloc: Global, text: &[u8]) -> Result<Vec<Token>, AllocError>
    ensures { IfOk result (λ tokens. SpellsTokens (length text.now) text.now (map query_token_of tokens.items)) }
{
    let mut tokens = Vec::new(alloc);
    let mut rest = text;
    while !rest.is_empty() {
        if rest[0] == b' ' {
            rest = &rest[1..];
        } else {
            let at = text.len() - rest.len();
            match front_of(alloc, rest)? {
                Some(found) => {
                    tokens.push(Token {
                        at,
                        kind: found.kind,
                    })?;
                    rest = found.rest;
                }
                None => {
                    tokens.push(Token {
                        at,
                        kind: Kind::Wrong,
                    })?;
                    return Ok(tokens);
                }
            }
        }
    }
    Ok(tokens)
}

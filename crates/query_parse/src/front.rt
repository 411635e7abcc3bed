ghost use Rattle.std.specs.Prelude.{◌≡◌, ◌<◌, length, ℕ, List, IfOk, MatchOption};
ghost use Rattle.grid_model.specs.QueryTokens.{Token as Meant, Front as Begins};
ghost use Rattle.query_parse.specs.Seen.{meaning};

use crate::literals::literal;
use crate::signs::{is_sign, sign};
use crate::token::Kind;
use crate::words::{is_word_byte, word};
use std::alloc::{AllocError, Global};

/// The token at the front of a text, and what follows it.
#[derive(Drop)]
pub struct Front<'a> {
    pub kind: Kind,
    pub rest: &'a [u8],
}

/// The token at the front of a text, if one stands there.
pub fn front_of<'a>(alloc: Global, text: &'a [u8]) -> Result<Option<Front<'a>>, AllocError>
    requires { 0 < length text.now }
    ensures { IfOk result (λ found. MatchOption found
        ((t : Meant) (rest : List ℕ) → ¬ Begins text.now t rest)
        (λ f. Begins text.now (meaning f.kind) f.rest.now)) }
{
    let first = text[0];
    if first == b'\'' {
        return literal(alloc, text);
    }
    if is_sign(first) {
        return Ok(Some(sign(text)));
    }
    if is_word_byte(first) {
        return Ok(Some(word(text)));
    }
    Ok(None)
}

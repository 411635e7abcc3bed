ghost use Rattle.std.specs.Prelude.{◌<◌, length, IfOk};
ghost use Rattle.rule_lex.specs.Fronts.{IsRestFront};

use crate::numbers::number;
use crate::quoted::quoted;
use crate::signs::sign;
use crate::token::Value;
use crate::words::{sigil, word};
use std::alloc::{AllocError, Global};

/// What stands at the front of a rest of a text.
pub enum Front<'a> {
    /// A token of so many bytes.
    Token(usize, Value<'a>),
    /// No token: the longest front that begins one has so many bytes.
    Bad(usize),
}

/// The longest token at the front of the rest.
pub fn front_of<'a>(alloc: Global, rest: &'a [u8]) -> Result<Front<'a>, AllocError>
    requires { 0 < length rest.now }
    ensures { IfOk result (λ f. IsRestFront rest.now f) }
{
    match rest[0] {
        b'A'..=b'Z' | b'a'..=b'z' | b'_' => Ok(word(rest)),
        b'*' | b'$' => Ok(sigil(rest)),
        b'0'..=b'9' | b'-' => Ok(number(rest)),
        b'"' | b'\'' => quoted(alloc, rest),
        _ => Ok(sign(rest)),
    }
}

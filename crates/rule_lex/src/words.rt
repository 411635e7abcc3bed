ghost use Rattle.std.specs.Prelude.{◌≡◌, ◌≢◌, ℕ, ◌+◌, ◌<◌, ◌≤◌, ◌&&◌, length, take, drop, IsTrue, false, slice_index, MatchOption, ◌⊎◌};
ghost use Rattle.std.specs.List.{list_all};
ghost use Rattle.rule_lex.specs.Bytes.{is_rule_name_byte, starts_with_letter};
ghost use Rattle.rule_lex.specs.Fronts.{IsFirstName, IsRestFront};
ghost use Rattle.rule_lex.specs.Symbols.{symbol_text};
ghost use Rattle.rule_lex.specs.Tokens.{is_identifier};
ghost use Rattle.rule_lex.specs.declared.token.Symbol.{Symbol};

use crate::bytes::{is_letter, is_word_byte};
use crate::front::Front;
use crate::token::{Symbol, Value};

/// A name has no more bytes.
const LONGEST: usize = 255;

/// How many letters, digits and `_` stand at the front, at most 255.
pub fn run_len(bytes: &[u8]) -> usize
    ensures within { result ≤ length bytes.now }
    ensures short { result ≤ 255 }
    ensures words { IsTrue (list_all is_rule_name_byte (take result bytes.now)) }
    ensures ends { result < 255 → result < length bytes.now → is_rule_name_byte (slice_index bytes.now result) ≡ false }
{
    let mut len = 0;
    while len < bytes.len() && len < LONGEST && is_word_byte(bytes[len]) {
        len += 1;
    }
    len
}

/// The word of the language that these letters and digits are.
pub fn our_word(bytes: &[u8]) -> Option<Symbol>
    ensures { MatchOption result
        (IsTrue (is_identifier bytes.now) → (x : Symbol) → bytes.now ≢ symbol_text x)
        (λ x. bytes.now ≡ symbol_text x) }
{
    if bytes == b"on".as_slice() {
        Some(Symbol::On)
    } else if bytes == b"like".as_slice() {
        Some(Symbol::Like)
    } else if bytes == b"true".as_slice() {
        Some(Symbol::True)
    } else if bytes == b"false".as_slice() {
        Some(Symbol::False)
    } else {
        None
    }
}

/// How many bytes the longest name at the front has, or `None` where no name stands there.
pub fn name_len(bytes: &[u8]) -> Option<usize>
    ensures { MatchOption result
        (starts_with_letter bytes.now ≡ false)
        (λ n. (n ≤ length bytes.now) × IsFirstName (take n bytes.now) (drop n bytes.now)) }
{
    if bytes.is_empty() || !is_letter(bytes[0]) {
        return None;
    }
    let len = run_len(bytes);
    match our_word(&bytes[..len]) {
        Some(_) => Some(len - 1),
        None => Some(len),
    }
}

/// The name or word of the language at the front of what begins with a letter.
pub fn word<'a>(rest: &'a [u8]) -> Front<'a>
    requires { IsTrue (starts_with_letter rest.now) }
    ensures { IsRestFront rest.now result }
{
    let len = run_len(rest);
    let bytes = &rest[..len];
    match our_word(bytes) {
        Some(symbol) => Front::Token(len, Value::Symbol(symbol)),
        None => Front::Token(len, Value::Name(bytes)),
    }
}

/// The parameter or session variable at the front of what begins with its sign.
pub fn sigil<'a>(rest: &'a [u8]) -> Front<'a>
    requires some { 0 < length rest.now }
    requires begins { (slice_index rest.now 0 ≡ 0x2A) ⊎ (slice_index rest.now 0 ≡ 0x24) }
    ensures { IsRestFront rest.now result }
{
    let after = &rest[1..];
    let Some(len) = name_len(after) else {
        return Front::Bad(1)
    };
    let name = &after[..len];
    if rest[0] == b'*' {
        Front::Token(len + 1, Value::Param(name))
    } else {
        Front::Token(len + 1, Value::Session(name))
    }
}

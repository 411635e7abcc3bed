ghost use Rattle.std.specs.Prelude.{◌≡◌, ◌<◌, length, slice_index, IsTrue};
ghost use Rattle.rule_lex.specs.Bytes.{is_other};
ghost use Rattle.rule_lex.specs.Fronts.{IsRestFront};

use crate::bytes::byte_at;
use crate::front::Front;
use crate::token::{Symbol, Value};

/// The sign at the front of what begins with no letter, digit, quote, `*`, `$` or `-`.
pub fn sign<'a>(rest: &'a [u8]) -> Front<'a>
    requires some { 0 < length rest.now }
    requires begins { IsTrue (is_other (slice_index rest.now 0)) }
    ensures { IsRestFront rest.now result }
{
    let second = byte_at(rest, 1);
    match rest[0] {
        b'(' => Front::Token(1, Value::Symbol(Symbol::OpenParenthesis)),
        b')' => Front::Token(1, Value::Symbol(Symbol::CloseParenthesis)),
        b'{' => Front::Token(1, Value::Symbol(Symbol::OpenBrace)),
        b'}' => Front::Token(1, Value::Symbol(Symbol::CloseBrace)),
        b',' => Front::Token(1, Value::Symbol(Symbol::Comma)),
        b';' => Front::Token(1, Value::Symbol(Symbol::Semicolon)),
        b':' => colons(rest),
        b'+' if second == b'+' => Front::Token(2, Value::Symbol(Symbol::Join)),
        b'=' if second == b'=' => Front::Token(2, Value::Symbol(Symbol::Equal)),
        b'&' if second == b'&' => Front::Token(2, Value::Symbol(Symbol::And)),
        b'|' if second == b'|' => Front::Token(2, Value::Symbol(Symbol::Or)),
        b'+' => Front::Bad(1),
        b'=' => Front::Bad(1),
        b'&' => Front::Bad(1),
        b'|' => Front::Bad(1),
        b'!' if second == b'=' => Front::Token(2, Value::Symbol(Symbol::NotEqual)),
        b'<' if second == b'=' => Front::Token(2, Value::Symbol(Symbol::AtMost)),
        b'>' if second == b'=' => Front::Token(2, Value::Symbol(Symbol::AtLeast)),
        b'!' => Front::Token(1, Value::Symbol(Symbol::Not)),
        b'<' => Front::Token(1, Value::Symbol(Symbol::Less)),
        b'>' => Front::Token(1, Value::Symbol(Symbol::Greater)),
        _ => Front::Bad(0),
    }
}

/// `:::` at the front of what begins with `:`.
fn colons<'a>(rest: &'a [u8]) -> Front<'a>
    requires some { 0 < length rest.now }
    requires begins { slice_index rest.now 0 ≡ 0x3A }
    ensures { IsRestFront rest.now result }
{
    if byte_at(rest, 1) != b':' {
        Front::Bad(1)
    } else if byte_at(rest, 2) != b':' {
        Front::Bad(2)
    } else {
        Front::Token(3, Value::Symbol(Symbol::Recovery))
    }
}

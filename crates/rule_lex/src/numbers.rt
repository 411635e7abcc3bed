ghost use Rattle.std.specs.Prelude.{◌≡◌, ◌^◌, ◌<◌, ◌≤◌, ◌⊎◌, IsTrue, length, slice_index, pos};
ghost use Rattle.rule_lex.specs.Bytes.{is_digit};
ghost use Rattle.rule_lex.specs.Fronts.{IsRestFront, AreDigits};
ghost use Rattle.rule_lex.specs.Tokens.{minus};

use crate::bytes::is_digit;
use crate::front::Front;
use crate::token::Value;

/// The digits of a number, and its value.
#[derive(Clone, Copy)]
struct Digits {
    len: usize,
    value: u64,
}

/// The longest number of at most this value at the front.
fn leading_digits(bytes: &[u8], most: u64) -> Digits
    requires some { 0 < length bytes.now }
    requires digit { IsTrue (is_digit (slice_index bytes.now 0)) }
    requires room { 9 ≤ most }
    ensures { AreDigits bytes.now most result.len result.value }
{
    let mut value = 0;
    let mut len = 0;
    while len < bytes.len() && is_digit(bytes[len]) {
        let next = u128::from(value) * 10 + u128::from(bytes[len] - b'0');
        if next > u128::from(most) {
            break;
        }
        value = next as u64;
        len += 1;
    }
    Digits { len, value }
}

/// The number from zero on with these digits.
fn positive(value: u64) -> i64
    requires { value < 2 ^ 63 }
    ensures { result ≡ pos value }
{
    value as i64
}

/// The number below zero with these digits.
fn negated(value: u64) -> i64
    requires { value ≤ 2 ^ 63 }
    ensures { result ≡ minus value }
{
    (-i128::from(value)) as i64
}

/// The number at the front of what begins with a digit or `-`.
pub fn number<'a>(rest: &'a [u8]) -> Front<'a>
    requires some { 0 < length rest.now }
    requires begins { IsTrue (is_digit (slice_index rest.now 0)) ⊎ (slice_index rest.now 0 ≡ 0x2D) }
    ensures { IsRestFront rest.now result }
{
    if rest[0] == b'0' {
        return Front::Token(1, Value::Number(0));
    }
    if rest[0] != b'-' {
        let digits = leading_digits(rest, (1 << 63) - 1);
        return Front::Token(digits.len, Value::Number(positive(digits.value)));
    }
    let after = &rest[1..];
    if after.is_empty() || after[0] == b'0' || !is_digit(after[0]) {
        return Front::Bad(1);
    }
    let digits = leading_digits(after, 1 << 63);
    Front::Token(digits.len + 1, Value::Number(negated(digits.value)))
}

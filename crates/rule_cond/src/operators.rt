ghost use Rattle.grid_model.specs.Names.{same_text, text_cmp};
ghost use Rattle.grid_model.specs.Values.{by_operator, is_true, less_value, same_value, text_of, truth_value};
ghost use Rattle.grid_model.specs.Wildcards.{matches_star};
ghost use Rattle.grid_model.specs.declared.rules.Operator.TheVariants.{Join};
ghost use Rattle.rule_cond.specs.Seen.{value_of};
ghost use Rattle.std.specs.Fmt.{signed_decimal};
ghost use Rattle.std.specs.Ordering.{is_lt};
ghost use Rattle.std.specs.Prelude.{◌≡◌, ◌≢◌, ◌++◌, IfOk, OnOk};

use crate::names::is_same;
use crate::value::Value;
use grid_model::{Operator, Text};
use rule_like::like_star;
use std::alloc::{AllocError, Global};

/// Whether it is the truth.
pub fn is_true(value: &Value) -> bool
    ensures { result ≡ is_true (value_of value.now) }
{
    match value {
        Value::Truth(truth) => *truth,
        _ => false,
    }
}

/// Adds bytes.
pub fn put(out: &mut Vec<u8>, bytes: &[u8]) -> Result<(), AllocError>
    ensures { OnOk result (out.new.items ≡ out.old.items ++ bytes.now) }
{
    out.extend_from_slice(bytes)?;
    Ok(())
}

/// Adds a number in its decimal form.
pub fn put_number(out: &mut Vec<u8>, alloc: Global, number: i128) -> Result<(), AllocError>
    ensures { OnOk result (out.new.items ≡ out.old.items ++ signed_decimal number) }
{
    let digits = number.to_string(alloc)?;
    put(out, digits.as_bytes())
}

/// A text, or a number in its decimal form.
fn text_of(alloc: Global, value: Value) -> Result<Text, AllocError>
    ensures { IfOk result (λ text. text ≡ text_of (value_of value)) }
{
    let mut bytes = Vec::new(alloc);
    match value {
        Value::Text(text) => return Ok(text),
        Value::Number(number) => put_number(&mut bytes, alloc, number)?,
        Value::Truth(_) => {}
    }
    Ok(Text::from_vec(bytes))
}

/// Whether a text matches a pattern of stars.
fn is_like(text: &[u8], pattern: &[u8]) -> bool
    ensures { result ≡ matches_star pattern.now text.now }
{
    like_star(text, pattern)
}

/// Whether the first of two texts comes first by its bytes.
fn is_less(text: &[u8], other: &[u8]) -> bool
    ensures { result ≡ is_lt (text_cmp text.now other.now) }
{
    text.cmp(other).is_lt()
}

/// Whether two values have one text.
fn has_same_text(alloc: Global, left: Value, right: Value) -> Result<bool, AllocError>
    ensures { IfOk result (λ same. same ≡ same_text (text_of (value_of left)) (text_of (value_of right))) }
{
    let left = text_of(alloc, left)?;
    let right = text_of(alloc, right)?;
    Ok(is_same(left.as_slice(), right.as_slice()))
}

/// Whether two values of one type are the same.
fn is_same_value(alloc: Global, left: Value, right: Value) -> Result<bool, AllocError>
    ensures { IfOk result (λ same. same ≡ same_value (value_of left) (value_of right)) }
{
    match left {
        Value::Number(number) => match right {
            Value::Number(other) => Ok(number == other),
            _ => has_same_text(alloc, left, right),
        },
        Value::Truth(truth) => match right {
            Value::Truth(other) => Ok(truth == other),
            _ => has_same_text(alloc, left, right),
        },
        _ => has_same_text(alloc, left, right),
    }
}

/// Whether the text of the first of two values comes first by its bytes.
fn has_less_text(alloc: Global, left: Value, right: Value) -> Result<bool, AllocError>
    ensures { IfOk result (λ less. less ≡ is_lt (text_cmp (text_of (value_of left)) (text_of (value_of right)))) }
{
    let left = text_of(alloc, left)?;
    let right = text_of(alloc, right)?;
    Ok(is_less(left.as_slice(), right.as_slice()))
}

/// Whether the first of two numbers, or of two texts by their bytes, is less.
fn is_less_value(alloc: Global, left: Value, right: Value) -> Result<bool, AllocError>
    ensures { IfOk result (λ less. less ≡ less_value (value_of left) (value_of right)) }
{
    match left {
        Value::Number(number) => match right {
            Value::Number(other) => Ok(number < other),
            _ => has_less_text(alloc, left, right),
        },
        _ => has_less_text(alloc, left, right),
    }
}

/// Whether the text of a value matches the pattern that another one is.
fn is_like_value(alloc: Global, left: Value, right: Value) -> Result<bool, AllocError>
    ensures { IfOk result (λ like. like ≡ matches_star (text_of (value_of right)) (text_of (value_of left))) }
{
    let left = text_of(alloc, left)?;
    let right = text_of(alloc, right)?;
    Ok(is_like(left.as_slice(), right.as_slice()))
}

/// What an operator that gives a truth gives of two values. Fails for want of memory alone.
pub fn by_operator(
    alloc: Global,
    operator: Operator,
    left: Value,
    right: Value,
) -> Result<bool, AllocError>
    requires { operator ≢ Join }
    ensures { IfOk result (λ truth. truth_value truth ≡ by_operator operator (value_of left) (value_of right)) }
{
    match operator {
        Operator::Or => Ok(is_true(&left) || is_true(&right)),
        Operator::And => Ok(is_true(&left) && is_true(&right)),
        Operator::Equal => is_same_value(alloc, left, right),
        Operator::NotEqual => Ok(!is_same_value(alloc, left, right)?),
        Operator::Less => is_less_value(alloc, left, right),
        Operator::Greater => is_less_value(alloc, right, left),
        Operator::AtMost => Ok(!is_less_value(alloc, right, left)?),
        Operator::AtLeast => Ok(!is_less_value(alloc, left, right)?),
        Operator::Like => is_like_value(alloc, left, right),
        Operator::Join => unreachable!(),
    }
}

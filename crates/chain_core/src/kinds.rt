//! What calls are as steps.
ghost use Rattle.chain_core.specs.Answers.{Codes, IsKind};
ghost use Rattle.chain_core.specs.Coding.{TellsNatural, TellsNegative, TellsNumber};
ghost use Rattle.grid_model.specs.Names.{same_text};
ghost use Rattle.std.specs.Prelude.{◌≡◌, IfOk};

use crate::services::is_service;
use grid_model::{Call, Text, Texts, read_number};
use std::alloc::{AllocError, Global};

/// What a call is as a step.
#[derive(Clone, Copy, Debug, PartialEq, Eq)]
pub enum Kind {
    Cut,
    Succeed,
    /// `fail`, with its code.
    Fail(i64),
    /// A micro-service.
    Serve,
    /// A call of rules.
    Name,
}

/// Whether the text has just these bytes.
fn is_named(text: &Text, bytes: &[u8]) -> bool
    ensures { result ≡ same_text text.now bytes.now }
{
    text.has_bytes(bytes)
}

/// The code that a number in decimal stands for: it, or the greatest code where it is greater.
fn natural(alloc: Global, digits: &[u8]) -> Result<i64, AllocError>
    ensures { IfOk result (λ code. TellsNatural digits.now code) }
{
    match read_number(alloc, digits)? {
        None => Ok(i64::MAX),
        Some(number) => {
            if number <= i64::MAX as u64 {
                Ok(number as i64)
            } else {
                Ok(i64::MAX)
            }
        }
    }
}

/// The code that a number in decimal stands for behind a minus.
fn negative(alloc: Global, digits: &[u8]) -> Result<i64, AllocError>
    ensures { IfOk result (λ code. TellsNegative digits.now code) }
{
    match read_number(alloc, digits)? {
        None => Ok(-1),
        Some(number) => {
            if 0 < number && number - 1 <= i64::MAX as u64 {
                Ok(-1 - (number - 1) as i64)
            } else {
                Ok(-1)
            }
        }
    }
}

/// The code that a number stands for.
fn number_in(alloc: Global, text: &[u8]) -> Result<i64, AllocError>
    ensures { IfOk result (λ code. TellsNumber text.now code) }
{
    if text.is_empty() {
        return natural(alloc, text);
    }
    if text[0] == b'-' {
        return negative(alloc, &text[1..]);
    }
    natural(alloc, text)
}

/// The code of a `fail` with these arguments: -1 without one.
fn code_of(alloc: Global, args: &[Text]) -> Result<i64, AllocError>
    ensures { IfOk result (λ code. Codes args.now code) }
{
    match args {
        [number] => number_in(alloc, number.as_slice()),
        _ => Ok(-1),
    }
}

/// What the call is as a step. Fails for want of memory alone.
pub fn kind_of(alloc: Global, call: &Call) -> Result<Kind, AllocError>
    ensures { IfOk result (λ kind. IsKind call.now kind) }
{
    if is_named(&call.name, b"cut") {
        return Ok(Kind::Cut);
    }
    if is_named(&call.name, b"succeed") {
        return Ok(Kind::Succeed);
    }
    if is_named(&call.name, b"fail") {
        return Ok(Kind::Fail(code_of(alloc, call.args.as_slice())?));
    }
    if is_service(call) {
        return Ok(Kind::Serve);
    }
    Ok(Kind::Name)
}

ghost use Rattle.std.specs.Prelude.{◌≡◌, ◌≤◌, length};
ghost use Rattle.reply_fields.specs.Fronts.{ReadsFrom};
ghost use Rattle.reply_reader.specs.Failures.{IsBehind, IsFailureLine, refusal_numbered};

use crate::causes::{rule_cause, tree_cause, what};
use crate::fields::{digest_field, number_field};
use crate::heads::{Head, NAMES, Numbered, head_at};
use grid_model::{Failure, Refusal};
use reply_fields::ReplyError;
use reply_fields::names::one_of;
use reply_fields::signed::signed;
use std::alloc::Global;

/// Reads a failure as it is printed, and a newline.
pub fn failure(alloc: Global, text: &[u8], at: usize) -> Result<(Failure, usize), ReplyError>
    requires { at ≤ length text.now }
    ensures { ReadsFrom IsFailureLine text.now at result }
{
    match one_of(text, at, &NAMES[2..]) {
        Ok((index, next)) => behind_head(alloc, text, next, &head_at(index)),
        Err(error) => Err(error),
    }
}

/// Reads what stands behind the head of a failure.
pub fn behind_head(
    alloc: Global,
    text: &[u8],
    at: usize,
    head: &Head,
) -> Result<(Failure, usize), ReplyError>
    requires { at ≤ length text.now }
    ensures { ReadsFrom (IsBehind head.now) text.now at result }
{
    match head {
        Head::Plain(failure) => Ok((*failure, at)),
        Head::Numbered(kind) => numbered_refusal(text, at, *kind),
        Head::Truncated => truncated(text, at),
        Head::TooMany => too_many(text, at),
        Head::BadTree => bad_tree(text, at),
        Head::BadRule => bad_rule(text, at),
        Head::Fault => fault(text, at),
        Head::Damaged => damaged(alloc, text, at),
        Head::Code => code(text, at),
    }
}

fn numbered_refusal(text: &[u8], at: usize, kind: Numbered) -> Result<(Failure, usize), ReplyError>
    requires { at ≤ length text.now }
    ensures { ReadsFrom (IsBehind (Head.Numbered kind)) text.now at result }
{
    match number_field(text, at, u64::MAX, b'\n') {
        Ok((number, next)) => Ok((Failure::Refused(with_number(kind, number)), next)),
        Err(error) => Err(error),
    }
}

fn with_number(kind: Numbered, number: u64) -> Refusal
    ensures { result ≡ refusal_numbered kind number }
{
    match kind {
        Numbered::Syntax => Refusal::Syntax { at: number },
        Numbered::BadWord => Refusal::BadWord { index: number },
        Numbered::BadPath => Refusal::BadPath { at: number },
        Numbered::BadName => Refusal::BadName { at: number },
        Numbered::TooLarge => Refusal::TooLarge { limit: number },
        Numbered::BadTriple => Refusal::BadTriple { which: number },
        Numbered::NoSlot => Refusal::NoSlot { slot: number },
        Numbered::BadQuery => Refusal::BadQuery { at: number },
    }
}

fn truncated(text: &[u8], at: usize) -> Result<(Failure, usize), ReplyError>
    requires { at ≤ length text.now }
    ensures { ReadsFrom (IsBehind Head.Truncated) text.now at result }
{
    let (have, next) = match number_field(text, at, u64::MAX, b' ') {
        Ok(read) => read,
        Err(error) => return Err(error),
    };
    match number_field(text, next, u64::MAX, b'\n') {
        Ok((want, last)) => Ok((Failure::Refused(Refusal::Truncated { have, want }), last)),
        Err(error) => Err(error),
    }
}

fn too_many(text: &[u8], at: usize) -> Result<(Failure, usize), ReplyError>
    requires { at ≤ length text.now }
    ensures { ReadsFrom (IsBehind Head.TooMany) text.now at result }
{
    let (what, next) = match what(text, at) {
        Ok(read) => read,
        Err(error) => return Err(error),
    };
    match number_field(text, next, u64::MAX, b'\n') {
        Ok((limit, last)) => Ok((Failure::Refused(Refusal::TooMany { what, limit }), last)),
        Err(error) => Err(error),
    }
}

fn bad_tree(text: &[u8], at: usize) -> Result<(Failure, usize), ReplyError>
    requires { at ≤ length text.now }
    ensures { ReadsFrom (IsBehind Head.BadTree) text.now at result }
{
    match tree_cause(text, at) {
        Ok((cause, next)) => Ok((Failure::Refused(Refusal::BadTree { cause }), next)),
        Err(error) => Err(error),
    }
}

fn bad_rule(text: &[u8], at: usize) -> Result<(Failure, usize), ReplyError>
    requires { at ≤ length text.now }
    ensures { ReadsFrom (IsBehind Head.BadRule) text.now at result }
{
    let (place, next) = match number_field(text, at, u64::MAX, b' ') {
        Ok(read) => read,
        Err(error) => return Err(error),
    };
    match rule_cause(text, next) {
        Ok((cause, last)) => Ok((
            Failure::Refused(Refusal::BadRule { at: place, cause }),
            last,
        )),
        Err(error) => Err(error),
    }
}

fn fault(text: &[u8], at: usize) -> Result<(Failure, usize), ReplyError>
    requires { at ≤ length text.now }
    ensures { ReadsFrom (IsBehind Head.Fault) text.now at result }
{
    match number_field(text, at, 255, b'\n') {
        Ok((slot, next)) => Ok((Failure::Refused(Refusal::Fault { slot: slot as u8 }), next)),
        Err(error) => Err(error),
    }
}

fn damaged(alloc: Global, text: &[u8], at: usize) -> Result<(Failure, usize), ReplyError>
    requires { at ≤ length text.now }
    ensures { ReadsFrom (IsBehind Head.Damaged) text.now at result }
{
    let (slot, next) = match number_field(text, at, 255, b' ') {
        Ok(read) => read,
        Err(error) => return Err(error),
    };
    let (size, after_size) = match number_field(text, next, u64::MAX, b' ') {
        Ok(read) => read,
        Err(error) => return Err(error),
    };
    let (digest, after_digest) = match digest_field(alloc, text, after_size, b' ') {
        Ok(read) => read,
        Err(error) => return Err(error),
    };
    let (len, after_len) = match number_field(text, after_digest, u64::MAX, b' ') {
        Ok(read) => read,
        Err(error) => return Err(error),
    };
    let (found, last) = match digest_field(alloc, text, after_len, b'\n') {
        Ok(read) => read,
        Err(error) => return Err(error),
    };
    let damaged = Refusal::Damaged {
        slot: slot as u8,
        size,
        digest,
        len,
        found,
    };
    Ok((Failure::Refused(damaged), last))
}

fn code(text: &[u8], at: usize) -> Result<(Failure, usize), ReplyError>
    requires { at ≤ length text.now }
    ensures { ReadsFrom (IsBehind Head.Code) text.now at result }
{
    match signed(text, at) {
        Ok((code, next)) => Ok((Failure::Code(code), next)),
        Err(error) => Err(error),
    }
}

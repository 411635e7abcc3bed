ghost use Rattle.std.specs.Prelude.{◌≡◌, ◌++◌, OnOk};
ghost use Rattle.grid_model.specs.Printing.{print_failure, print_refusal, print_rule_cause, print_tree_cause, print_what};

use crate::parts::{push_counted, push_next_digest, push_next_number, push_next_signed};
use grid_model::{Digest, Failure, Refusal, RuleCause, TreeCause, What};
use std::alloc::AllocError;

/// Adds the refusal as it is printed.
pub fn push_refusal(text: &mut Vec<u8>, refusal: &Refusal) -> Result<(), AllocError>
    ensures { OnOk result (text.new.items ≡ text.old.items ++ print_refusal refusal.now) }
{
    match *refusal {
        Refusal::TooLong => text.extend_from_slice(b"TooLong"),
        Refusal::Syntax { at } => push_counted(text, b"Syntax", &[at]),
        Refusal::UnknownCommand => text.extend_from_slice(b"UnknownCommand"),
        Refusal::BadWord { index } => push_counted(text, b"BadWord", &[index]),
        Refusal::BadPath { at } => push_counted(text, b"BadPath", &[at]),
        Refusal::BadName { at } => push_counted(text, b"BadName", &[at]),
        Refusal::Truncated { have, want } => push_counted(text, b"Truncated", &[have, want]),
        Refusal::NoLogin => text.extend_from_slice(b"NoLogin"),
        Refusal::Open => text.extend_from_slice(b"Open"),
        Refusal::NoUpload => text.extend_from_slice(b"NoUpload"),
        Refusal::TooLarge { limit } => push_counted(text, b"TooLarge", &[limit]),
        Refusal::TooMany { what, limit } => push_too_many(text, what, limit),
        Refusal::BadTriple { which } => push_counted(text, b"BadTriple", &[which]),
        Refusal::NoUser => text.extend_from_slice(b"NoUser"),
        Refusal::NoMember => text.extend_from_slice(b"NoMember"),
        Refusal::NoCollection => text.extend_from_slice(b"NoCollection"),
        Refusal::NoObject => text.extend_from_slice(b"NoObject"),
        Refusal::NoResource => text.extend_from_slice(b"NoResource"),
        Refusal::NoSlot { slot } => push_counted(text, b"NoSlot", &[slot]),
        Refusal::NoTarget => text.extend_from_slice(b"NoTarget"),
        Refusal::NoReplica => text.extend_from_slice(b"NoReplica"),
        Refusal::NoTriple => text.extend_from_slice(b"NoTriple"),
        Refusal::NoAccess => text.extend_from_slice(b"NoAccess"),
        Refusal::NotAdmin => text.extend_from_slice(b"NotAdmin"),
        Refusal::Exists => text.extend_from_slice(b"Exists"),
        Refusal::NotEmpty => text.extend_from_slice(b"NotEmpty"),
        Refusal::Fixed => text.extend_from_slice(b"Fixed"),
        Refusal::Inside => text.extend_from_slice(b"Inside"),
        Refusal::LastGood => text.extend_from_slice(b"LastGood"),
        Refusal::BadTree { cause } => push_bad_tree(text, cause),
        Refusal::BadRule { at, cause } => push_bad_rule(text, at, cause),
        Refusal::BadQuery { at } => push_counted(text, b"BadQuery", &[at]),
        Refusal::Fault { slot } => push_counted(text, b"Fault", &[u64::from(slot)]),
        Refusal::Damaged {
            slot,
            size,
            digest,
            len,
            found,
        } => push_damaged(text, slot, size, &digest, len, &found),
    }
}

fn push_too_many(text: &mut Vec<u8>, what: What, limit: u64) -> Result<(), AllocError>
    ensures { OnOk result (text.new.items ≡ text.old.items ++ print_refusal (Refusal.TooMany what limit)) }
{
    text.extend_from_slice(b"TooMany ")?;
    push_counted(text, what_name(what), &[limit])
}

fn push_bad_tree(text: &mut Vec<u8>, cause: TreeCause) -> Result<(), AllocError>
    ensures { OnOk result (text.new.items ≡ text.old.items ++ print_refusal (Refusal.BadTree cause)) }
{
    text.extend_from_slice(b"BadTree ")?;
    text.extend_from_slice(tree_cause_name(cause))
}

fn push_bad_rule(text: &mut Vec<u8>, at: u64, cause: RuleCause) -> Result<(), AllocError>
    ensures { OnOk result (text.new.items ≡ text.old.items ++ print_refusal (Refusal.BadRule at cause)) }
{
    push_counted(text, b"BadRule", &[at])?;
    text.push(b' ')?;
    text.extend_from_slice(rule_cause_name(cause))
}

fn push_damaged(
    text: &mut Vec<u8>,
    slot: u8,
    size: u64,
    digest: &Digest,
    len: u64,
    found: &Digest,
) -> Result<(), AllocError>
    ensures { OnOk result (text.new.items ≡ text.old.items ++ print_refusal (Refusal.Damaged slot size digest.now len found.now)) }
{
    push_counted(text, b"Damaged", &[u64::from(slot), size])?;
    push_next_digest(text, digest)?;
    push_next_number(text, len)?;
    push_next_digest(text, found)
}

fn what_name(what: What) -> &'static [u8]
    ensures { result.now ≡ print_what what }
{
    match what {
        What::Users => b"users",
        What::Members => b"members",
        What::Collections => b"collections",
        What::Objects => b"objects",
        What::Resources => b"resources",
        What::Triples => b"triples",
        What::Access => b"access",
        What::Uploads => b"uploads",
    }
}

fn tree_cause_name(cause: TreeCause) -> &'static [u8]
    ensures { result.now ≡ print_tree_cause cause }
{
    match cause {
        TreeCause::Leaf => b"Leaf",
        TreeCause::HasParent => b"HasParent",
        TreeCause::Cycle => b"Cycle",
        TreeCause::Full => b"Full",
        TreeCause::Coordinating => b"Coordinating",
    }
}

fn rule_cause_name(cause: RuleCause) -> &'static [u8]
    ensures { result.now ≡ print_rule_cause cause }
{
    match cause {
        RuleCause::Token => b"Token",
        RuleCause::Grammar => b"Grammar",
        RuleCause::Taken => b"Taken",
        RuleCause::Param => b"Param",
        RuleCause::TooManyRules => b"TooManyRules",
        RuleCause::Arity => b"Arity",
        RuleCause::Unknown => b"Unknown",
        RuleCause::Recovery => b"Recovery",
        RuleCause::Variable => b"Variable",
        RuleCause::Typing => b"Typing",
        RuleCause::Literal => b"Literal",
    }
}

/// Adds the failure as it is printed.
pub fn push_failure(text: &mut Vec<u8>, failure: &Failure) -> Result<(), AllocError>
    ensures { OnOk result (text.new.items ≡ text.old.items ++ print_failure failure.now) }
{
    match failure {
        Failure::Refused(refusal) => push_refusal(text, refusal),
        Failure::Code(number) => push_code(text, *number),
        Failure::NoRule => text.extend_from_slice(b"NoRule"),
        Failure::Depth => text.extend_from_slice(b"Depth"),
        Failure::Spent => text.extend_from_slice(b"Spent"),
        Failure::LongText => text.extend_from_slice(b"LongText"),
        Failure::Stopped => text.extend_from_slice(b"Stopped"),
    }
}

fn push_code(text: &mut Vec<u8>, number: i64) -> Result<(), AllocError>
    ensures { OnOk result (text.new.items ≡ text.old.items ++ print_failure (Failure.Code number)) }
{
    text.extend_from_slice(b"Code")?;
    push_next_signed(text, number)
}

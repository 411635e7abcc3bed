ghost use Rattle.std.specs.Prelude.{◌≡◌, IfOk};

use grid_model::{BadReplica, BadReplicas, Call, Calls, Mark, Marks, Passed, Passeds, Text, Texts};
use std::alloc::{AllocError, Global};

// A copy of some texts. Fails for want of memory alone.
fn copy_texts(alloc: Global, texts: &Texts) -> Result<Texts, AllocError>
    ensures { IfOk result (λ copy. copy ≡ texts.now) }
{
    let mut copy = Vec::new(alloc);
    for text in texts.as_slice() {
        copy.push(Text::copy_of(alloc, text.as_slice())?)?;
    }
    Ok(Texts::from_vec(copy))
}

/// A copy of a call. Fails for want of memory alone.
pub fn copy_call(alloc: Global, call: &Call) -> Result<Call, AllocError>
    ensures { IfOk result (λ copy. copy ≡ call.now) }
{
    let name = Text::copy_of(alloc, call.name.as_slice())?;
    let args = copy_texts(alloc, &call.args)?;
    Ok(Call { name, args })
}

/// A copy of some calls. Fails for want of memory alone.
pub fn copy_calls(alloc: Global, calls: &Calls) -> Result<Calls, AllocError>
    ensures { IfOk result (λ copy. copy ≡ calls.now) }
{
    let mut copy = Vec::new(alloc);
    for call in calls.as_slice() {
        copy.push(copy_call(alloc, call)?)?;
    }
    Ok(Calls::from_vec(copy))
}

// A copy of some bad replicas. Fails for want of memory alone.
fn copy_bad(alloc: Global, bad: &BadReplicas) -> Result<BadReplicas, AllocError>
    ensures { IfOk result (λ copy. copy ≡ bad.now) }
{
    let mut copy = Vec::new(alloc);
    for replica in bad.as_slice() {
        copy.push(BadReplica {
            number: replica.number,
            len: replica.len,
            found: replica.found,
        })?;
    }
    Ok(BadReplicas::from_vec(copy))
}

// A copy of a mark. Fails for want of memory alone.
fn copy_mark(alloc: Global, mark: &Mark) -> Result<Mark, AllocError>
    ensures { IfOk result (λ copy. copy ≡ mark.now) }
{
    match mark {
        Mark::Ran { word, now, bad } => {
            let bad = copy_bad(alloc, bad)?;
            Ok(Mark::Ran {
                word: *word,
                now: *now,
                bad,
            })
        }
        Mark::Fault { slot, parts } => Ok(Mark::Fault {
            slot: *slot,
            parts: *parts,
        }),
        Mark::Bad {
            slot,
            len,
            found,
            parts,
        } => Ok(Mark::Bad {
            slot: *slot,
            len: *len,
            found: *found,
            parts: *parts,
        }),
        Mark::Stop => Ok(Mark::Stop),
    }
}

/// A copy of some marks. Fails for want of memory alone.
pub fn copy_marks(alloc: Global, marks: &Marks) -> Result<Marks, AllocError>
    ensures { IfOk result (λ copy. copy ≡ marks.now) }
{
    let mut copy = Vec::new(alloc);
    for mark in marks.as_slice() {
        copy.push(copy_mark(alloc, mark)?)?;
    }
    Ok(Marks::from_vec(copy))
}

// A copy of a recovery that was passed over. Fails for want of memory alone.
fn copy_passed(alloc: Global, passed: &Passed) -> Result<Passed, AllocError>
    ensures { IfOk result (λ copy. copy ≡ passed.now) }
{
    let call = copy_call(alloc, &passed.call)?;
    let failure = Text::copy_of(alloc, passed.failure.as_slice())?;
    Ok(Passed { call, failure })
}

/// A copy of some of them. Fails for want of memory alone.
pub fn copy_passeds(alloc: Global, passeds: &Passeds) -> Result<Passeds, AllocError>
    ensures { IfOk result (λ copy. copy ≡ passeds.now) }
{
    let mut copy = Vec::new(alloc);
    for passed in passeds.as_slice() {
        copy.push(copy_passed(alloc, passed)?)?;
    }
    Ok(Passeds::from_vec(copy))
}

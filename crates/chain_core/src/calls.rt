ghost use Rattle.std.specs.Prelude.{◌≡◌, ◌++◌, ◌-◌, length, take, IfOk, OnOk};
ghost use Rattle.std.specs.Option.{option_to_list};

use grid_model::{Call, Calls, Text, Texts};
use std::alloc::{AllocError, Global};
use std::mem;

/// A copy of some texts. Fails for want of memory alone.
fn copy_texts(alloc: Global, texts: &Texts) -> Result<Texts, AllocError>
    ensures { IfOk result (λ copy. copy ≡ texts.now) }
{
    let mut copy = Vec::new(alloc);
    for text in texts.as_slice() {
        copy.push(Text::copy_of(alloc, text.as_slice())?)?;
    }
    Ok(Texts::from_vec(copy))
}

/// A copy of a call. Fails for want of memory alone.
pub fn copy_call(alloc: Global, call: &Call) -> Result<Call, AllocError>
    ensures { IfOk result (λ copy. copy ≡ call.now) }
{
    let name = Text::copy_of(alloc, call.name.as_slice())?;
    let args = copy_texts(alloc, &call.args)?;
    Ok(Call { name, args })
}

/// Adds a call at the end, if there is one. Fails for want of memory alone.
pub fn add_call(alloc: Global, calls: &mut Calls, call: Option<Call>) -> Result<(), AllocError>
    ensures { OnOk result (calls.new ≡ calls.old ++ option_to_list call) }
{
    let Some(call) = call else {
        return Ok(());
    };
    let mut list = mem::replace(calls, Calls::from_vec(Vec::new(alloc))).into_vec();
    list.push(call)?;
    *calls = Calls::from_vec(list);
    Ok(())
}

/// Leaves the first so many.
pub fn cut_calls(alloc: Global, calls: &mut Calls, len: usize)
    ensures { calls.new ≡ take len calls.old }
{
    let mut list = mem::replace(calls, Calls::from_vec(Vec::new(alloc))).into_vec();
    list.truncate(len);
    *calls = Calls::from_vec(list);
}

/// Takes the last one away.
pub fn drop_call(alloc: Global, calls: &mut Calls)
    ensures { calls.new ≡ take (length calls.old - 1) calls.old }
{
    let mut list = mem::replace(calls, Calls::from_vec(Vec::new(alloc))).into_vec();
    list.pop();
    *calls = Calls::from_vec(list);
}

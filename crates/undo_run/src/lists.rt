ghost use Rattle.std.specs.Prelude.{◌≡◌, ◌-◌, ◌^◌, ◌<◌, length, take};
ghost use Rattle.call_laws.specs.OneCall.{AreShort};

use grid_model::Calls;
use service_run::Command;
use std::alloc::Global;
use std::mem::replace;

/// Takes the last of the calls away. It takes no memory.
pub fn drop_last(alloc: Global, calls: &mut Calls)
    ensures { calls.new ≡ take (length calls.old - 1) calls.old }
{
    let mut list = replace(calls, Calls::from_vec(Vec::new(alloc))).into_vec();
    list.pop();
    *calls = Calls::from_vec(list);
}

/// The lists of a command, and of recoveries, are in memory. It does nothing.
pub fn are_short(command: &Command, left: &Calls)
    ensures { AreShort command.now left.now }
{
    is_size(command.marks.as_slice().len());
    is_size(command.passed.as_slice().len());
    is_size(left.as_slice().len());
}

/// A number of items in memory is below 2^64. It does nothing.
pub fn is_size(len: usize)
    ensures { len < 2 ^ 64 }
{}

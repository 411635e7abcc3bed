ghost use Rattle.std.specs.Prelude.{◌≡◌, ◌+◌, ◌^◌, ◌<◌, ◌≤◌, ◌++◌, [], IsTrue, OnOk, OnErr};
ghost use Rattle.grid_outside.specs.Device.{Between, IsSettled};
ghost use Rattle.grid_outside.specs.Fault.{Rose};
ghost use Rattle.grid_outside.specs.Sink.{AddsPart};

use grid_outside::{Moments, Sink, SinkFault};

/// Puts a text on the sink, if it has any bytes. Fails only where the sink failed.
pub(crate) fn tell<K: Sink>(
    moments: &mut Moments,
    sink: &mut K,
    text: &[u8],
) -> Result<(), SinkFault>
    requires sink_last { (K.sink sink.old).last ≤ moments.old }
    requires room { moments.old + 1 < 2 ^ 128 }
    ensures told { Between moments.old moments.new (AddsPart text.now) (K.sink sink.old) (K.sink sink.new) }
    ensures all { OnOk result (IsTrue (K.sink sink.old).tells → (K.sink sink.new).holds ≡ (K.sink sink.old).holds ++ text.now) }
    ensures settled { IsTrue (K.sink sink.old).tells → IsSettled (K.sink sink.old) → IsSettled (K.sink sink.new) }
    ensures cause { OnErr result (Rose (K.sink sink.old).faults (K.sink sink.new).faults) }
    ensures none { text.now ≡ [] → sink.new ≡ sink.old }
    ensures drawn_from { moments.old ≤ moments.new }
    ensures drawn { moments.new ≤ moments.old + 1 }
{
    if text.is_empty() {
        return Ok(());
    }
    sink.put(moments.next(), text)
}

ghost use Rattle.std.specs.Prelude.{◌≡◌, ℕ, ◌+◌, ◌^◌, ◌<◌, ◌≤◌, length, IsTrue, OnOk};
ghost use Rattle.grid_outside.specs.Device.{Between, IsSettled};
ghost use Rattle.grid_outside.specs.Disk.{Holds, Torn};
ghost use Rattle.grid_outside.specs.Fault.{HasCause};

use grid_outside::{Disk, DiskFault, Moments};

/// Writes over what stands from this place on, and syncs. The place is not past the end, and the end of what is
/// written at most 2^63.
///
/// Until both are done a stop may leave any bytes in the range. Draws at most 2 moments.
pub fn write_synced<D: Disk>(
    disk: &mut D,
    moments: &mut Moments,
    at: u64,
    bytes: &[u8],
) -> Result<(), DiskFault>
    requires last { (D.disk disk.old).last ≤ moments.old }
    requires room { moments.old + 2 < 2 ^ 128 }
    requires start { IsTrue (D.disk disk.old).tells → at ≤ length (D.disk disk.old).holds }
    requires end { at + length bytes.now ≤ 2 ^ 63 }
    ensures written { OnOk result (IsTrue (D.disk disk.old).tells → Holds at bytes.now (D.disk disk.old).holds (D.disk disk.new).holds) }
    ensures settled { OnOk result (IsTrue (D.disk disk.old).tells → IsSettled (D.disk disk.new)) }
    ensures span { Between moments.old moments.new (Torn at (length bytes.now)) (D.disk disk.old) (D.disk disk.new) }
    ensures cause { HasCause (D.disk disk.old).faults (D.disk disk.new).faults result }
    ensures drawn_from { moments.old ≤ moments.new }
    ensures drawn { moments.new ≤ moments.old + 2 }
{
    disk.write_at(moments.next(), at, bytes)?;
    disk.sync(moments.next())?;
    Ok(())
}

ghost use Rattle.std.specs.Prelude.{◌≡◌, ℕ, ◌+◌, ◌^◌, ◌<◌, ◌≤◌, length, take, IsTrue, IfOk, OnOk};
ghost use Rattle.grid_outside.specs.Device.{Acts, Looks, IsSettled};
ghost use Rattle.grid_outside.specs.Disk.{DiskState, ReadsAt, Holds, Torn, Cut, Same};
ghost use Rattle.grid_outside.specs.Fault.{HasCause};

/// A disk did not do what it was asked, or did a part of it. Its count of faults rose.
#[derive(Clone, Copy, Debug, PartialEq, Eq)]
pub struct DiskFault;

/// A file of bytes. Until a sync a stop may leave any bytes in each range that was written, and any length between
/// the shortest and the longest since the last sync.
///
/// Each call that changes something or makes it last is given a moment, a number greater than any before.
/// Conditions on the length are asked where the disk tells what it holds.
pub trait Disk {
    ghost disk: { Self → DiskState };

    /// How many bytes there are. Fails only where the count of faults rose.
    fn len(&mut self) -> Result<u64, DiskFault>
        ensures length { IfOk result (λ n. IsTrue (disk self.old).tells → n ≡ length (disk self.old).holds) }
        ensures looks { Looks (disk self.old) (disk self.new) }
        ensures cause { HasCause (disk self.old).faults (disk self.new).faults result };

    /// Fills the buffer from this place up to the end of the bytes, and answers how many bytes it gave.
    fn read(&mut self, at: u64, buf: &mut [u8]) -> Result<usize, DiskFault>
        ensures count { IfOk result (λ n. n ≤ length buf.new) }
        ensures bytes { IfOk result (λ n. IsTrue (disk self.old).tells → ReadsAt (disk self.old).holds at n buf.new) }
        ensures looks { Looks (disk self.old) (disk self.new) }
        ensures cause { HasCause (disk self.old).faults (disk self.new).faults result };

    /// Writes over what stands from this place on, and beyond the end. The place is at most the length, and the end
    /// of what is written at most 2^63.
    fn write_at(&mut self, moment: u128, at: u64, bytes: &[u8]) -> Result<(), DiskFault>
        requires moment { (disk self.old).last < moment }
        requires start { IsTrue (disk self.old).tells → at ≤ length (disk self.old).holds }
        requires end { at + length bytes.now ≤ 2 ^ 63 }
        ensures written { OnOk result (IsTrue (disk self.old).tells →
            Holds at bytes.now (disk self.old).holds (disk self.new).holds) }
        ensures acts { Acts moment (Torn at (length bytes.now)) (disk self.old) (disk self.new) }
        ensures cause { HasCause (disk self.old).faults (disk self.new).faults result };

    /// Makes the bytes as few as this, which is at most their number.
    fn cut(&mut self, moment: u128, len: u64) -> Result<(), DiskFault>
        requires moment { (disk self.old).last < moment }
        requires len { IsTrue (disk self.old).tells → len ≤ length (disk self.old).holds }
        ensures cut { OnOk result (IsTrue (disk self.old).tells →
            (disk self.new).holds ≡ take len (disk self.old).holds) }
        ensures acts { Acts moment (Cut len) (disk self.old) (disk self.new) }
        ensures cause { HasCause (disk self.old).faults (disk self.new).faults result };

    /// After Ok a stop leaves what a read gives.
    fn sync(&mut self, moment: u128) -> Result<(), DiskFault>
        requires { (disk self.old).last < moment }
        ensures settled { OnOk result (IsTrue (disk self.old).tells → IsSettled (disk self.new)) }
        ensures acts { Acts moment Same (disk self.old) (disk self.new) }
        ensures cause { HasCause (disk self.old).faults (disk self.new).faults result };
}

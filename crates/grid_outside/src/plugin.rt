ghost use Rattle.std.specs.Prelude.{◌≡◌, ℕ, ◌+◌, ◌^◌, ◌<◌, ◌≤◌, length, IsTrue, IfOk, OnOk};
ghost use Rattle.grid_outside.specs.Device.{Acts, Looks};
ghost use Rattle.grid_outside.specs.Fault.{HasCause};
ghost use Rattle.grid_outside.specs.Files.{StoreState, Writes, Removes, Created, Appended, Finished, IsGone, ReadsFile, HasSize};

/// A store did not do what it was asked, or did a part of it. Its count of faults rose.
#[derive(Clone, Copy, Debug, PartialEq, Eq)]
pub struct StoreFault;

/// Files by their names, which are numbers. A file has fewer than 2^61 bytes. It is created empty, grows by appends
/// and is finished once; a finished file stays, whatever stops, until its removal is asked.
///
/// Each call that changes something is given a moment, a number greater than any before. A call on a file that is
/// not in the state it needs fails, and the count of faults rises.
pub trait Plugin: Drop {
    ghost plugin: { Self → StoreState };

    /// Begins an empty file. There is none of this name before.
    fn create(&mut self, moment: u128, name: u64) -> Result<(), StoreFault>
        requires { (plugin self.old).last < moment }
        ensures created { OnOk result (IsTrue (plugin self.old).tells →
            Created name (plugin self.old).holds (plugin self.new).holds) }
        ensures acts { Acts moment (Writes name) (plugin self.old) (plugin self.new) }
        ensures cause { HasCause (plugin self.old).faults (plugin self.new).faults result };

    /// Adds bytes at the end of a file that was begun and is not finished. It fails where the file would get 2^61
    /// bytes or more.
    fn append(&mut self, moment: u128, name: u64, bytes: &[u8]) -> Result<(), StoreFault>
        requires { (plugin self.old).last < moment }
        ensures appended { OnOk result (IsTrue (plugin self.old).tells →
            Appended name bytes.now (plugin self.old).holds (plugin self.new).holds) }
        ensures acts { Acts moment (Writes name) (plugin self.old) (plugin self.new) }
        ensures cause { HasCause (plugin self.old).faults (plugin self.new).faults result };

    /// Finishes a file that was begun. After Ok it stays until its removal is asked.
    fn finish(&mut self, moment: u128, name: u64) -> Result<(), StoreFault>
        requires { (plugin self.old).last < moment }
        ensures finished { OnOk result (IsTrue (plugin self.old).tells →
            Finished name (plugin self.old) (plugin self.new)) }
        ensures acts { Acts moment (Writes name) (plugin self.old) (plugin self.new) }
        ensures cause { HasCause (plugin self.old).faults (plugin self.new).faults result };

    /// Gives a part of the file from this place on, and answers how many bytes it gave: none only at or past the
    /// file's end or for an empty buffer.
    fn read(&mut self, name: u64, at: u64, buf: &mut [u8]) -> Result<usize, StoreFault>
        ensures count { IfOk result (λ n. n ≤ length buf.new) }
        ensures bytes { IfOk result (λ n. IsTrue (plugin self.old).tells →
            ReadsFile name at n (plugin self.old).holds buf.new) }
        ensures looks { Looks (plugin self.old) (plugin self.new) }
        ensures cause { HasCause (plugin self.old).faults (plugin self.new).faults result };

    /// How many bytes the file has, fewer than 2^61.
    fn size(&mut self, name: u64) -> Result<u64, StoreFault>
        ensures size { IfOk result (λ n. IsTrue (plugin self.old).tells → HasSize name n (plugin self.old).holds) }
        ensures looks { Looks (plugin self.old) (plugin self.new) }
        ensures cause { HasCause (plugin self.old).faults (plugin self.new).faults result };

    /// Takes a file away. After Ok there is no such file, whether or not there was one.
    fn remove(&mut self, moment: u128, name: u64) -> Result<(), StoreFault>
        requires { (plugin self.old).last < moment }
        ensures gone { OnOk result (IsTrue (plugin self.old).tells → IsGone name (plugin self.new)) }
        ensures acts { Acts moment (Removes name) (plugin self.old) (plugin self.new) }
        ensures cause { HasCause (plugin self.old).faults (plugin self.new).faults result };
}

/// A store in its box is a store, so that work over one store is written for any `P: Plugin`.
impl Plugin for Box<dyn Plugin> {
    ghost plugin = { λ store. (Plugin-box store).plugin store.value };

    fn create(&mut self, moment: u128, name: u64) -> Result<(), StoreFault> {
        (**self).create(moment, name)
    }

    fn append(&mut self, moment: u128, name: u64, bytes: &[u8]) -> Result<(), StoreFault> {
        (**self).append(moment, name, bytes)
    }

    fn finish(&mut self, moment: u128, name: u64) -> Result<(), StoreFault> {
        (**self).finish(moment, name)
    }

    fn read(&mut self, name: u64, at: u64, buf: &mut [u8]) -> Result<usize, StoreFault> {
        (**self).read(name, at, buf)
    }

    fn size(&mut self, name: u64) -> Result<u64, StoreFault> {
        (**self).size(name)
    }

    fn remove(&mut self, moment: u128, name: u64) -> Result<(), StoreFault> {
        (**self).remove(moment, name)
    }
}

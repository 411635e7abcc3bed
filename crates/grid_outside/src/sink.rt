ghost use Rattle.std.specs.Prelude.{◌≡◌, ℕ, ◌<◌, ◌++◌, IsTrue, OnOk};
ghost use Rattle.grid_outside.specs.Device.{Acts, IsSettled};
ghost use Rattle.grid_outside.specs.Fault.{HasCause};
ghost use Rattle.grid_outside.specs.Sink.{SinkState, AddsPart};

/// A sink did not take the bytes, or took a first part of them. Its count of faults rose.
#[derive(Clone, Copy, Debug, PartialEq, Eq)]
pub struct SinkFault;

/// The bytes that were put, one put after another.
pub trait Sink {
    ghost sink: { Self → SinkState };

    /// Adds the bytes. A stop or a failure in it leaves a first part of them added. The moment is greater than any
    /// before.
    fn put(&mut self, moment: u128, bytes: &[u8]) -> Result<(), SinkFault>
        requires { (sink self.old).last < moment }
        ensures added { OnOk result (IsTrue (sink self.old).tells →
            (sink self.new).holds ≡ (sink self.old).holds ++ bytes.now) }
        ensures settled { IsTrue (sink self.old).tells → IsSettled (sink self.new) }
        ensures acts { Acts moment (AddsPart bytes.now) (sink self.old) (sink self.new) }
        ensures cause { HasCause (sink self.old).faults (sink self.new).faults result };
}

ghost use Rattle.std.specs.Prelude.{◌≡◌, ℕ, ◌≤◌, length, IsTrue, IfOk, OnErr};
ghost use Rattle.grid_outside.specs.Fault.{HasCause};
ghost use Rattle.grid_outside.specs.Source.{SourceState, TakesFront};

/// A source gave nothing. Its count of faults rose.
#[derive(Clone, Copy, Debug, PartialEq, Eq)]
pub struct SourceFault;

/// The bytes that are left to be read.
pub trait Source {
    ghost source: { Self → SourceState };

    /// Takes a first part of what is left, at most the buffer's length, and answers how many bytes it took: none
    /// only at the end or for an empty buffer. A read that fails takes nothing.
    fn read(&mut self, buf: &mut [u8]) -> Result<usize, SourceFault>
        ensures count { IfOk result (λ n. n ≤ length buf.new) }
        ensures tells { (source self.new).tells ≡ (source self.old).tells }
        ensures takes { IfOk result (λ n. IsTrue (source self.old).tells →
            TakesFront (source self.old).left n buf.new (source self.new).left) }
        ensures failed { OnErr result (IsTrue (source self.old).tells → (source self.new).left ≡ (source self.old).left) }
        ensures cause { HasCause (source self.old).faults (source self.new).faults result };
}

ghost use Rattle.std.specs.Prelude.{IsTrue};
ghost use Rattle.grid_outside.specs.Ambient.{AmbientState, GivesTime, GivesWord};

/// The time and random words. It cannot fail.
pub trait Ambient {
    ghost ambient: { Self → AmbientState };

    /// The time in whole seconds since the start of 1970, UTC.
    fn now(&mut self) -> u64
        ensures { IsTrue (ambient self.new).tells → GivesTime (ambient self.old) result (ambient self.new) };

    /// Any word of 64 bits.
    fn word(&mut self) -> u64
        ensures { IsTrue (ambient self.new).tells → GivesWord (ambient self.old) result (ambient self.new) };
}

ghost use Rattle.std.specs.Prelude.{◌≡◌, ℕ, ◌+◌, ◌-◌, ◌^◌, ◌<◌};

use std::marker::Model;

/// One counter for the calls of all devices, so that one stop cuts them all at the same moment. Contracts see how
/// many moments were drawn.
#[derive(Debug, Drop)]
pub struct Moments {
    drawn: u128,
}

impl Model for Moments {
    ghost Value = { ℕ };

    ghost view = { λ m. m.drawn };
}

impl Moments {
    /// No moment was drawn.
    pub fn start() -> Moments
        ensures { result ≡ 0 }
    {
        Moments { drawn: 0 }
    }

    /// Gives 1, 2, 3 and so on, up to 2^128 - 1.
    pub fn next(&mut self) -> u128
        requires { self.old < 2 ^ 128 - 1 }
        ensures next { result ≡ self.old + 1 }
        ensures drawn { self.new ≡ self.old + 1 }
    {
        self.drawn += 1;
        self.drawn
    }
}

ghost use Rattle.grid_file.specs.Untold.{untold_ambient};

use grid_outside::Ambient;
use rand_core::SeedableRng;
use rand_core::utils::NextWord;
use rand_pcg::Pcg64;
use std::rt::Clock;

/// The clock of the system, and a generator of words that is seeded with the first time that was read.
#[derive(Drop)]
pub struct RealAmbient {
    rt: HostRuntime,
    time: u64,
    generator: Pcg64,
}

impl RealAmbient {
    /// Reads the clock once. The first time is 0 where it cannot be read.
    pub fn new(rt: HostRuntime) -> RealAmbient {
        let time = seconds(&rt).unwrap_or(0);
        RealAmbient {
            rt,
            time,
            generator: Pcg64::seed_from_u64(time),
        }
    }
}

impl Ambient for RealAmbient {
    ghost ambient = { λ _. untold_ambient };

    /// Where the clock cannot be read, the time is the last one again.
    fn now(&mut self) -> u64 {
        self.time = seconds(&self.rt).unwrap_or(self.time);
        self.time
    }

    fn word(&mut self) -> u64 {
        self.generator.next_word()
    }
}

// The whole seconds since the start of 1970, UTC.
fn seconds(clock: &impl Clock) -> Option<u64> {
    Some(clock.since_1970().ok()?.as_secs())
}

ghost use Rattle.std.specs.Prelude.{◌≡◌, not};

/// Which calls of a device are to fail, by their numbers from 1, and how many calls there were.
#[derive(Debug, Drop)]
pub struct Schedule {
    pub(crate) fails: Vec<u64>,
    pub(crate) made: u64,
}

impl Schedule {
    ghost use Rattle.grid_mem.specs.Schedule.{next_number, is_listed, Counts};

    // The number of the next call.
    pub(crate) fn next_number(&self) -> u64
        ensures { result ≡ next_number self.now }
    {
        self.made.saturating_add(1)
    }

    // Counts a call, and says whether it is not to fail.
    pub(crate) fn admits_next(&mut self) -> bool
        ensures listed { result ≡ not (is_listed self.old) }
        ensures counts { Counts self.old self.new }
    {
        self.made = self.next_number();
        !self.fails.contains(&self.made)
    }
}

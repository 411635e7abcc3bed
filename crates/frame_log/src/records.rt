ghost use Rattle.std.specs.Prelude.{◌≡◌, map};
ghost use Rattle.frame_log.specs.Records.{placed_body};

use std::marker::Model;

/// A record of a log.
#[derive(Debug, Drop)]
pub struct Record {
    /// The place of the body's first byte on the disk.
    pub place: u64,
    /// The body's bytes.
    pub body: Vec<u8>,
}

/// The records of a log, in their order. Contracts see a list of the places and the bodies.
#[derive(Debug, Drop)]
pub struct Records {
    list: Vec<Record>,
}

impl Model for Records {
    ghost use Rattle.std.specs.Prelude.{ℕ, List, map};
    ghost use Rattle.frame_log.specs.Records.{placed_body};

    ghost Value = { List (ℕ × List ℕ) };

    ghost view = { λ r. map placed_body r.list.items };
}

impl Records {
    /// These records. It takes no memory.
    pub fn from_vec(list: Vec<Record>) -> Records
        ensures { result ≡ map placed_body list.items }
    {
        Records { list }
    }

    /// Gives the records back. It takes no memory.
    pub fn into_vec(self) -> Vec<Record>
        ensures { map placed_body result.items ≡ self }
    {
        self.list
    }

    /// The records.
    pub fn as_slice(&self) -> &[Record]
        ensures { map placed_body result.now ≡ self.now }
    {
        self.list.as_slice()
    }
}

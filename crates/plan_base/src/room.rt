ghost use Rattle.std.specs.Prelude.{◌≡◌, ◌+◌, nat_le};
ghost use Rattle.grid_model.specs.Bounds.{most, within};
ghost use Rattle.grid_tables.specs.Counts.{count_of};
ghost use Rattle.plan_base.specs.Room.{what_of};

use grid_model::{Refusal, What};
use grid_tables::{Kind, Tables};

/// Whether there may be so many rows more of this kind; `TooMany` with their limit where there may not. It takes no memory.
pub fn has_room(tables: &Tables, kind: Kind, more: u64) -> Result<(), Refusal>
    ensures { result ≡ within (what_of kind) (count_of tables.now kind + more) }
{
    let what = what_of(kind);
    let limit = most(what);
    let count = tables.count(kind);
    if count <= limit && more <= limit - count {
        return Ok(());
    }
    Err(Refusal::TooMany { what, limit })
}

/// Whether there may be so many; `TooMany` with their limit where there may not. It takes no memory.
pub fn within(what: What, count: u64) -> Result<(), Refusal>
    ensures { result ≡ within what count }
{
    let limit = most(what);
    if count <= limit {
        return Ok(());
    }
    Err(Refusal::TooMany { what, limit })
}

// What there are so many of as rows of this kind.
fn what_of(kind: Kind) -> What
    ensures { result ≡ what_of kind }
{
    match kind {
        Kind::Users => What::Users,
        Kind::Collections => What::Collections,
        Kind::Objects => What::Objects,
        Kind::Resources => What::Resources,
        Kind::Members => What::Members,
        Kind::Triples => What::Triples,
        Kind::Entries => What::Access,
    }
}

// How many there may be.
fn most(what: What) -> u64
    ensures { result ≡ most what }
{
    match what {
        What::Users => 10_000,
        What::Members | What::Collections | What::Objects => 100_000,
        What::Resources => 256,
        What::Triples => 200_000,
        What::Access => 400_000,
        What::Uploads => 16,
    }
}

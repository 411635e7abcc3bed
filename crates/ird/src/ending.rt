ghost use Rattle.std.specs.Prelude.{◌≡◌, ℕ};

use grid_model::Side;
use grid_outside::Wear;
use grid_server::Status;

/// The exit status by which the program tells how the run ended.
pub fn exit_status(status: Status) -> u8
    ensures done { status ≡ Status.Done → result ≡ 0 }
    ensures usage { status ≡ Status.Usage → result ≡ 2 }
    ensures no_catalogue { (side : Side) (at : ℕ) → status ≡ Status.NotACatalogue side at → result ≡ 3 }
    ensures not_empty { (side : Side) (len : ℕ) → status ≡ Status.NotEmpty side len → result ≡ 3 }
    ensures other_stores { (kept given : ℕ) → status ≡ Status.Stores kept given → result ≡ 3 }
    ensures disk { status ≡ Status.DiskFault → result ≡ 4 }
    ensures source { status ≡ Status.SourceFault → result ≡ 5 }
    ensures sink { status ≡ Status.SinkFault → result ≡ 6 }
    ensures memory { status ≡ Status.Memory → result ≡ 7 }
    ensures long { (taken : ℕ) → status ≡ Status.Long taken → result ≡ 8 }
    ensures worn { (what : Wear) (at : ℕ) → status ≡ Status.Worn what at → result ≡ 9 }
{
    match status {
        Status::Done => 0,
        Status::Usage => 2,
        Status::NotACatalogue { side: _, at: _ }
        | Status::NotEmpty { side: _, len: _ }
        | Status::Stores { kept: _, given: _ } => 3,
        Status::DiskFault => 4,
        Status::SourceFault => 5,
        Status::SinkFault => 6,
        Status::Memory => 7,
        Status::Long { taken: _ } => 8,
        Status::Worn { what: _, at: _ } => 9,
    }
}

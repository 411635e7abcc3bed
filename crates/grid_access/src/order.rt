ghost use Rattle.std.specs.Prelude.{◌≡◌};
ghost use Rattle.grid_model.specs.Levels.{level_rank, contains_level, greater_level};

use grid_model::Level;

/// How many levels stand before it.
fn rank(level: Level) -> u8
    ensures { result ≡ level_rank level }
{
    match level {
        Level::Null => 0,
        Level::Read => 1,
        Level::Write => 2,
        Level::Own => 3,
    }
}

/// Whether a level contains another one.
pub(crate) fn contains(big: Level, small: Level) -> bool
    ensures { result ≡ contains_level big small }
{
    rank(small) <= rank(big)
}

/// The one of two levels that contains the other.
pub(crate) fn greater(one: Level, other: Level) -> Level
    ensures { result ≡ greater_level one other }
{
    if contains(one, other) { one } else { other }
}

ghost use Rattle.std.specs.Prelude.{◌↔◌, IsTrue};
ghost use Rattle.rule_like.specs.Patterns.{Matches, star_piece, sql_piece};

use crate::piece::Wildcards;
use crate::search::matches;

/// Whether the whole text matches the pattern, in which `*` stands for any bytes, none among them, and each other byte
/// for itself. Takes no memory.
pub fn like_star(text: &[u8], pattern: &[u8]) -> bool
    ensures { IsTrue result ↔ Matches star_piece text.now pattern.now }
{
    matches(text, pattern, Wildcards::Star)
}

/// Whether the whole text matches the pattern, in which `%` stands for any bytes, none among them, `_` for one byte,
/// and each other byte for itself. Takes no memory.
pub fn like_sql(text: &[u8], pattern: &[u8]) -> bool
    ensures { IsTrue result ↔ Matches sql_piece text.now pattern.now }
{
    matches(text, pattern, Wildcards::Sql)
}

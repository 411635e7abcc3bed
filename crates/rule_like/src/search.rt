ghost use Rattle.std.specs.Prelude.{ℕ, ◌≤◌, ◌↔◌, length, IsTrue};
ghost use Rattle.rule_like.specs.Kinds.{piece_of};
ghost use Rattle.rule_like.specs.Moves.{MovesSo};
ghost use Rattle.rule_like.specs.Patterns.{Matches};

use crate::piece::{Piece, Wildcards};

/// A place in a text and one in a pattern.
#[derive(Clone, Copy)]
struct Places {
    text: usize,
    pattern: usize,
}

/// How a search goes on from two places.
enum Move {
    /// Text and pattern are at their ends.
    Done,
    /// A wildcard for any bytes stands in the pattern.
    PastWildcard,
    /// The pattern's byte stands for the text's.
    PastByte,
    /// The rest of the text does not match the rest of the pattern.
    Stuck,
}

/// How a search goes on from these places.
fn next_move(text: &[u8], pattern: &[u8], wildcards: Wildcards, at: Places) -> Move
    requires text_in { at.text ≤ length text.now }
    requires pattern_in { at.pattern ≤ length pattern.now }
    ensures { MovesSo (piece_of wildcards) text.now pattern.now at result }
{
    if at.pattern == pattern.len() {
        return if at.text == text.len() {
            Move::Done
        } else {
            Move::Stuck
        };
    }
    let piece = wildcards.piece(pattern[at.pattern]);
    if at.text == text.len() {
        return match piece {
            Piece::AnyBytes => Move::PastWildcard,
            Piece::OneByte | Piece::Byte(_) => Move::Stuck,
        };
    }
    match piece {
        Piece::AnyBytes => Move::PastWildcard,
        Piece::OneByte => Move::PastByte,
        Piece::Byte(byte) if byte == text[at.text] => Move::PastByte,
        Piece::Byte(_) => Move::Stuck,
    }
}

/// Whether the whole text matches the pattern.
///
/// Where the search is stuck, the last wildcard for any bytes takes one byte more: an earlier one that took more would
/// leave less of the text for the same rest of the pattern. So there are at most (n + 2) (m + 1) moves for n bytes of
/// text and m of pattern, and two places are remembered.
pub fn matches(text: &[u8], pattern: &[u8], wildcards: Wildcards) -> bool
    ensures { IsTrue result ↔ Matches (piece_of wildcards) text.now pattern.now }
{
    let mut at = Places {
        text: 0,
        pattern: 0,
    };
    let mut retry: Option<Places> = None;
    'moves: loop {
        match next_move(text, pattern, wildcards, at) {
            Move::Done => return true,
            Move::PastWildcard => {
                let after = Places {
                    text: at.text,
                    pattern: at.pattern + 1,
                };
                at = after;
                retry = Some(after);
            }
            Move::PastByte => {
                at.text += 1;
                at.pattern += 1;
            }
            Move::Stuck => {
                let Some(from) = retry else { return false };
                if from.text == text.len() {
                    return false;
                }
                at = Places {
                    text: from.text + 1,
                    pattern: from.pattern,
                };
                retry = Some(at);
            }
        }
    }
}

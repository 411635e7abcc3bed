ghost use Rattle.std.specs.Prelude.{◌≡◌, ◌<◌, ℕ, List, length, slice_index, IfOk, MatchOption};
ghost use Rattle.grid_model.specs.QueryTokens.{Token as Meant, Front as Begins};
ghost use Rattle.query_parse.specs.Seen.{meaning, IsLiteralPiece};

use crate::front::Front;
use crate::token::Kind;
use grid_model::Text;
use std::alloc::{AllocError, Global};

/// What stands next in a literal.
pub enum Piece<'a> {
    /// The apostrophe that closes it, and what follows.
    Closed(&'a [u8]),
    /// A byte of the literal, and what follows those that stand for it.
    Byte(u8, &'a [u8]),
    /// The end of the text.
    Open,
}

/// What stands next in a literal whose rest is this.
fn next_piece<'a>(rest: &'a [u8]) -> Piece<'a>
    ensures { IsLiteralPiece rest.now result }
{
    if rest.is_empty() {
        return Piece::Open;
    }
    let behind = &rest[1..];
    if rest[0] != b'\'' {
        return Piece::Byte(rest[0], behind);
    }
    if behind.is_empty() || behind[0] != b'\'' {
        return Piece::Closed(behind);
    }
    Piece::Byte(b'\'', &behind[1..])
}

/// The literal at the front of what begins with an apostrophe, if it is closed.
pub fn literal<'a>(alloc: Global, text: &'a [u8]) -> Result<Option<Front<'a>>, AllocError>
    requires some { 0 < length text.now }
    requires begins { slice_index text.now 0 ≡ 0x27 }
    ensures { IfOk result (λ found. MatchOption found
        ((t : Meant) (rest : List ℕ) → ¬ Begins text.now t rest)
        (λ f. Begins text.now (meaning f.kind) f.rest.now)) }
{
    let mut inner = Vec::new(alloc);
    let mut rest = &text[1..];
    'pieces: loop {
        match next_piece(rest) {
            Piece::Closed(behind) => {
                let kind = Kind::Literal(Text::from_vec(inner));
                return Ok(Some(Front { kind, rest: behind }));
            }
            Piece::Byte(byte, behind) => {
                inner.push(byte)?;
                rest = behind;
            }
            Piece::Open => return Ok(None),
        }
    }
}

ghost use Rattle.std.specs.Prelude.{◌≡◌, ◌<◌, IsTrue, IfOk, length, slice_index};
ghost use Rattle.rule_lex.specs.Bytes.{is_quote};
ghost use Rattle.rule_lex.specs.Fronts.{IsRestFront};
ghost use Rattle.rule_lex.specs.Quotes.{IsQuotedPiece};

use crate::bytes::{byte_at, is_escaped, is_plain};
use crate::front::Front;
use crate::token::Value;
use std::alloc::{AllocError, Global};

/// What stands next between quotes.
#[derive(Clone, Copy)]
enum Piece {
    /// The quote that closes the text.
    Closed,
    /// A byte of the text, and how many bytes stand for it.
    Byte(u8, usize),
    /// Neither: so many bytes begin a piece.
    Bad(usize),
}

/// The next piece of a text that this quote closes.
fn next_piece(rest: &[u8], quote: u8) -> Piece
    requires { IsTrue (is_quote quote) }
    ensures { IsQuotedPiece quote rest.now result }
{
    let byte = byte_at(rest, 0);
    let second = byte_at(rest, 1);
    if byte == quote {
        Piece::Closed
    } else if byte == b'\\' {
        if is_escaped(second) {
            Piece::Byte(second, 2)
        } else {
            Piece::Bad(1)
        }
    } else if is_plain(byte) {
        Piece::Byte(byte, 1)
    } else {
        Piece::Bad(0)
    }
}

/// The text in quotes at the front of what begins with a quote.
pub fn quoted<'a>(alloc: Global, rest: &'a [u8]) -> Result<Front<'a>, AllocError>
    requires some { 0 < length rest.now }
    requires begins { IsTrue (is_quote (slice_index rest.now 0)) }
    ensures { IfOk result (λ f. IsRestFront rest.now f) }
{
    let quote = rest[0];
    let mut value = Vec::new(alloc);
    let mut at = 1;
    'pieces: loop {
        match next_piece(&rest[at..], quote) {
            Piece::Closed => return Ok(Front::Token(at + 1, Value::Text(value))),
            Piece::Byte(byte, len) => {
                value.push(byte)?;
                at += len;
            }
            Piece::Bad(len) => return Ok(Front::Bad(at + len)),
        }
    }
}

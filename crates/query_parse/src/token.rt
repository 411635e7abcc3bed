ghost use Rattle.std.specs.Prelude.{◌≡◌};
ghost use Rattle.grid_model.specs.QueryText.{op_of};
ghost use Rattle.query_parse.specs.Seen.{comparison_sign};

use grid_model::{Column, Op, Text};

/// A word of the language, in any case of its letters.
#[derive(Clone, Copy, PartialEq, Eq)]
pub enum Keyword {
    Select,
    Where,
    And,
    Like,
    Not,
}

/// The sign of a comparison.
#[derive(Clone, Copy)]
pub enum Sign {
    Equal,
    NotEqual,
    Less,
    Greater,
    AtMost,
    AtLeast,
}

/// The operator of a sign.
pub fn op_of(sign: Sign) -> Op
    ensures { result ≡ op_of (comparison_sign sign) }
{
    match sign {
        Sign::Equal => Op::Equal,
        Sign::NotEqual => Op::NotEqual,
        Sign::Less => Op::Less,
        Sign::Greater => Op::Greater,
        Sign::AtMost => Op::AtMost,
        Sign::AtLeast => Op::AtLeast,
    }
}

/// What a token is.
#[derive(Drop)]
pub enum Kind {
    Keyword(Keyword),
    Column(Column),
    /// What stands between its apostrophes, with one for two.
    Literal(Text),
    Comma,
    Sign(Sign),
    /// What stands in no query: another word, a literal that is not closed, a byte at which no token begins.
    Wrong,
}

/// A token, and the place of its first byte in the text.
#[derive(Drop)]
pub struct Token {
    pub at: usize,
    pub kind: Kind,
}

ghost use Rattle.std.specs.Prelude.{◌≡◌};

/// What a byte of a pattern stands for.
#[derive(Clone, Copy, Debug)]
pub enum Piece {
    /// Any bytes, or none.
    AnyBytes,
    /// One byte, whichever it is.
    OneByte,
    /// This byte.
    Byte(u8),
}

/// The two kinds of pattern.
#[derive(Clone, Copy)]
pub enum Wildcards {
    /// `*` is the one wildcard.
    Star,
    /// `%` and `_` are the wildcards.
    Sql,
}

impl Wildcards {
    ghost use Rattle.rule_like.specs.Kinds.{piece_of};

    /// What the byte stands for in patterns of this kind.
    pub fn piece(self, byte: u8) -> Piece
        ensures { result ≡ piece_of self byte }
    {
        match (self, byte) {
            (Wildcards::Star, b'*') | (Wildcards::Sql, b'%') => Piece::AnyBytes,
            (Wildcards::Sql, b'_') => Piece::OneByte,
            _ => Piece::Byte(byte),
        }
    }
}

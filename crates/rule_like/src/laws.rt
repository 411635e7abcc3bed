ghost use Rattle.std.specs.Prelude.{◌≡◌, ◌≢◌, ◌↔◌, ℕ, List, [], ◌∷◌, ◌++◌};
ghost use Rattle.std.specs.List.{AllByRecursion};
ghost use Rattle.rule_like.specs.Patterns.{Matches, MatchesInTwo, star_piece, sql_piece};
ghost use Rattle.rule_like.specs.declared.piece.Piece.{Piece};

/// A pattern without wildcards matches itself alone.
pub fn plain_patterns()
    ensures star { (text pattern : List ℕ) → AllByRecursion (λ c. c ≢ 0x2A) pattern
        → Matches star_piece text pattern ↔ (text ≡ pattern) }
    ensures sql { (text pattern : List ℕ) → AllByRecursion (λ c. (c ≢ 0x25) × (c ≢ 0x5F)) pattern
        → Matches sql_piece text pattern ↔ (text ≡ pattern) }
{}

/// A pattern of one wildcard for any bytes matches every text.
pub fn one_star()
    ensures star { (text : List ℕ) → Matches star_piece text (0x2A ∷ []) }
    ensures sql { (text : List ℕ) → Matches sql_piece text (0x25 ∷ []) }
{}

/// Two patterns, one after the other, match what is made of a match of each, and nothing else.
pub fn two_patterns()
    ensures { (piece_of : ℕ → Piece) (text first second : List ℕ)
        → Matches piece_of text (first ++ second) ↔ MatchesInTwo piece_of text first second }
{}

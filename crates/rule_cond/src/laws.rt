ghost use Rattle.grid_model.specs.Wildcards.{matches_star};
ghost use Rattle.rule_like.specs.Patterns.{Matches, star_piece};
ghost use Rattle.std.specs.Prelude.{◌↔◌, ℕ, IsTrue, List};

/// The test whether a text matches a pattern of stars says just that it matches.
pub fn star_patterns()
    ensures { (pattern text : List ℕ) → IsTrue (matches_star pattern text) ↔ Matches star_piece text pattern }
{}

ghost use Rattle.std.specs.Prelude.{◌≡◌, ℕ, List};
ghost use Rattle.rule_lex.specs.Places.{IsSourceRefusedAt};
ghost use Rattle.rule_lex.specs.Spans.{StandInOrder};
ghost use Rattle.rule_lex.specs.Tokens.{PlacedToken, SpellsRuleTokens};

/// A text has one list of tokens.
pub fn one_list_of_tokens()
    ensures { (text : List ℕ) (tokens others : List PlacedToken) → SpellsRuleTokens 0 text tokens → SpellsRuleTokens 0 text others
        → tokens ≡ others }
{}

/// A text is refused at one place.
pub fn one_place_of_refusal()
    ensures { (text : List ℕ) (place other : ℕ) → IsSourceRefusedAt text place → IsSourceRefusedAt text other → place ≡ other }
{}

/// The tokens of a text stand in it one behind the other, each with its bytes.
pub fn tokens_in_order()
    ensures { (text : List ℕ) (tokens : List PlacedToken) → SpellsRuleTokens 0 text tokens → StandInOrder text 0 tokens }
{}

ghost use Rattle.std.specs.Prelude.{◌≡◌, ◌↔◌, ℕ, List};
ghost use Rattle.grid_model.specs.QueryOrders.{ReadsQuery};
ghost use Rattle.grid_model.specs.QueryText.{IsQueryText, IsRefusedQuery, HaveSameTokens, SpellsQuery, HasText};
ghost use Rattle.grid_model.specs.QueryTokens.{Token};
ghost use Rattle.grid_model.specs.Refusing.{Or};
ghost use Rattle.grid_model.specs.declared.queries.Query.{Query};

/// A text spells one query.
pub fn one_query()
    ensures { (text : List ℕ) (q r : Query) → IsQueryText text q → IsQueryText text r → q ≡ r }
{}

/// A text is refused at one place, and then spells no query.
pub fn one_place_of_refusal()
    ensures place { (text : List ℕ) (place other : ℕ) → IsRefusedQuery text place → IsRefusedQuery text other → place ≡ other }
    ensures none { (text : List ℕ) (place : ℕ) (q : Query) → IsRefusedQuery text place → ¬ IsQueryText text q }
{}

/// Two texts spell the same query where they have the same tokens, and only there: they differ at most in the spaces
/// between tokens and in the case of keywords.
pub fn same_query_of_same_tokens()
    ensures { (text other : List ℕ) (q : Query) → IsQueryText text q → (IsQueryText other q ↔ HaveSameTokens text other) }
{}

/// Tokens that spell a query stand in some text. So where tokens begin no query, they begin no text that spells one.
pub fn each_query_has_a_text()
    ensures { (tokens : List Token) (q : Query) → SpellsQuery tokens q → HasText tokens }
{}

/// Each text spells a query, or is refused at some place.
pub fn each_text_is_read()
    ensures { (text : List ℕ) → (query : Or Query) × ReadsQuery text query }
{}

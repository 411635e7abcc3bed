ghost use Rattle.std.specs.Prelude.{◌≡◌, ◌⊎◌, ℕ, IfOk, MatchResult, IsErrOf};
ghost use Rattle.grid_model.specs.QueryText.{IsQueryText, IsRefusedQuery};
ghost use Rattle.grid_model.specs.declared.queries.Query.{Query};

use crate::error::QueryError;
use crate::lexer::lex;
use crate::parser::parse;
use grid_model::Query;
use std::alloc::Global;

/// The query that a text spells.
///
/// # Errors
///
/// `BadQuery` for a text that spells none, at the first token with which the tokens so far begin no query, or at the
/// text's length where they begin one, and `Memory` where there is no memory.
pub fn read_query(alloc: Global, text: &[u8]) -> Result<Query, QueryError>
    ensures query { IfOk result (λ q. IsQueryText text.now q) }
    // What spells a query is read as that one, unless there is no memory.
    ensures only { (q : Query) → IsQueryText text.now q → MatchResult result (λ r. r ≡ q) (λ e. e ≡ QueryError.Memory) }
    ensures bad_query { (at : ℕ) → IsErrOf result (QueryError.BadQuery at) → IsRefusedQuery text.now at }
    // What is refused at a place is refused there, unless there is no memory.
    ensures refused { (at : ℕ) → IsRefusedQuery text.now at
        → MatchResult result (λ r. ⊥) (λ e. (e ≡ QueryError.BadQuery at) ⊎ (e ≡ QueryError.Memory)) }
{
    let tokens = lex(alloc, text)?;
    parse(alloc, tokens, text.len())
}

ghost use Rattle.std.specs.Prelude.{ℕ, map, IfOk, IsErrOf};
ghost use Rattle.grid_model.specs.QueryText.{SpellsQuery, StopsAt, kinds};
ghost use Rattle.query_parse.specs.Seen.{query_token_of};

use crate::error::QueryError;
use crate::reading::Reading;
use crate::token::Token;
use grid_model::Query;
use std::alloc::Global;

/// The query that these tokens of a text of this length spell.
pub fn parse(alloc: Global, tokens: Vec<Token>, end: usize) -> Result<Query, QueryError>
    ensures query { IfOk result (λ q. SpellsQuery (kinds (map query_token_of tokens.items)) q) }
    ensures stops { (at : ℕ) → IsErrOf result (QueryError.BadQuery at) → StopsAt (map query_token_of tokens.items) end at }
{
    let mut reading = Reading::new(alloc);
    for token in tokens {
        if !reading.take(alloc, token.kind)? {
            return Err(QueryError::BadQuery { at: token.at });
        }
    }
    match reading.finish() {
        Some(query) => Ok(query),
        None => Err(QueryError::BadQuery { at: end }),
    }
}

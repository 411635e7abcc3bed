// The texts of queries.
use grid_model::Query;
use query_parse::read_query;
use std::alloc::{AllocError, Global};

/// The columns and the conditions of a query.
pub(crate) fn show(alloc: Global, text: &[u8]) -> Result<String, AllocError> {
    match read_query(alloc, text) {
        Ok(query) => parts(alloc, &query),
        Err(error) => format!(in alloc; "{error:?}"),
    }
}

fn parts(alloc: Global, query: &Query) -> Result<String, AllocError> {
    let mut shown = format!(in alloc; "{:?}", query.columns.as_slice())?;
    for cond in query.conds.as_slice() {
        let literal = cond.literal.as_slice().escape_ascii();
        let part = format!(in alloc; " {:?} {:?} {literal}", cond.column, cond.op)?;
        shown.push_str(part.as_str())?;
    }
    Ok(shown)
}

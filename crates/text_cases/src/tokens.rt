// The tokens of rule texts.
use crate::playing::unknown;
use rule_lex::lex;
use std::alloc::{AllocError, Global};

pub(crate) fn play(alloc: Global, call: &str, text: &[u8]) -> Result<String, AllocError> {
    match call {
        "lengths" => lengths(alloc, text),
        "values" => values(alloc, text),
        "count" => count(alloc, text),
        _ => unknown(alloc),
    }
}

// How many bytes each token has.
fn lengths(alloc: Global, text: &[u8]) -> Result<String, AllocError> {
    let tokens = match lex(alloc, text) {
        Ok(tokens) => tokens,
        Err(error) => return format!(in alloc; "{error:?}"),
    };
    let mut shown = String::new(alloc);
    for token in tokens.iter() {
        shown.push_str(format!(in alloc; "{},", token.spelled.len())?.as_str())?;
    }
    Ok(shown)
}

// Where each token stands, and what it is.
fn values(alloc: Global, text: &[u8]) -> Result<String, AllocError> {
    let tokens = match lex(alloc, text) {
        Ok(tokens) => tokens,
        Err(error) => return format!(in alloc; "{error:?}"),
    };
    let mut shown = String::new(alloc);
    for token in tokens.iter() {
        shown.push_str(format!(in alloc; "{} {:?},", token.at, token.value)?.as_str())?;
    }
    Ok(shown)
}

fn count(alloc: Global, text: &[u8]) -> Result<String, AllocError> {
    match lex(alloc, text) {
        Ok(tokens) => format!(in alloc; "{}", tokens.len()),
        Err(error) => format!(in alloc; "{error:?}"),
    }
}

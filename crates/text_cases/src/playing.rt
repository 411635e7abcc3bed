// What a line shows: the name of a part, that of a call of it, and its texts, the second behind a tab.
use crate::escapes::unescaped;
use crate::{
    chains, fields, grids, patterns, queries, replies, requests, rules, runs, services, sessions,
    tokens, words,
};
use std::alloc::{AllocError, Global};

/// What is shown by the call in this line.
pub(crate) fn play_line(alloc: Global, line: &str) -> Result<String, AllocError> {
    let (part, rest) = line.split_once(' ').unwrap_or((line, ""));
    let (call, rest) = rest.split_once(' ').unwrap_or((rest, ""));
    let (first, second) = rest.split_once('\t').unwrap_or((rest, ""));
    let first = unescaped(alloc, first)?;
    let second = unescaped(alloc, second)?;
    play(alloc, part, call, &first, &second)
}

fn play(
    alloc: Global,
    part: &str,
    call: &str,
    first: &[u8],
    second: &[u8],
) -> Result<String, AllocError> {
    match part {
        "grid" => grids::play(alloc, call, first, second),
        "like" => patterns::play(alloc, call, first, second),
        "lex" => tokens::play(alloc, call, first),
        "line" => words::play(alloc, call, first),
        "query" => queries::show(alloc, first),
        "field" => fields::play(alloc, call, first, second),
        "reply" => replies::play(alloc, call, first),
        "request" => requests::play(alloc, call, first, second),
        "rule" => rules::play(alloc, call, first, second),
        "chain" => chains::play(alloc, call, first, second),
        "run" => runs::play(alloc, call, first, second),
        "service" => services::show(alloc, first),
        "sessions" => sessions::show(alloc),
        _ => unknown(alloc),
    }
}

/// What is shown of a call that there is not.
pub(crate) fn unknown(alloc: Global) -> Result<String, AllocError> {
    String::from_str(alloc, "no such call")
}

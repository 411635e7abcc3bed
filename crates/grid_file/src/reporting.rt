use std::alloc::{AllocError, Global};
use std::fmt::Display;
use std::io;

/// Tells people on standard error, in one line, what failed and why.
pub fn report(rt: &HostRuntime, what: impl Display + Drop, error: &io::Error) {
    // Where that fails too, there is nobody left to tell.
    let _ = match reason(rt.alloc(), error) {
        Ok(words) => eprintln!(rt; "ird: {what}: {words}"),
        Err(_) => eprintln!(rt; "ird: {what}: {error}"),
    };
}

/// Why a call of the system failed, in its words alone, as `Permission denied`. The only error is want of memory.
pub fn reason(alloc: Global, error: &io::Error) -> Result<String, AllocError> {
    let text = format!(in alloc; "{error}")?;
    // The number of the error stands behind its words.
    let words = text
        .split_once(" (os error ")
        .map_or(text.as_str(), |(words, _)| words);
    String::from_str(alloc, words)
}

// What was called, noted by words, each with a blank behind it.
use std::alloc::{AllocError, Global};

/// The words, each behind a blank, and one that comes more than once in a row with its number in front.
pub(crate) fn in_runs(alloc: Global, trace: &[u8]) -> Result<String, AllocError> {
    let mut shown = String::new(alloc);
    let mut last: &[u8] = b"";
    let mut count: u64 = 0;
    for word in trace.split(|byte| *byte == b' ') {
        if word != last {
            add_run(alloc, &mut shown, last, count)?;
            last = word;
            count = 0;
        }
        count = count.saturating_add(1);
    }
    Ok(shown)
}

// Adds a word that comes so often in a row.
fn add_run(alloc: Global, shown: &mut String, word: &[u8], count: u64) -> Result<(), AllocError> {
    let word = word.escape_ascii();
    match count {
        0 => Ok(()),
        1 => shown.push_str(format!(in alloc; " {word}")?.as_str()),
        _ => shown.push_str(format!(in alloc; " {count}*{word}")?.as_str()),
    }
}

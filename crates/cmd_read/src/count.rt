ghost use Rattle.std.specs.Prelude.{◌≡◌, ℕ, IfSome, IfNone};
ghost use Rattle.grid_model.specs.Inputs.{PromisesBody};
ghost use Rattle.cmd_read.specs.Counting.{has_body, promises};

use crate::number::number_of;
use crate::words::is_word;
use grid_model::{Text, Texts};

/// How many bytes behind their line the words promise, whatever else is wrong with them: the second word is `put`,
/// `part` or `rules`, and the last one is a number below 2^64. `None` exactly where they promise no body. It takes no
/// memory.
pub fn body_count(words: &Texts) -> Option<u64>
    ensures count { IfSome result (λ count. PromisesBody words.now count) }
    ensures none { IfNone result ((count : ℕ) → ¬ PromisesBody words.now count) }
{
    let words = words.as_slice();
    if !promises(words) {
        return None;
    }
    match words.split_last() {
        Some((last, _)) => number_of(last),
        None => None,
    }
}

// Whether the second word is a verb behind whose line a body comes.
fn promises(words: &[Text]) -> bool
    ensures { result ≡ promises words.now }
{
    match words {
        [_, verb, ..] => has_body(verb),
        _ => false,
    }
}

// Whether the verb is one of these three.
fn has_body(verb: &Text) -> bool
    ensures { result ≡ has_body verb.now }
{
    if is_word(verb, b"put") {
        return true;
    }
    if is_word(verb, b"part") {
        return true;
    }
    is_word(verb, b"rules")
}

ghost use Rattle.std.specs.Prelude.{◌≡◌, ◌<◌, ◌≤◌, [], ◌∷◌, ◌++◌, length};
ghost use Rattle.reply_fields.specs.Fronts.{ReadsFrom};
ghost use Rattle.reply_reader.specs.WordFields.{IsPassed, IsWords};

use grid_model::{Call, Passed, Text, Texts};
use reply_fields::ReplyError;
use reply_fields::lists::words;
use reply_fields::names::one_of;
use reply_fields::words::word;
use std::alloc::Global;

/// What may stand behind the name of a row or of a good end.
const BEHIND_NAME: [&[u8]; 2] = [b"\n", b" "];

/// Reads the words of a row or of a good end, from behind its name on.
pub fn words_behind(alloc: Global, text: &[u8], at: usize) -> Result<(Texts, usize), ReplyError>
    requires { at ≤ length text.now }
    ensures { ReadsFrom IsWords text.now at result }
{
    let (index, next) = match one_of(text, at, &BEHIND_NAME) {
        Ok(read) => read,
        Err(error) => return Err(error),
    };
    if index == 0 {
        return Ok((Texts::from_vec(Vec::new(alloc)), next));
    }
    words(alloc, text, next)
}

/// Reads a refused recovery, from behind the name of its line on.
pub fn recovery(alloc: Global, text: &[u8], at: usize) -> Result<(Passed, usize), ReplyError>
    requires { at ≤ length text.now }
    ensures { ReadsFrom IsPassed text.now at result }
{
    let ((name, _), next) = match word(alloc, text, at, b" ") {
        Ok(read) => read,
        Err(error) => return Err(error),
    };
    match words(alloc, text, next) {
        Ok((words, last)) => Ok((with_words(name, words), last)),
        Err(error) => Err(error),
    }
}

/// The recovery of this name, of whose words the last is its failure.
fn with_words(name: Text, words: Texts) -> Passed
    requires { 0 < length words }
    ensures name { result.call.name ≡ name }
    ensures words { result.call.args ++ result.failure ∷ [] ≡ words }
{
    let mut args = words.into_vec();
    match args.pop() {
        Some(failure) => Passed {
            call: Call {
                name,
                args: Texts::from_vec(args),
            },
            failure,
        },
        None => unreachable!(),
    }
}

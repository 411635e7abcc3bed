// The words of a line.
ghost use Rattle.std.specs.Prelude.{◌≡◌};
ghost use Rattle.std.specs.List.{list_all};
ghost use Rattle.grid_model.specs.Words.{is_word_byte};

use crate::playing::unknown;
use grid_model::Text;
use req_words::{WordError, is_word_byte, quote, words};
use std::alloc::{AllocError, Global};

pub(crate) fn play(alloc: Global, call: &str, text: &[u8]) -> Result<String, AllocError> {
    match call {
        "words" => read(alloc, text),
        "quoted" => quoted(alloc, text),
        "memory" => format!(in alloc; "{}", WordError::Memory),
        _ => unknown(alloc),
    }
}

/// These texts, each in brackets.
pub(crate) fn in_brackets(alloc: Global, texts: &[Text]) -> Result<String, AllocError> {
    let mut shown = String::new(alloc);
    for text in texts {
        shown.push_str(format!(in alloc; "[{}]", text.as_slice().escape_ascii())?.as_str())?;
    }
    Ok(shown)
}

// The words of a line.
fn read(alloc: Global, line: &[u8]) -> Result<String, AllocError> {
    match words(alloc, line) {
        Ok(texts) => in_brackets(alloc, texts.as_slice()),
        Err(error) => format!(in alloc; "{error}"),
    }
}

// Whether it is a word.
fn is_word(bytes: &[u8]) -> bool
    ensures { result ≡ list_all is_word_byte bytes.now }
{
    bytes.iter().all(|byte| is_word_byte(*byte))
}

// A word as it is written, and what is read of that.
fn quoted(alloc: Global, word: &[u8]) -> Result<String, AllocError> {
    if !is_word(word) {
        return String::from_str(alloc, "no word");
    }
    let text = quote(alloc, &Text::copy_of(alloc, word)?)?;
    let again = read(alloc, text.as_slice())?;
    format!(in alloc; "{} {again}", text.as_slice().escape_ascii())
}

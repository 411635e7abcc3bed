ghost use Rattle.std.specs.Prelude.{◌≡◌, ◌≢◌, ℕ, [], ◌∷◌, IfOk, IfErr, IsOk, OnOk};
ghost use Rattle.grid_model.specs.Names.{Text as Word, Path as Place};
ghost use Rattle.cmd_read.specs.Table.{way, a_text, a_new_name, a_number, a_path};
ghost use Rattle.cmd_read.specs.Reading.{AsksFor, Refuses};
ghost use Rattle.grid_model.specs.declared.requests.Verb.{Verb};
ghost use Rattle.cmd_read.specs.declared.error.ReadError.TheVariants.{Memory};

use crate::ReadError;
use crate::number::number_of;
use crate::words::{bad_word, front, new_name_of, no_more, path_of, text_of};
use grid_model::{Path, Text};
use std::alloc::Global;

/// No words.
pub(crate) fn no_words(words: &[Text]) -> Result<(), ReadError>
    ensures none { OnOk result ((verb : Verb) → AsksFor (way [] verb ∷ []) words.now verb) }
    ensures refused { IfErr result (λ why. (verb : Verb) → Refuses (way [] verb ∷ []) words.now why) }
{
    no_more(words, 2)
}

/// One word, a text.
pub(crate) fn one_text(alloc: Global, words: &[Text]) -> Result<Text, ReadError>
    ensures text { IfOk result (λ text. (verb : Word → Verb) → AsksFor (way (a_text ∷ []) verb ∷ []) words.now (verb text)) }
    ensures refused { IfErr result (λ why. why ≢ Memory → (verb : Word → Verb) → Refuses (way (a_text ∷ []) verb ∷ []) words.now why) }
{
    let (text, rest) = front(words, 2)?;
    no_more(rest, 3)?;
    text_of(alloc, text)
}

/// One word, the name of something new.
pub(crate) fn one_name(alloc: Global, words: &[Text]) -> Result<Text, ReadError>
    ensures name { IfOk result (λ name. (verb : Word → Verb) → AsksFor (way (a_new_name ∷ []) verb ∷ []) words.now (verb name)) }
    ensures refused { IfErr result (λ why. why ≢ Memory → (verb : Word → Verb) → Refuses (way (a_new_name ∷ []) verb ∷ []) words.now why) }
{
    let (name, rest) = front(words, 2)?;
    no_more(rest, 3)?;
    new_name_of(alloc, name)
}

/// One word, a number.
pub(crate) fn one_number(words: &[Text]) -> Result<u64, ReadError>
    ensures number { IfOk result (λ number. (verb : ℕ → Verb) → AsksFor (way (a_number ∷ []) verb ∷ []) words.now (verb number)) }
    ensures refused { IfErr result (λ why. why ≢ Memory → (verb : ℕ → Verb) → Refuses (way (a_number ∷ []) verb ∷ []) words.now why) }
{
    let (number, rest) = front(words, 2)?;
    let number = number_of(number).ok_or(bad_word(2))?;
    no_more(rest, 3)?;
    Ok(number)
}

/// One word, a path.
pub(crate) fn one_path(alloc: Global, words: &[Text]) -> Result<Path, ReadError>
    ensures path { IfOk result (λ path. (verb : Place → Verb) → AsksFor (way (a_path ∷ []) verb ∷ []) words.now (verb path)) }
    ensures refused { IfErr result (λ why. why ≢ Memory → (verb : Place → Verb) → Refuses (way (a_path ∷ []) verb ∷ []) words.now why) }
{
    let (path, rest) = front(words, 2)?;
    no_more(rest, 3)?;
    path_of(alloc, path)
}

/// Two words, texts.
pub(crate) fn two_texts(alloc: Global, words: &[Text]) -> Result<(Text, Text), ReadError>
    ensures texts { IfOk result (λ texts. (verb : Word → Word → Verb) → AsksFor (way (a_text ∷ a_text ∷ []) verb ∷ []) words.now (verb texts.0 texts.1)) }
    ensures refused { IfErr result (λ why. why ≢ Memory → (verb : Word → Word → Verb) → Refuses (way (a_text ∷ a_text ∷ []) verb ∷ []) words.now why) }
{
    let (first, rest) = front(words, 2)?;
    let (second, rest) = front(rest, 3)?;
    no_more(rest, 4)?;
    let first = text_of(alloc, first)?;
    let second = text_of(alloc, second)?;
    Ok((first, second))
}

/// Two words, paths.
pub(crate) fn two_paths(alloc: Global, words: &[Text]) -> Result<(Path, Path), ReadError>
    ensures paths { IfOk result (λ paths. (verb : Place → Place → Verb) → AsksFor (way (a_path ∷ a_path ∷ []) verb ∷ []) words.now (verb paths.0 paths.1)) }
    ensures refused { IfErr result (λ why. why ≢ Memory → (verb : Place → Place → Verb) → Refuses (way (a_path ∷ a_path ∷ []) verb ∷ []) words.now why) }
{
    let (first, rest) = front(words, 2)?;
    let (second, rest) = front(rest, 3)?;
    no_more(rest, 4)?;
    let first = path_of(alloc, first)?;
    let second = path_of(alloc, second)?;
    Ok((first, second))
}

/// Two words, a path and a text.
pub(crate) fn path_and_text(alloc: Global, words: &[Text]) -> Result<(Path, Text), ReadError>
    ensures both { IfOk result (λ both. (verb : Place → Word → Verb) → AsksFor (way (a_path ∷ a_text ∷ []) verb ∷ []) words.now (verb both.0 both.1)) }
    ensures refused { IfErr result (λ why. why ≢ Memory → (verb : Place → Word → Verb) → Refuses (way (a_path ∷ a_text ∷ []) verb ∷ []) words.now why) }
{
    let (path, rest) = front(words, 2)?;
    let (text, rest) = front(rest, 3)?;
    no_more(rest, 4)?;
    let path = path_of(alloc, path)?;
    let text = text_of(alloc, text)?;
    Ok((path, text))
}

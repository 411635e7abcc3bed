ghost use Rattle.std.specs.Prelude.{◌≡◌, ◌≢◌, [], ◌∷◌, IfOk, IfErr, OnOk, get_or, drop};
ghost use Rattle.grid_model.specs.Names.{same_text};
ghost use Rattle.cmd_read.specs.Table.{Means, a_path, a_path_text, a_new_name, a_text};
ghost use Rattle.cmd_read.specs.Reading.{Spoils};
ghost use Rattle.cmd_read.specs.declared.error.ReadError.TheVariants.{BadWord, Memory};

use crate::ReadError;
use grid_model::{Path, PathError, Text, check_name};
use std::alloc::{AllocError, Global};

/// The word of this number is refused.
pub(crate) fn bad_word(index: u64) -> ReadError
    ensures { result ≡ BadWord index }
{
    ReadError::BadWord { index }
}

/// Whether the word has just these bytes.
pub(crate) fn is_word(word: &Text, bytes: &[u8]) -> bool
    ensures { result ≡ same_text bytes.now word.now }
{
    word.has_bytes(bytes)
}

/// The first of the words, which has this number, and those behind it. Refused where it is missing.
pub(crate) fn front(words: &[Text], index: u64) -> Result<(&Text, &[Text]), ReadError>
    ensures word { IfOk result (λ front. words.now ≡ front.0.now ∷ front.1.now) }
    ensures missing { IfErr result (λ why. words.now ≡ []) }
    ensures why { IfErr result (λ why. why ≡ BadWord index) }
{
    match words {
        [] => Err(bad_word(index)),
        [word, rest @ ..] => Ok((word, rest)),
    }
}

/// Refuses where there is a word still, which has this number.
pub(crate) fn no_more(words: &[Text], index: u64) -> Result<(), ReadError>
    ensures none { OnOk result (words.now ≡ []) }
    ensures surplus { IfErr result (λ why. words.now ≡ get_or words.now 0 [] ∷ drop 1 words.now) }
    ensures why { IfErr result (λ why. why ≡ BadWord index) }
{
    match words {
        [] => Ok(()),
        [_, ..] => Err(bad_word(index)),
    }
}

/// A copy of the word. Fails for want of memory alone.
pub(crate) fn text_of(alloc: Global, word: &Text) -> Result<Text, ReadError>
    ensures text { IfOk result (λ text. Means a_text word.now text) }
    ensures memory { IfErr result (λ why. why ≡ Memory) }
{
    match Text::copy_of(alloc, word.as_slice()) {
        Ok(text) => Ok(text),
        Err(AllocError) => Err(ReadError::Memory),
    }
}

/// The path that the word spells.
pub(crate) fn path_of(alloc: Global, word: &Text) -> Result<Path, ReadError>
    ensures path { IfOk result (λ path. Means a_path word.now path) }
    ensures refused { IfErr result (λ why. why ≢ Memory → Spoils a_path word.now why) }
{
    match Path::parse(alloc, word.as_slice()) {
        Ok(path) => Ok(path),
        Err(PathError::BadPath { at }) => Err(ReadError::BadPath { at }),
        Err(PathError::Memory) => Err(ReadError::Memory),
    }
}

/// A copy of the word, which is to spell a path.
pub(crate) fn path_text_of(alloc: Global, word: &Text) -> Result<Text, ReadError>
    ensures text { IfOk result (λ text. Means a_path_text word.now text) }
    ensures refused { IfErr result (λ why. why ≢ Memory → Spoils a_path_text word.now why) }
{
    let _path = path_of(alloc, word)?;
    text_of(alloc, word)
}

/// A copy of the word, which is to be the name of something new.
pub(crate) fn new_name_of(alloc: Global, word: &Text) -> Result<Text, ReadError>
    ensures name { IfOk result (λ name. Means a_new_name word.now name) }
    ensures refused { IfErr result (λ why. why ≢ Memory → Spoils a_new_name word.now why) }
{
    match check_name(word.as_slice()) {
        Ok(()) => text_of(alloc, word),
        Err(refused) => Err(ReadError::BadName { at: refused.at }),
    }
}

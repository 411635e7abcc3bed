ghost use Rattle.std.specs.Prelude.{◌≡◌, [], IfOk};
ghost use Rattle.grid_model.specs.Words.{is_bare_byte, is_word_byte};
ghost use Rattle.req_words.specs.Going.{Moves, StepsTo, Finishes};

use grid_model::Text;
use std::alloc::{AllocError, Global};

/// Where in a line the next byte stands, with what was read of the word that it stands in.
#[derive(Debug, Drop)]
pub enum Place {
    /// Between words.
    Gap,
    /// In a word without quotes.
    Bare(Vec<u8>),
    /// Between the quotes of a word.
    Quoted(Vec<u8>),
    /// There, behind a `\`.
    Escape(Vec<u8>),
    /// Behind the quote that ended a word.
    Closed,
}

/// Reads a byte: the next place, `None` where no such byte may stand. A word that ends before it or with it is added.
pub fn advance(
    alloc: Global,
    words: &mut Vec<Text>,
    place: Place,
    byte: u8,
) -> Result<Option<Place>, AllocError>
    ensures { IfOk result (λ next. Moves place words.old.items byte next words.new.items) }
{
    match place {
        Place::Gap => begin(alloc, byte),
        Place::Bare(word) => in_bare(words, word, byte),
        Place::Quoted(word) => in_quoted(words, word, byte),
        Place::Escape(word) => in_escape(word, byte),
        Place::Closed => Ok(behind_quote(byte)),
    }
}

/// Reads the end of the line: whether it may end here. A word that ends with it is added.
pub fn finish(words: &mut Vec<Text>, place: Place) -> Result<bool, AllocError>
    ensures { IfOk result (λ whole. Finishes place words.old.items whole words.new.items) }
{
    match place {
        Place::Gap | Place::Closed => Ok(true),
        Place::Bare(word) => {
            words.push(Text::from_vec(word))?;
            Ok(true)
        }
        Place::Quoted(_) | Place::Escape(_) => Ok(false),
    }
}

fn begin(alloc: Global, byte: u8) -> Result<Option<Place>, AllocError>
    ensures { IfOk result (λ next. StepsTo Place.Gap byte next []) }
{
    if byte == b' ' {
        return Ok(Some(Place::Gap));
    }
    if byte == b'"' {
        return Ok(Some(Place::Quoted(Vec::new(alloc))));
    }
    if !is_bare_byte(byte) {
        return Ok(None);
    }
    let mut word = Vec::new(alloc);
    word.push(byte)?;
    Ok(Some(Place::Bare(word)))
}

fn in_bare(words: &mut Vec<Text>, mut word: Vec<u8>, byte: u8) -> Result<Option<Place>, AllocError>
    ensures { IfOk result (λ next. Moves (Place.Bare word) words.old.items byte next words.new.items) }
{
    if byte == b' ' {
        words.push(Text::from_vec(word))?;
        return Ok(Some(Place::Gap));
    }
    if !is_bare_byte(byte) {
        return Ok(None);
    }
    word.push(byte)?;
    Ok(Some(Place::Bare(word)))
}

fn in_quoted(
    words: &mut Vec<Text>,
    mut word: Vec<u8>,
    byte: u8,
) -> Result<Option<Place>, AllocError>
    ensures { IfOk result (λ next. Moves (Place.Quoted word) words.old.items byte next words.new.items) }
{
    if byte == b'"' {
        words.push(Text::from_vec(word))?;
        return Ok(Some(Place::Closed));
    }
    if byte == b'\\' {
        return Ok(Some(Place::Escape(word)));
    }
    if !is_word_byte(byte) {
        return Ok(None);
    }
    word.push(byte)?;
    Ok(Some(Place::Quoted(word)))
}

fn in_escape(mut word: Vec<u8>, byte: u8) -> Result<Option<Place>, AllocError>
    ensures { IfOk result (λ next. StepsTo (Place.Escape word) byte next []) }
{
    if byte != b'"' && byte != b'\\' {
        return Ok(None);
    }
    word.push(byte)?;
    Ok(Some(Place::Quoted(word)))
}

fn behind_quote(byte: u8) -> Option<Place>
    ensures { StepsTo Place.Closed byte result [] }
{
    (byte == b' ').then_some(Place::Gap)
}

/// Whether a word without quotes may have the byte.
pub fn is_bare_byte(byte: u8) -> bool
    ensures { result ≡ is_bare_byte byte }
{
    byte > 0x20 && byte != 0x7F && byte != b'"'
}

/// Whether a word may have the byte.
pub fn is_word_byte(byte: u8) -> bool
    ensures { result ≡ is_word_byte byte }
{
    byte >= 0x20 && byte != 0x7F
}

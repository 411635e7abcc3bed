//! Which calls are of micro-services.
ghost use Rattle.chain_core.specs.Readings.{readings, fits_reading};
ghost use Rattle.grid_model.specs.Names.{same_text};
ghost use Rattle.grid_model.specs.Services.{service, word_in, thing_words, level_words};
ghost use Rattle.std.specs.Prelude.{◌≡◌, is_some};

use grid_model::{Call, Text, Texts};

/// What arguments a micro-service takes.
#[derive(Clone, Copy, Debug, PartialEq, Eq)]
pub enum Reading {
    Nop,
    Path,
    Paths,
    /// A path and a resource.
    Place,
    /// Two paths and a resource.
    Copy,
    /// A thing, by its word and its name, and three texts.
    Triple,
    /// A level, by its word, a name and a path.
    Access,
}

/// Whether the text has just these bytes.
fn is_word(text: &Text, bytes: &[u8]) -> bool
    ensures { result ≡ same_text bytes.now text.now }
{
    text.has_bytes(bytes)
}

/// What the micro-service of this name takes, where there is one.
fn reading_of(name: &Text) -> Option<Reading>
    ensures { result ≡ word_in readings name.now }
{
    if is_word(name, b"nop") {
        return Some(Reading::Nop);
    }
    if is_word(name, b"msiCollCreate") {
        return Some(Reading::Path);
    }
    if is_word(name, b"msiRmColl") {
        return Some(Reading::Path);
    }
    if is_word(name, b"msiDataObjRename") {
        return Some(Reading::Paths);
    }
    if is_word(name, b"msiDataObjRepl") {
        return Some(Reading::Place);
    }
    if is_word(name, b"msiDataObjChksum") {
        return Some(Reading::Path);
    }
    if is_word(name, b"msiDataObjCopy") {
        return Some(Reading::Copy);
    }
    if is_word(name, b"msiDataObjTrim") {
        return Some(Reading::Place);
    }
    if is_word(name, b"msiDataObjUnlink") {
        return Some(Reading::Path);
    }
    if is_word(name, b"msiAddAVU") {
        return Some(Reading::Triple);
    }
    if is_word(name, b"msiRmAVU") {
        return Some(Reading::Triple);
    }
    if is_word(name, b"msiSetACL") {
        return Some(Reading::Access);
    }
    None
}

/// The word is one of a thing.
fn is_thing(word: &Text) -> bool
    ensures { result ≡ is_some (word_in thing_words word.now) }
{
    is_word(word, b"-d") || is_word(word, b"-C") || is_word(word, b"-R") || is_word(word, b"-u")
}

/// The word is one of a level.
fn is_level(word: &Text) -> bool
    ensures { result ≡ is_some (word_in level_words word.now) }
{
    is_word(word, b"null")
        || is_word(word, b"read")
        || is_word(word, b"write")
        || is_word(word, b"own")
}

/// The arguments are of the form.
fn takes(reading: Reading, args: &[Text]) -> bool
    ensures { result ≡ fits_reading reading args.now }
{
    match reading {
        Reading::Nop => args.is_empty(),
        Reading::Path => args.len() == 1,
        Reading::Paths | Reading::Place => args.len() == 2,
        Reading::Copy => args.len() == 3,
        Reading::Triple => match args {
            [word, _, _, _, _] => is_thing(word),
            _ => false,
        },
        Reading::Access => match args {
            [word, _, _] => is_level(word),
            _ => false,
        },
    }
}

/// Whether the call is one of a micro-service with its arguments.
pub fn is_service(call: &Call) -> bool
    ensures { result ≡ is_some (service call.now) }
{
    match reading_of(&call.name) {
        None => false,
        Some(reading) => takes(reading, call.args.as_slice()),
    }
}

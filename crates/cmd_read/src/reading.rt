ghost use Rattle.std.specs.Prelude.{◌≡◌, ◌≢◌, Ok, Err, IfOk, IfErr};
ghost use Rattle.cmd_read.specs.Table.{among, table};
ghost use Rattle.cmd_read.specs.Reading.{Reads, ReadsVerb, session_of};
ghost use Rattle.cmd_read.specs.declared.error.ReadError.TheVariants.{Memory};

use crate::ReadError;
use crate::number::number_of;
use crate::rows::{
    read_collections, read_metadata, read_objects, read_resources, read_rules, read_sessions,
    read_uploads, read_users,
};
use crate::words::{bad_word, front};
use grid_model::{Request, Text, Texts, Verb};
use std::alloc::Global;

/// Reads the words of a line, without their quotes, as a request. The first word is the session, the second one the
/// verb. Refuses, in this order, a session that is no number from 0 to 63 (`BadWord` 0), a missing verb (`BadWord` 1), a
/// word that is no verb (`UnknownCommand`), the first word that is not of its form, is missing or is one too many
/// (`BadWord`), and the first one that is to be a path or a new name and is none (`BadPath`, `BadName`). `Memory` may
/// come at any time.
pub fn read_request(alloc: Global, words: &Texts) -> Result<Request, ReadError>
    ensures request { IfOk result (λ request. Reads words.now (Ok request)) }
    ensures refused { IfErr result (λ why. why ≢ Memory → Reads words.now (Err why)) }
{
    let (session, rest) = front(words.as_slice(), 0)?;
    let session = session_of(session).ok_or(bad_word(0))?;
    let (verb, rest) = front(rest, 1)?;
    let verb = read_verb(alloc, verb, rest)?;
    Ok(Request { session, verb })
}

// The session that a word numbers.
fn session_of(word: &Text) -> Option<u8>
    ensures { result ≡ session_of word.now }
{
    match number_of(word) {
        Some(number) => {
            if number < 64 {
                return Some(number as u8);
            }
            None
        }
        None => None,
    }
}

// The verb that the word is, with the words behind it.
fn read_verb(alloc: Global, verb: &Text, words: &[Text]) -> Result<Verb, ReadError>
    ensures verb { IfOk result (λ asked. ReadsVerb (among table verb.now) words.now (Ok asked)) }
    ensures refused { IfErr result (λ why. why ≢ Memory → ReadsVerb (among table verb.now) words.now (Err why)) }
{
    if let Some(asked) = read_sessions(alloc, verb, words)? {
        return Ok(asked);
    }
    if let Some(asked) = read_users(alloc, verb, words)? {
        return Ok(asked);
    }
    if let Some(asked) = read_resources(alloc, verb, words)? {
        return Ok(asked);
    }
    if let Some(asked) = read_rules(alloc, verb, words)? {
        return Ok(asked);
    }
    if let Some(asked) = read_collections(alloc, verb, words)? {
        return Ok(asked);
    }
    if let Some(asked) = read_objects(alloc, verb, words)? {
        return Ok(asked);
    }
    if let Some(asked) = read_uploads(alloc, verb, words)? {
        return Ok(asked);
    }
    if let Some(asked) = read_metadata(alloc, verb, words)? {
        return Ok(asked);
    }
    Err(ReadError::UnknownCommand)
}

ghost use Rattle.std.specs.Prelude.{◌≡◌, ◌↔◌, ◌<◌, length, IfOk, IfErr, IsErrOf};
ghost use Rattle.grid_model.specs.Places.{IsRefusedAt};
ghost use Rattle.grid_model.specs.Words.{SpellsLine};
ghost use Rattle.req_words.specs.declared.line.WordError.TheVariants.{Syntax, Memory};

use crate::reading::{Place, advance, finish};
use grid_model::Texts;
use std::alloc::{AllocError, Global};
use thiserror::Error;

/// How many bytes a line has at most, without its newline.
const LONGEST_LINE: usize = 4096;

/// Why the words of a line were not read.
#[derive(Clone, Copy, Debug, PartialEq, Eq, Error)]
pub enum WordError {
    /// The line has more than 4,096 bytes.
    #[error("a line of more than {LONGEST_LINE} bytes")]
    TooLong,
    /// It is no line of words. `at` is the length of its longest first part that begins one.
    #[error("no line of words, from byte {at} on")]
    Syntax { at: u64 },
    /// Memory ran out.
    #[error("out of memory")]
    Memory,
}

impl From<AllocError> for WordError {
    ghost from_gives = { λ _ error. error ≡ Memory };

    fn from(_error: AllocError) -> WordError {
        WordError::Memory
    }
}

/// The words of a line, which comes without its newline. A line of more than 4,096 bytes is `TooLong`, whatever
/// stands in it; another that is no line of words is refused with `Syntax`.
pub fn words(alloc: Global, line: &[u8]) -> Result<Texts, WordError>
    ensures words { IfOk result (λ words. SpellsLine line.now words) }
    ensures only { IfOk result (λ words. (others : _) → SpellsLine line.now others → others ≡ words) }
    ensures too_long { IsErrOf result WordError.TooLong ↔ (4096 < length line.now) }
    ensures syntax { IfErr result (λ error. (at : _) → error ≡ Syntax at → IsRefusedAt SpellsLine line.now at) }
{
    if line.len() > LONGEST_LINE {
        return Err(WordError::TooLong);
    }
    let mut words = Vec::new(alloc);
    let mut place = Place::Gap;
    for (at, byte) in line.iter().enumerate() {
        place = match advance(alloc, &mut words, place, *byte)? {
            Some(next) => next,
            None => return Err(WordError::Syntax { at: at as u64 }),
        };
    }
    if finish(&mut words, place)? {
        Ok(Texts::from_vec(words))
    } else {
        Err(WordError::Syntax {
            at: line.len() as u64,
        })
    }
}

use grid_model::Text;
use std::alloc::{AllocError, Global};
use std::env::FillError;
use std::rt::Env;

/// The words after the program's name, byte for byte, also where they are no UTF-8. The only error is want of memory.
pub fn program_words(env: &impl Env, alloc: Global) -> Result<Vec<Text>, AllocError> {
    let mut words = Vec::new(alloc);
    for place in 1..usize::MAX {
        match word_at(env, alloc, place)? {
            Some(word) => words.push(word)?,
            None => break,
        }
    }
    Ok(words)
}

// The word at this place, in a buffer that is doubled until it fits.
fn word_at(env: &impl Env, alloc: Global, place: usize) -> Result<Option<Text>, AllocError> {
    let mut capacity = 256usize;
    for _ in 0..usize::BITS {
        let mut bytes = vec![in alloc; 0u8; capacity]?;
        match env.arg(place, &mut bytes) {
            Ok(count) => {
                bytes.truncate(count);
                return Ok(Some(Text::from_vec(bytes)));
            }
            Err(FillError::NotPresent) => return Ok(None),
            Err(FillError::TooLong) => capacity = capacity.saturating_mul(2),
        }
    }
    Err(AllocError)
}

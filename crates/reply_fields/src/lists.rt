ghost use Rattle.std.specs.Prelude.{◌≤◌, length};
ghost use Rattle.reply_fields.specs.Fronts.{ReadsFrom};
ghost use Rattle.reply_fields.specs.WordLists.{IsWordList};

use crate::error::ReplyError;
use crate::words::word;
use grid_model::Texts;
use std::alloc::{AllocError, Global};

/// Reads one word or more with a space between each two, and the newline that ends them.
pub fn words(alloc: Global, text: &[u8], at: usize) -> Result<(Texts, usize), ReplyError>
    requires { at ≤ length text.now }
    ensures { ReadsFrom IsWordList text.now at result }
{
    let mut words = Vec::new(alloc);
    let mut place = at;
    loop {
        let ((word, end), next) = match word(alloc, text, place, b" \n") {
            Ok(read) => read,
            Err(error) => return Err(error),
        };
        words.push(word).map_err(AllocError::from)?;
        place = next;
        if end == b'\n' {
            return Ok((Texts::from_vec(words), place));
        }
    }
}

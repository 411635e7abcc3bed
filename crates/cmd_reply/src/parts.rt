ghost use Rattle.std.specs.Prelude.{◌≡◌, [], ◌∷◌, ◌++◌, OnOk, decimal, map, flat_map};
ghost use Rattle.std.specs.Fmt.{signed_decimal};
ghost use Rattle.grid_model.specs.Digests.{checksum};
ghost use Rattle.grid_model.specs.Printing.{spaced};
ghost use Rattle.grid_model.specs.Words.{quoted_word};
ghost use Rattle.cmd_reply.specs.Spaced.{after_space};

use grid_model::{Digest, Text};
use req_words::push_word;
use std::alloc::AllocError;

/// Adds the number.
pub fn push_number(text: &mut Vec<u8>, number: u64) -> Result<(), AllocError>
    ensures { OnOk result (text.new.items ≡ text.old.items ++ decimal number) }
{
    let digits = format!(in *text.allocator(); "{number}")?;
    text.extend_from_slice(digits.as_bytes())
}

/// Adds a space and the number.
pub fn push_next_number(text: &mut Vec<u8>, number: u64) -> Result<(), AllocError>
    ensures { OnOk result (text.new.items ≡ text.old.items ++ after_space (decimal number)) }
{
    text.push(b' ')?;
    push_number(text, number)
}

/// Adds a space and the number, which may be negative.
pub fn push_next_signed(text: &mut Vec<u8>, number: i64) -> Result<(), AllocError>
    ensures { OnOk result (text.new.items ≡ text.old.items ++ after_space (signed_decimal number)) }
{
    let digits = format!(in *text.allocator(); " {number}")?;
    text.extend_from_slice(digits.as_bytes())
}

/// Adds a space and the digest as it is printed.
pub fn push_next_digest(text: &mut Vec<u8>, digest: &Digest) -> Result<(), AllocError>
    ensures { OnOk result (text.new.items ≡ text.old.items ++ after_space (checksum digest.now)) }
{
    text.push(b' ')?;
    let printed = digest.print(*text.allocator())?;
    text.extend_from_slice(printed.as_slice())
}

/// Adds the name, and each of the numbers behind a space.
pub fn push_counted(text: &mut Vec<u8>, name: &[u8], numbers: &[u64]) -> Result<(), AllocError>
    ensures { OnOk result (text.new.items ≡ text.old.items ++ spaced (name.now ∷ map decimal numbers.now)) }
{
    text.extend_from_slice(name)?;
    for number in numbers {
        push_next_number(text, *number)?;
    }
    Ok(())
}

/// Adds a space and the word, for each of the words.
pub fn push_next_words(text: &mut Vec<u8>, words: &[Text]) -> Result<(), AllocError>
    ensures { OnOk result (text.new.items ≡ text.old.items ++ flat_map after_space (map quoted_word words.now)) }
{
    for word in words {
        push_next_word(text, word)?;
    }
    Ok(())
}

/// Adds a space and the word.
pub fn push_next_word(text: &mut Vec<u8>, word: &Text) -> Result<(), AllocError>
    ensures { OnOk result (text.new.items ≡ text.old.items ++ after_space (quoted_word word.now)) }
{
    text.push(b' ')?;
    push_word(text, word.as_slice())
}

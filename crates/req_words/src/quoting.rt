ghost use Rattle.std.specs.Prelude.{◌≡◌, [], ◌∷◌, ◌++◌, IsTrue, IfOk, OnOk};
ghost use Rattle.std.specs.List.{list_all, flat_map};
ghost use Rattle.grid_model.specs.Words.{is_word_byte, is_bare, is_bare_byte, quote_byte, quoted_word, SpellsLine};

use crate::reading::is_bare_byte;
use grid_model::Text;
use std::alloc::{AllocError, Global};

/// The word as it stands in a line: as it is where it may, else between quotes. No byte of it is below 0x20 or 0x7F.
/// Fails for want of memory alone.
pub fn quote(alloc: Global, word: &Text) -> Result<Text, AllocError>
    requires { IsTrue (list_all is_word_byte word.now) }
    ensures text { IfOk result (λ text. text ≡ quoted_word word.now) }
    ensures spells { IfOk result (λ text. SpellsLine text (word.now ∷ [])) }
{
    let mut text = Vec::new(alloc);
    push_word(&mut text, word.as_slice())?;
    Ok(Text::from_vec(text))
}

/// Adds the word to a text as it stands in a line: as it is where it may, else between quotes. Fails for want of
/// memory alone.
pub fn push_word(text: &mut Vec<u8>, word: &[u8]) -> Result<(), AllocError>
    ensures { OnOk result (text.new.items ≡ text.old.items ++ quoted_word word.now) }
{
    if is_bare(word) {
        text.extend_from_slice(word)
    } else {
        push_quoted_word(text, word)
    }
}

/// The word between quotes.
fn push_quoted_word(text: &mut Vec<u8>, word: &[u8]) -> Result<(), AllocError>
    ensures { OnOk result (text.new.items ≡ text.old.items ++ (0x22 ∷ flat_map quote_byte word.now ++ 0x22 ∷ [])) }
{
    text.push(b'"')?;
    for byte in word {
        push_quoted(text, *byte)?;
    }
    text.push(b'"')?;
    Ok(())
}

/// Whether the word may stand without quotes.
pub fn is_bare(bytes: &[u8]) -> bool
    ensures { result ≡ is_bare bytes.now }
{
    !bytes.is_empty() && all_bare(bytes)
}

fn all_bare(bytes: &[u8]) -> bool
    ensures { result ≡ list_all is_bare_byte bytes.now }
{
    bytes.iter().all(|b| is_bare_byte(*b))
}

fn push_quoted(quoted: &mut Vec<u8>, byte: u8) -> Result<(), AllocError>
    ensures { OnOk result (quoted.new.items ≡ quoted.old.items ++ quote_byte byte) }
{
    if byte == b'"' || byte == b'\\' {
        quoted.push(b'\\')?;
    }
    quoted.push(byte)?;
    Ok(())
}

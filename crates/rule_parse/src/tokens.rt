ghost use Rattle.rule_lex.specs.Bytes.{needs_backslash};
ghost use Rattle.rule_lex.specs.Tokens.{RuleToken as Meaning};
ghost use Rattle.rule_parse.specs.Printed.{print_byte};
ghost use Rattle.rule_parse.specs.Seen.{spread};
ghost use Rattle.std.specs.Prelude.{◌≡◌, [], ◌∷◌, ◌++◌, flat_map, OnOk};

use crate::symbols::spelling;
use rule_lex::Symbol;
use std::alloc::{AllocError, Global};

/// Adds the bytes of a token and a space.
fn put(out: &mut Vec<u8>, token: &[u8]) -> Result<(), AllocError>
    ensures { OnOk result (out.new.items ≡ out.old.items ++ (token.now ++ 0x20 ∷ [])) }
{
    out.extend_from_slice(token)?;
    out.push(b' ')?;
    Ok(())
}

/// Adds a word or a sign.
pub fn put_symbol(out: &mut Vec<u8>, symbol: Symbol) -> Result<(), AllocError>
    ensures { OnOk result (out.new.items ≡ out.old.items ++ spread (Meaning.symbol symbol ∷ [])) }
{
    put(out, spelling(symbol))
}

/// Adds a name.
pub fn put_name(out: &mut Vec<u8>, name: &[u8]) -> Result<(), AllocError>
    ensures { OnOk result (out.new.items ≡ out.old.items ++ spread (Meaning.named name.now ∷ [])) }
{
    put(out, name)
}

/// Adds a parameter.
pub fn put_param(out: &mut Vec<u8>, name: &[u8]) -> Result<(), AllocError>
    ensures { OnOk result (out.new.items ≡ out.old.items ++ spread (Meaning.param name.now ∷ [])) }
{
    out.push(b'*')?;
    put(out, name)
}

/// Adds a session variable.
pub fn put_session(out: &mut Vec<u8>, name: &[u8]) -> Result<(), AllocError>
    ensures { OnOk result (out.new.items ≡ out.old.items ++ spread (Meaning.session name.now ∷ [])) }
{
    out.push(b'$')?;
    put(out, name)
}

/// Adds a number.
pub fn put_number(out: &mut Vec<u8>, alloc: Global, number: i64) -> Result<(), AllocError>
    ensures { OnOk result (out.new.items ≡ out.old.items ++ spread (Meaning.number number ∷ [])) }
{
    let digits = number.to_string(alloc)?;
    put(out, digits.as_bytes())
}

/// What stands in a text with a `\` before it.
fn is_escaped(byte: u8) -> bool
    ensures { result ≡ needs_backslash byte }
{
    matches!(byte, b'\\' | b'"' | b'\'')
}

/// Adds what stands for a byte of a text.
fn put_byte(out: &mut Vec<u8>, byte: u8) -> Result<(), AllocError>
    ensures { OnOk result (out.new.items ≡ out.old.items ++ print_byte byte) }
{
    if is_escaped(byte) {
        out.push(b'\\')?;
    }
    out.push(byte)?;
    Ok(())
}

/// Adds what stands for the bytes of a text.
fn put_bytes(out: &mut Vec<u8>, bytes: &[u8]) -> Result<(), AllocError>
    ensures { OnOk result (out.new.items ≡ out.old.items ++ flat_map print_byte bytes.now) }
{
    for byte in bytes {
        put_byte(out, *byte)?;
    }
    Ok(())
}

/// Adds a text between its quotes.
pub fn put_text(out: &mut Vec<u8>, bytes: &[u8]) -> Result<(), AllocError>
    ensures { OnOk result (out.new.items ≡ out.old.items ++ spread (Meaning.text bytes.now ∷ [])) }
{
    out.push(b'"')?;
    put_bytes(out, bytes)?;
    out.push(b'"')?;
    out.push(b' ')?;
    Ok(())
}

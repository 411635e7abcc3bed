ghost use Rattle.std.specs.Prelude.{◌≡◌, slice_index};
ghost use Rattle.rule_lex.specs.Bytes.{is_letter, is_digit, is_rule_name_byte, is_space, stands_for_itself, needs_backslash};

/// An ASCII letter or `_`.
pub fn is_letter(byte: u8) -> bool
    ensures { result ≡ is_letter byte }
{
    matches!(byte, b'A'..=b'Z' | b'a'..=b'z' | b'_')
}

/// `0` to `9`.
pub fn is_digit(byte: u8) -> bool
    ensures { result ≡ is_digit byte }
{
    matches!(byte, b'0'..=b'9')
}

/// A letter, `_` or a digit.
pub fn is_word_byte(byte: u8) -> bool
    ensures { result ≡ is_rule_name_byte byte }
{
    is_letter(byte) || is_digit(byte)
}

/// What separates tokens, but for comments.
pub fn is_space(byte: u8) -> bool
    ensures { result ≡ is_space byte }
{
    matches!(byte, b' ' | b'\t' | b'\r' | b'\n')
}

/// What stands in a text with a `\` before it.
pub fn is_escaped(byte: u8) -> bool
    ensures { result ≡ needs_backslash byte }
{
    matches!(byte, b'\\' | b'"' | b'\'')
}

/// What stands in a text for itself.
pub fn is_plain(byte: u8) -> bool
    ensures { result ≡ stands_for_itself byte }
{
    byte >= 0x20 && byte != 0x7F && !is_escaped(byte)
}

/// The byte at this place, or 0, which is in no token, past the end.
pub fn byte_at(bytes: &[u8], at: usize) -> u8
    ensures { result ≡ slice_index bytes.now at }
{
    if at < bytes.len() { bytes[at] } else { 0 }
}

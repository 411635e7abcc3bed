ghost use Rattle.std.specs.Prelude.{◌≡◌, ◌<◌, ◌≤◌, ◌+◌, length, take, drop, slice_index, IsTrue, false, slice_range};
ghost use Rattle.std.specs.List.{list_all};
ghost use Rattle.rule_lex.specs.Skipping.{SkipsBlanks, is_skipped};
ghost use Rattle.rule_lex.specs.Tokens.{is_in_line, EndsLine};

use crate::bytes::is_space;

/// The place of the end of the line that this place is in, or of the text.
fn line_end(text: &[u8], from: usize) -> usize
    requires { from ≤ length text.now }
    ensures within { result ≤ length text.now }
    ensures from { from ≤ result }
    ensures line { IsTrue (list_all is_in_line (slice_range text.now from result)) }
    ensures ends { EndsLine (drop result text.now) }
{
    let mut at = from;
    while at < text.len() && text[at] != b'\n' {
        at += 1;
    }
    at
}

/// The first place from this one on that is in no comment and has no space, or the end of the text.
pub fn skip(text: &[u8], from: usize) -> usize
    requires { from ≤ length text.now }
    ensures within { result ≤ length text.now }
    ensures from { from ≤ result }
    ensures skips { SkipsBlanks from (drop from text.now) result (drop result text.now) }
    ensures ends { result < length text.now → is_skipped (slice_index text.now result) ≡ false }
{
    let mut at = from;
    while at < text.len() {
        if text[at] == b'#' {
            at = line_end(text, at + 1);
        } else if is_space(text[at]) {
            at += 1;
        } else {
            break;
        }
    }
    at
}

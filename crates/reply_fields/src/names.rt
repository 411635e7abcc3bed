ghost use Rattle.std.specs.Prelude.{◌≡◌, ◌<◌, ◌≤◌, length, map};
ghost use Rattle.reply_fields.specs.Fronts.{ReadsFrom};
ghost use Rattle.reply_fields.specs.Spelled.{IsNameOf, SharesFirst};

use crate::error::ReplyError;

/// Reads one of the names, which is told by its number. No name begins another one.
pub fn one_of(text: &[u8], at: usize, names: &[&[u8]]) -> Result<(usize, usize), ReplyError>
    requires place { at ≤ length text.now }
    requires some { 0 < length names.now }
    ensures { ReadsFrom (IsNameOf (map (λ name. name.now) names.now)) text.now at result }
{
    let rest = &text[at..];
    let mut furthest = 0;
    for (index, name) in names.iter().enumerate() {
        let shared = shared_len(rest, name);
        if shared == name.len() {
            return Ok((index, at + shared));
        }
        if shared > furthest {
            furthest = shared;
        }
    }
    Err(ReplyError::BadReply {
        at: (at + furthest) as u64,
    })
}

/// How many bytes two texts share at their fronts.
fn shared_len(left: &[u8], right: &[u8]) -> usize
    ensures { SharesFirst left.now right.now result }
{
    let mut len = 0;
    while len < left.len() && len < right.len() && left[len] == right[len] {
        len += 1;
    }
    len
}

ghost use Rattle.std.specs.Prelude.{◌≡◌, ◌≢◌, ◌<◌, ◌⊎◌, false, IsTrue, get_or, length};
ghost use Rattle.cmd_read.specs.Table.{number_of};

use grid_model::Text;

/// The number below 2^64 that a word writes in decimal, without a sign and without leading zeros. It takes no memory.
pub(crate) fn number_of(word: &Text) -> Option<u64>
    ensures { result ≡ number_of word.now }
{
    let digits = word.as_slice();
    if !is_plain(digits) {
        return None;
    }
    match std::str::from_utf8(digits) {
        Ok(text) => match text.parse::<u64>() {
            Ok(number) => Some(number),
            Err(_) => None,
        },
        Err(_) => None,
    }
}

// Whether no plus sign stands in front, and no zero before other bytes.
fn is_plain(digits: &[u8]) -> bool
    ensures sign { IsTrue result → get_or digits.now 0 0 ≢ 43 }
    ensures zeros { IsTrue result → get_or digits.now 0 0 ≡ 48 → length digits.now ≡ 1 }
    ensures other { result ≡ false → (get_or digits.now 0 0 ≡ 43) ⊎ ((get_or digits.now 0 0 ≡ 48) × (1 < length digits.now)) }
{
    match digits {
        [b'+', ..] => false,
        [b'0', _, ..] => false,
        _ => true,
    }
}

ghost use Rattle.std.specs.Prelude.{◌≡◌, ◌≢◌, ◌^◌, ◌<◌, ℕ, IfOk, IfSome, IfNone, decimal};

use crate::Text;
use std::alloc::{AllocError, Global};

/// The number that a text writes in decimal: below 2^64, without a sign and without leading zeros. `None` for any
/// other text. Fails for want of memory alone.
pub fn read_number(alloc: Global, text: &[u8]) -> Result<Option<u64>, AllocError>
    ensures number { IfOk result (λ found. IfSome found (λ n. text.now ≡ decimal n)) }
    ensures small { IfOk result (λ found. IfSome found (λ n. n < 2 ^ 64)) }
    ensures none { IfOk result (λ found. IfNone found ((n : ℕ) → n < 2 ^ 64 → text.now ≢ decimal n)) }
{
    let Ok(digits) = std::str::from_utf8(text) else {
        return Ok(None);
    };
    let Ok(number) = digits.parse::<u64>() else {
        return Ok(None);
    };
    let printed = Text::from_vec(number.to_string(alloc)?.into_bytes());
    if !printed.has_bytes(text) {
        return Ok(None);
    }
    Ok(Some(number))
}

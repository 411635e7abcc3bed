ghost use Rattle.std.specs.Prelude.{◌≡◌, ◌≤◌, length};
ghost use Rattle.std.specs.List.{prefix_len};
ghost use Rattle.row_codec.specs.Reading.{Gives, byte_at, fixed_at, u32_at, u64_at, coded_at, is_allowed, chars_at, text_at};

use crate::codes::Coded;
use crate::stop::Stop;
use grid_model::Text;
use std::alloc::Global;

/// Which bytes a text may have.
#[derive(Clone, Copy, Debug, PartialEq, Eq)]
pub enum Alphabet {
    /// None below 0x20, and not 0x7F.
    Shown,
    /// These, and the newline.
    Rules,
}

impl Alphabet {
    /// Whether a text may have the byte.
    fn has(self, byte: u8) -> bool
        ensures { result ≡ is_allowed self byte }
    {
        let is_shown = byte >= 0x20 && byte != 0x7F;
        match self {
            Alphabet::Shown => is_shown,
            Alphabet::Rules => is_shown || byte == b'\n',
        }
    }
}

/// The byte at the front, and the bytes behind it.
#[tactic(auto, unfolding(crate::specs::Reading::byte_at))]
pub fn byte(bytes: &[u8]) -> Result<(u8, &[u8]), Stop>
    ensures { Gives (λ x. (x.0, x.1.now)) result (byte_at bytes.now) }
{
    match bytes {
        [] => Err(Stop::Broken { left: 0 }),
        [byte, rest @ ..] => Ok((*byte, rest)),
    }
}

/// The number at the front, its greatest byte first, and the bytes behind it.
#[tactic(auto, unfolding(crate::specs::Reading::u32_at))]
pub fn u32_of(bytes: &[u8]) -> Result<(u32, &[u8]), Stop>
    ensures { Gives (λ x. (x.0, x.1.now)) result (u32_at bytes.now) }
{
    match bytes.split_first_chunk() {
        Some((front, rest)) => Ok((u32::from_be_bytes(*front), rest)),
        None => Err(Stop::Broken { left: 0 }),
    }
}

/// The number at the front, its greatest byte first, and the bytes behind it.
#[tactic(auto, unfolding(crate::specs::Reading::u64_at))]
pub fn u64_of(bytes: &[u8]) -> Result<(u64, &[u8]), Stop>
    ensures { Gives (λ x. (x.0, x.1.now)) result (u64_at bytes.now) }
{
    match bytes.split_first_chunk() {
        Some((front, rest)) => Ok((u64::from_be_bytes(*front), rest)),
        None => Err(Stop::Broken { left: 0 }),
    }
}

/// The 32 bytes of the digest at the front, and the bytes behind it.
#[tactic(auto, unfolding(crate::specs::Reading::fixed_at))]
pub fn hash_of(bytes: &[u8]) -> Result<(&[u8; 32], &[u8]), Stop>
    ensures { Gives (λ x. (x.0.now, x.1.now)) result (fixed_at 32 bytes.now) }
{
    match bytes.split_first_chunk() {
        Some((front, rest)) => Ok((front, rest)),
        None => Err(Stop::Broken { left: 0 }),
    }
}

/// The value that the byte at the front stands for, and the bytes behind it.
#[tactic(auto, unfolding(crate::specs::Reading::coded_at))]
pub fn coded<T: Coded>(bytes: &[u8]) -> Result<(T, &[u8]), Stop>
    ensures { Gives (λ x. (x.0, x.1.now)) result (coded_at T.known bytes.now) }
{
    match bytes {
        [] => Err(Stop::Broken { left: 0 }),
        [code, rest @ ..] => match T::of(*code) {
            Some(value) => Ok((value, rest)),
            None => Err(Stop::Broken {
                left: bytes.len() as u64,
            }),
        },
    }
}

/// So many bytes of a text, and the bytes behind them. Of bytes that are fewer the first that may not stand there counts.
#[tactic(auto, unfolding(crate::specs::Reading::chars_at))]
fn chars(alloc: Global, alphabet: Alphabet, count: u64, bytes: &[u8]) -> Result<(Text, &[u8]), Stop>
    ensures { Gives (λ x. (x.0, x.1.now)) result (chars_at alphabet count bytes.now) }
{
    let there = count.min(bytes.len() as u64) as usize;
    let (front, rest) = bytes.split_at(there);
    let good = good_front(alphabet, front);
    if good as u64 != count {
        return Err(Stop::Broken {
            left: (bytes.len() - good) as u64,
        });
    }
    Ok((Text::copy_of(alloc, front)?, rest))
}

/// How many bytes from the front on a text may have.
fn good_front(alphabet: Alphabet, bytes: &[u8]) -> usize
    ensures value { result ≡ prefix_len (is_allowed alphabet) bytes.now }
    ensures within { result ≤ length bytes.now }
{
    bytes.iter().take_while(|b| alphabet.has(**b)).count()
}

/// The text at the front, behind its length, and the bytes behind it.
#[tactic(auto, unfolding(crate::specs::Reading::text_at, crate::specs::Reading::and_then))]
pub fn text(alloc: Global, alphabet: Alphabet, bytes: &[u8]) -> Result<(Text, &[u8]), Stop>
    ensures { Gives (λ x. (x.0, x.1.now)) result (text_at alphabet bytes.now) }
{
    let (count, rest) = u64_of(bytes)?;
    chars(alloc, alphabet, count, rest)
}

ghost use Rattle.std.specs.Prelude.{◌≡◌, ◌↔◌, ◌⊎◌, [], ◌∷◌, not, position, IsTrue, IsOk, IfErr};
ghost use Rattle.grid_model.specs.Names.{is_name, is_name_byte, SpellsName};
ghost use Rattle.grid_model.specs.Places.{IsRefusedAt};

use thiserror::Error;

/// How many bytes a name has at most.
const LONGEST_NAME: usize = 255;

/// The bytes are no name. `at` is the length of their longest first part that begins a name.
#[derive(Clone, Copy, Debug, PartialEq, Eq, Error)]
#[error("no name, from byte {at} on")]
pub struct BadName {
    pub at: u64,
}

/// Whether the bytes are a name: 1 to 255 bytes, none below 0x20, none 0x7F, no `/`, and neither `.` nor `..`.
/// It takes no memory.
pub fn check_name(bytes: &[u8]) -> Result<(), BadName>
    ensures name { IsOk result ↔ IsTrue (is_name bytes.now) }
    ensures place { IfErr result (λ refused. IsRefusedAt SpellsName bytes.now refused.at) }
{
    let begun = first_odd_byte(bytes)
        .unwrap_or(bytes.len())
        .min(LONGEST_NAME);
    if begun < bytes.len() || is_reserved(bytes) {
        return Err(BadName { at: begun as u64 });
    }
    Ok(())
}

/// Where the first byte stands that no name has.
fn first_odd_byte(bytes: &[u8]) -> Option<usize>
    ensures { result ≡ position (λ b. not (is_name_byte b)) bytes.now }
{
    bytes.iter().position(|b| !is_name_byte(*b))
}

fn is_name_byte(byte: u8) -> bool
    ensures { result ≡ is_name_byte byte }
{
    byte >= 0x20 && byte != 0x7F && byte != b'/'
}

/// Whether the bytes are none at all, `.` or `..`.
fn is_reserved(bytes: &[u8]) -> bool
    ensures { IsTrue result ↔ (bytes.now ≡ []) ⊎ (bytes.now ≡ 0x2E ∷ []) ⊎ (bytes.now ≡ 0x2E ∷ 0x2E ∷ []) }
{
    matches!(bytes, [] | [b'.'] | [b'.', b'.'])
}

ghost use Rattle.std.specs.Prelude.{◌≡◌, IfOk, IfSome, IfNone, length, SomeIff};
ghost use Rattle.sha2.specs.Sha256.{sha256};
ghost use Rattle.grid_model.specs.Digests.{SpellsDigest, checksum};

use crate::Text;
use base64::DecodeAllocError;
use base64::engine::general_purpose::STANDARD;
use sha2::{Digest as Hash, Sha256};
use std::alloc::{AllocError, Global};
use std::marker::Model;

/// How a printed digest begins.
const PREFIX: &str = "sha2:";

/// The SHA-256 of some bytes (FIPS 180-4). Contracts see its 32 bytes.
#[derive(Clone, Copy, Debug, PartialEq, Eq)]
pub struct Digest {
    bytes: [u8; 32],
}

impl Model for Digest {
    ghost use Rattle.std.specs.Prelude.{ℕ, List};

    ghost Value = { List ℕ };

    ghost view = { λ d. d.bytes };

    ghost inverse = { λ v. record { bytes = v } };
}

impl Digest {
    /// The digest of these bytes.
    pub fn of(bytes: &[u8]) -> Digest
        ensures { result ≡ sha256 bytes.now }
    {
        let mut hasher = Sha256::new();
        hasher.update(bytes);
        Digest {
            bytes: hasher.finalize(),
        }
    }

    /// The digest with these bytes.
    pub fn from_bytes(bytes: [u8; 32]) -> Digest
        ensures { result ≡ bytes }
    {
        Digest { bytes }
    }

    /// Its bytes.
    pub fn to_bytes(self) -> [u8; 32]
        ensures { result ≡ self }
    {
        self.bytes
    }

    /// It is a digest.
    pub fn print(&self, alloc: Global) -> Result<Text, AllocError>
        ensures { IfOk result (λ text. text ≡ checksum self.now) }
    {
        let mut text = String::from_str(alloc, PREFIX)?;
        STANDARD.encode_string(&self.bytes, &mut text)?;
        Ok(Text::from_vec(text.into_bytes()))
    }

    /// The digest that is printed so, where the text is what `print` gives of one. Fails for want of memory alone.
    pub fn read(alloc: Global, text: &[u8]) -> Result<Option<Digest>, AllocError>
        ensures digest { IfOk result (λ read. IfSome read (λ digest. SpellsDigest text.now digest)) }
        ensures only { IfOk result (λ read. IfSome read (λ digest. (other : _) → SpellsDigest text.now other → other ≡ digest)) }
        ensures none { IfOk result (λ read. IfNone read ((digest : _) → ¬ SpellsDigest text.now digest)) }
    {
        let Some(symbols) = text.strip_prefix(PREFIX.as_bytes()) else {
            return Ok(None);
        };
        match STANDARD.decode(alloc, symbols) {
            Ok(bytes) => Ok(Digest::from_slice(bytes.as_slice())),
            Err(DecodeAllocError::DecodeError(_)) => Ok(None),
            Err(DecodeAllocError::OutOfMemory) => Err(AllocError),
        }
    }

    /// The digest with these bytes, where there are 32.
    fn from_slice(bytes: &[u8]) -> Option<Digest>
        ensures { SomeIff result (length bytes.now ≡ 32) bytes.now }
    {
        match <[u8; 32]>::try_from(bytes) {
            Ok(bytes) => Some(Digest { bytes }),
            Err(_) => None,
        }
    }
}

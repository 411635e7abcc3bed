ghost use Rattle.std.specs.Prelude.{◌≡◌, length, IsTrue};
ghost use Rattle.grid_model.specs.Deltas.{digest as digest_part, text};
ghost use Rattle.grid_model.specs.Names.{is_name};

use grid_model::Digest;

/// A name may stand as a text in the catalogue. It does nothing.
pub fn name_is_text(name: &[u8])
    requires { IsTrue (is_name name.now) }
    ensures { IsTrue (text name.now).fits }
{}

/// A digest may stand in the catalogue. It does nothing.
pub fn digest_is_kept(digest: Digest)
    ensures { IsTrue (digest_part digest).fits }
{
    let bytes = digest.to_bytes();
    bytes_are_kept(&bytes);
}

// 32 bytes may stand as a digest in the catalogue.
fn bytes_are_kept(bytes: &[u8])
    requires { length bytes.now ≡ 32 }
    ensures { IsTrue (digest_part bytes.now).fits }
{}

// What calls are on an empty grid.
ghost use Rattle.text_cases.specs.Known.{IsKnownCall, WantsPath};
ghost use Rattle.std.specs.Prelude.{◌≡◌, IsTrue};

use grid_model::{Call, Text};

/// What is known of a call.
pub(crate) enum KnownCall {
    /// It does nothing.
    Nop,
    /// It wants a path and is given an empty text.
    NoPath,
    /// It would have to be done.
    Other,
}

/// The text has just these bytes.
fn is_text(text: &Text, bytes: &[u8]) -> bool
    ensures { IsTrue result → text.now ≡ bytes.now }
{
    text.has_bytes(bytes)
}

/// A micro-service of this name wants one path.
fn wants_path(name: &Text) -> bool
    ensures { IsTrue result → WantsPath name.now }
{
    if is_text(name, b"msiCollCreate") {
        return true;
    }
    if is_text(name, b"msiRmColl") {
        return true;
    }
    is_text(name, b"msiDataObjUnlink")
}

/// What is known of the call.
pub(crate) fn look_up(call: &Call) -> KnownCall
    ensures { IsKnownCall call.now result }
{
    match call.args.as_slice() {
        [] => {
            if is_text(&call.name, b"nop") {
                return KnownCall::Nop;
            }
            KnownCall::Other
        }
        [path] => {
            if !is_text(path, b"") {
                return KnownCall::Other;
            }
            if wants_path(&call.name) {
                return KnownCall::NoPath;
            }
            KnownCall::Other
        }
        _ => KnownCall::Other,
    }
}

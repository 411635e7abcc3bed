//! What of a command may be kept while one of its calls runs.
ghost use Rattle.std.specs.Prelude.{◌≡◌, ◌^◌, ◌<◌, ◌∷◌, [], IsTrue, length};
ghost use Rattle.std.specs.List.{list_all};
ghost use Rattle.grid_model.specs.Deltas.{all_fit, call as call_parts, is_shown_byte, text as text_part};
ghost use Rattle.call_laws.specs.OneCall.{AreShort};

use grid_model::{Call, Calls, Text};
use service_run::Command;

/// Whether the call, and each of these, may be kept: its texts have no bytes that are not shown.
pub(crate) fn are_spelled(call: &Call, undo: &Calls) -> bool
    ensures call { IsTrue result → IsTrue (all_fit (call_parts call.now)) }
    ensures undo { IsTrue result → IsTrue (list_all (λ c. all_fit (call_parts c)) undo.now) }
{
    if !is_call(call) {
        return false;
    }
    are_calls(undo.as_slice())
}

/// The lists of a command, and of recoveries, are in memory. It does nothing.
pub(crate) fn are_short(command: &Command, left: &Calls)
    ensures { AreShort command.now left.now }
{
    is_size(command.marks.as_slice().len());
    is_size(command.passed.as_slice().len());
    is_size(left.as_slice().len());
}

// Whether each of the calls may be kept.
fn are_calls(calls: &[Call]) -> bool
    ensures { IsTrue result → IsTrue (list_all (λ c. all_fit (call_parts c)) calls.now) }
{
    for call in calls {
        if !is_call(call) {
            return false;
        }
    }
    true
}

// Whether the call may be kept.
fn is_call(call: &Call) -> bool
    ensures { IsTrue result → IsTrue (all_fit (call_parts call.now)) }
{
    let args = call.args.as_slice();
    is_size(args.len());
    if !is_text(&call.name) {
        return false;
    }
    are_texts(args)
}

// Whether each of the texts may be kept.
fn are_texts(words: &[Text]) -> bool
    ensures { IsTrue result → IsTrue (list_all (λ t. all_fit (text_part t ∷ [])) words.now) }
{
    for word in words {
        if !is_text(word) {
            return false;
        }
    }
    true
}

// Whether the text may be kept.
fn is_text(text: &Text) -> bool
    ensures { result ≡ (text_part text.now).fits }
{
    let bytes = text.as_slice();
    is_size(bytes.len());
    is_shown(bytes)
}

// Whether a text may have these bytes.
fn is_shown(bytes: &[u8]) -> bool
    ensures { result ≡ list_all is_shown_byte bytes.now }
{
    bytes.iter().all(|byte| *byte >= 0x20 && *byte != 0x7F)
}

// A number of items in memory is below 2^64. It does nothing.
fn is_size(len: usize)
    ensures { len < 2 ^ 64 }
{}

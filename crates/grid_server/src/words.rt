ghost use Rattle.std.specs.Prelude.{◌≡◌, ◌↔◌, [], ◌∷◌, IsTrue};
ghost use Rattle.grid_server.specs.Tasks.{IsWord, AsksForTask};
ghost use Rattle.grid_server.specs.Tasks as task;
ghost use Rattle.grid_server.specs.Asking.{IsAsked};

use grid_model::{Text, check_name};

/// What the words of the program ask for.
#[derive(Clone, Copy, Debug)]
pub(crate) enum Asked<'a> {
    Serve,
    Init { zone: &'a Text, admin: &'a Text },
    Nothing,
}

/// What the words ask for: `serve`, or `init` with a zone and an administrator, or nothing that is built.
pub(crate) fn read_words(words: &[Text]) -> Asked<'_>
    ensures { IsAsked words.now result }
{
    match words.len() {
        1 => {
            if is_serve(&words[0]) {
                return Asked::Serve;
            }
            Asked::Nothing
        }
        3 => {
            let zone = &words[1];
            let admin = &words[2];
            if is_init(&words[0], zone, admin) {
                return Asked::Init { zone, admin };
            }
            Asked::Nothing
        }
        _ => Asked::Nothing,
    }
}

// Whether the word asks to serve.
fn is_serve(word: &Text) -> bool
    ensures { IsTrue result ↔ AsksForTask (word.now ∷ []) task.serve }
{
    is_text(word, b"serve")
}

// Whether the words ask to begin a grid with this zone and this administrator.
fn is_init(word: &Text, zone: &Text, admin: &Text) -> bool
    ensures { IsTrue result ↔ AsksForTask (word.now ∷ zone.now ∷ admin.now ∷ []) (task.init zone.now admin.now) }
{
    if !is_text(word, b"init") {
        return false;
    }
    if !is_named(zone) {
        return false;
    }
    if !is_named(admin) {
        return false;
    }
    !is_text(admin, b"public")
}

fn is_text(word: &Text, text: &[u8]) -> bool
    ensures { IsTrue result ↔ (word.now ≡ text.now) }
{
    word.as_slice() == text
}

// Whether a word of the program is a name.
fn is_named(word: &Text) -> bool
    ensures { IsTrue result ↔ IsWord word.now }
{
    let bytes = word.as_slice();
    bytes.first() != Some(&b'-') && std::str::from_utf8(bytes).is_ok() && check_name(bytes).is_ok()
}

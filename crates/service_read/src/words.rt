ghost use Rattle.std.specs.Prelude.{◌≡◌, option_map};
ghost use Rattle.grid_model.specs.Services.{level_words, thing_words, word_in};
ghost use Rattle.service_read.specs.ReadServices.{thing_by_kind};

use grid_model::{ItemKind, Level, Text};

/// The level that the word stands for.
pub(crate) fn level_of(word: &Text) -> Option<Level>
    ensures { result ≡ word_in level_words word.now }
{
    match word.as_slice() {
        b"null" => Some(Level::Null),
        b"read" => Some(Level::Read),
        b"write" => Some(Level::Write),
        b"own" => Some(Level::Own),
        _ => None,
    }
}

/// The kind of things that the word stands for.
pub(crate) fn item_kind(word: &Text) -> Option<ItemKind>
    ensures { option_map thing_by_kind result ≡ word_in thing_words word.now }
{
    match word.as_slice() {
        b"-d" => Some(ItemKind::Object),
        b"-C" => Some(ItemKind::Collection),
        b"-R" => Some(ItemKind::Resource),
        b"-u" => Some(ItemKind::User),
        _ => None,
    }
}

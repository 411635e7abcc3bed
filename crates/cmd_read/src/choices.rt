ghost use Rattle.std.specs.Prelude.{◌≡◌, IfOk, IfSome, None, codes};
ghost use Rattle.grid_model.specs.Names.{same_text};
ghost use Rattle.cmd_read.specs.Table.{among, modes, levels, user_kinds, coordinating_kinds, states, kinds_with_path, kinds_with_name, named_resource};

use crate::words::is_word;
use grid_model::{ItemKind, Level, Mode, ResourceKind, Text, UserKind};
use std::alloc::{AllocError, Global};

pub(crate) fn mode_of(word: &Text) -> Option<Mode>
    ensures { result ≡ among modes word.now }
{
    match word.as_slice() {
        b"new" => Some(Mode::New),
        b"over" => Some(Mode::Over),
        _ => None,
    }
}

pub(crate) fn level_of(word: &Text) -> Option<Level>
    ensures { result ≡ among levels word.now }
{
    match word.as_slice() {
        b"null" => Some(Level::Null),
        b"read" => Some(Level::Read),
        b"write" => Some(Level::Write),
        b"own" => Some(Level::Own),
        _ => None,
    }
}

/// The kind of a new user.
pub(crate) fn user_kind_of(word: &Text) -> Option<UserKind>
    ensures { result ≡ among user_kinds word.now }
{
    match word.as_slice() {
        b"rodsadmin" => Some(UserKind::Rodsadmin),
        b"rodsuser" => Some(UserKind::Rodsuser),
        _ => None,
    }
}

/// Whether a new resource is to keep files itself.
pub(crate) fn is_storage(word: &Text) -> bool
    ensures { result ≡ same_text (codes "unixfilesystem") word.now }
{
    is_word(word, b"unixfilesystem")
}

/// The kind of a new resource that chooses among its children.
pub(crate) fn coordinating_kind_of(word: &Text) -> Option<ResourceKind>
    ensures { result ≡ among coordinating_kinds word.now }
{
    if is_word(word, b"passthru") {
        return Some(ResourceKind::Passthru);
    }
    if is_word(word, b"random") {
        return Some(ResourceKind::Random);
    }
    if is_word(word, b"replication") {
        return Some(ResourceKind::Replication);
    }
    None
}

/// Whether a resource is to be up.
pub(crate) fn state_of(word: &Text) -> Option<bool>
    ensures { result ≡ among states word.now }
{
    match word.as_slice() {
        b"up" => Some(true),
        b"down" => Some(false),
        _ => None,
    }
}

/// The kind of an item that is named by its path.
pub(crate) fn kind_with_path(word: &Text) -> Option<ItemKind>
    ensures kind { result ≡ among kinds_with_path word.now }
    ensures other { IfSome result (λ kind. among kinds_with_name word.now ≡ None) }
{
    match word.as_slice() {
        b"-d" => Some(ItemKind::Object),
        b"-C" => Some(ItemKind::Collection),
        _ => None,
    }
}

/// The kind of an item that is named by a name.
pub(crate) fn kind_with_name(word: &Text) -> Option<ItemKind>
    ensures { result ≡ among kinds_with_name word.now }
{
    match word.as_slice() {
        b"-R" => Some(ItemKind::Resource),
        b"-u" => Some(ItemKind::User),
        _ => None,
    }
}

/// The resource that a get asks for: `-` asks for none. Fails for want of memory alone.
pub(crate) fn resource_of(alloc: Global, word: &Text) -> Result<Option<Text>, AllocError>
    ensures { IfOk result (λ resource. named_resource word.now ≡ resource) }
{
    match word.as_slice() {
        b"-" => Ok(None),
        _ => Ok(Some(Text::copy_of(alloc, word.as_slice())?)),
    }
}

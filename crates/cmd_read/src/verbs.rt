ghost use Rattle.std.specs.Prelude.{◌≡◌, ◌≢◌, ℕ, [], ◌∷◌, IfOk, IfErr};
ghost use Rattle.grid_model.specs.Names.{Text as Word};
ghost use Rattle.grid_model.specs.declared.grid.ItemKind.{ItemKind};
ghost use Rattle.cmd_read.specs.Table.{way, ways_to_make, ways_to_triples, ways_to_items, a_text, a_new_name, a_number, a_path};
ghost use Rattle.cmd_read.specs.Table.{a_resource_or_none, a_mode, a_level, a_user_kind, a_state};
ghost use Rattle.cmd_read.specs.Reading.{AsksFor, Refuses};
ghost use Rattle.grid_model.specs.declared.requests.Verb.{Verb};
ghost use Rattle.grid_model.specs.declared.requests.Verb.TheVariants.{MkUser, ModResc, ChMod, Put, Open, Get};
ghost use Rattle.cmd_read.specs.declared.error.ReadError.TheVariants.{Memory};

use crate::ReadError;
use crate::choices::{
    coordinating_kind_of, is_storage, kind_with_name, kind_with_path, level_of, mode_of,
    resource_of, state_of, user_kind_of,
};
use crate::number::number_of;
use crate::words::{bad_word, front, new_name_of, no_more, path_of, path_text_of, text_of};
use grid_model::{ItemKind, Text, Verb};
use std::alloc::Global;

/// A new user: a new name and a kind.
pub(crate) fn read_mkuser(alloc: Global, words: &[Text]) -> Result<Verb, ReadError>
    ensures verb { IfOk result (λ verb. AsksFor (way (a_new_name ∷ a_user_kind ∷ []) MkUser ∷ []) words.now verb) }
    ensures refused { IfErr result (λ why. why ≢ Memory → Refuses (way (a_new_name ∷ a_user_kind ∷ []) MkUser ∷ []) words.now why) }
{
    let (name, rest) = front(words, 2)?;
    let (kind, rest) = front(rest, 3)?;
    let kind = user_kind_of(kind).ok_or(bad_word(3))?;
    no_more(rest, 4)?;
    let name = new_name_of(alloc, name)?;
    Ok(Verb::MkUser { name, kind })
}

/// A new resource: a new name and a kind, with a slot where it keeps files itself.
pub(crate) fn read_mkresc(alloc: Global, words: &[Text]) -> Result<Verb, ReadError>
    ensures verb { IfOk result (λ verb. AsksFor ways_to_make words.now verb) }
    ensures refused { IfErr result (λ why. why ≢ Memory → Refuses ways_to_make words.now why) }
{
    let (name, rest) = front(words, 2)?;
    let (kind, rest) = front(rest, 3)?;
    if is_storage(kind) {
        let (slot, rest) = front(rest, 4)?;
        let slot = number_of(slot).ok_or(bad_word(4))?;
        no_more(rest, 5)?;
        let name = new_name_of(alloc, name)?;
        return Ok(Verb::MkStorage { name, slot });
    }
    let kind = coordinating_kind_of(kind).ok_or(bad_word(3))?;
    no_more(rest, 4)?;
    let name = new_name_of(alloc, name)?;
    Ok(Verb::MkCoordinating { name, kind })
}

/// A resource and its state.
pub(crate) fn read_modresc(alloc: Global, words: &[Text]) -> Result<Verb, ReadError>
    ensures verb { IfOk result (λ verb. AsksFor (way (a_text ∷ a_state ∷ []) ModResc ∷ []) words.now verb) }
    ensures refused { IfErr result (λ why. why ≢ Memory → Refuses (way (a_text ∷ a_state ∷ []) ModResc ∷ []) words.now why) }
{
    let (name, rest) = front(words, 2)?;
    let (state, rest) = front(rest, 3)?;
    let up = state_of(state).ok_or(bad_word(3))?;
    no_more(rest, 4)?;
    let name = text_of(alloc, name)?;
    Ok(Verb::ModResc { name, up })
}

/// A level, the name of a user or a group, and a path.
pub(crate) fn read_chmod(alloc: Global, words: &[Text]) -> Result<Verb, ReadError>
    ensures verb { IfOk result (λ verb. AsksFor (way (a_level ∷ a_text ∷ a_path ∷ []) ChMod ∷ []) words.now verb) }
    ensures refused { IfErr result (λ why. why ≢ Memory → Refuses (way (a_level ∷ a_text ∷ a_path ∷ []) ChMod ∷ []) words.now why) }
{
    let (level, rest) = front(words, 2)?;
    let level = level_of(level).ok_or(bad_word(2))?;
    let (name, rest) = front(rest, 3)?;
    let (path, rest) = front(rest, 4)?;
    no_more(rest, 5)?;
    let path = path_of(alloc, path)?;
    let name = text_of(alloc, name)?;
    Ok(Verb::ChMod { level, name, path })
}

/// An object: a path, a resource, a mode and a count.
pub(crate) fn read_put(alloc: Global, words: &[Text]) -> Result<Verb, ReadError>
    ensures verb { IfOk result (λ verb. AsksFor (way (a_path ∷ a_text ∷ a_mode ∷ a_number ∷ []) Put ∷ []) words.now verb) }
    ensures refused { IfErr result (λ why. why ≢ Memory → Refuses (way (a_path ∷ a_text ∷ a_mode ∷ a_number ∷ []) Put ∷ []) words.now why) }
{
    let (path, rest) = front(words, 2)?;
    let (resource, rest) = front(rest, 3)?;
    let (mode, rest) = front(rest, 4)?;
    let mode = mode_of(mode).ok_or(bad_word(4))?;
    let (count, rest) = front(rest, 5)?;
    let count = number_of(count).ok_or(bad_word(5))?;
    no_more(rest, 6)?;
    let path = path_of(alloc, path)?;
    let resource = text_of(alloc, resource)?;
    Ok(Verb::Put {
        path,
        resource,
        mode,
        count,
    })
}

/// An upload: a path, a resource and a mode.
pub(crate) fn read_open(alloc: Global, words: &[Text]) -> Result<Verb, ReadError>
    ensures verb { IfOk result (λ verb. AsksFor (way (a_path ∷ a_text ∷ a_mode ∷ []) Open ∷ []) words.now verb) }
    ensures refused { IfErr result (λ why. why ≢ Memory → Refuses (way (a_path ∷ a_text ∷ a_mode ∷ []) Open ∷ []) words.now why) }
{
    let (path, rest) = front(words, 2)?;
    let (resource, rest) = front(rest, 3)?;
    let (mode, rest) = front(rest, 4)?;
    let mode = mode_of(mode).ok_or(bad_word(4))?;
    no_more(rest, 5)?;
    let path = path_of(alloc, path)?;
    let resource = text_of(alloc, resource)?;
    Ok(Verb::Open {
        path,
        resource,
        mode,
    })
}

/// A path, and a resource or none.
pub(crate) fn read_get(alloc: Global, words: &[Text]) -> Result<Verb, ReadError>
    ensures verb { IfOk result (λ verb. AsksFor (way (a_path ∷ a_resource_or_none ∷ []) Get ∷ []) words.now verb) }
    ensures refused { IfErr result (λ why. why ≢ Memory → Refuses (way (a_path ∷ a_resource_or_none ∷ []) Get ∷ []) words.now why) }
{
    let (path, rest) = front(words, 2)?;
    let (resource, rest) = front(rest, 3)?;
    no_more(rest, 4)?;
    let path = path_of(alloc, path)?;
    let resource = resource_of(alloc, resource)?;
    Ok(Verb::Get { path, resource })
}

/// An item and what is said of it.
#[derive(Drop)]
pub(crate) struct Triple {
    pub(crate) item: ItemKind,
    pub(crate) name: Text,
    pub(crate) attribute: Text,
    pub(crate) value: Text,
    pub(crate) unit: Text,
}

/// An item, by its path or its name, and three texts.
pub(crate) fn read_triple(alloc: Global, words: &[Text]) -> Result<Triple, ReadError>
    ensures triple { IfOk result (λ t. (verb : ItemKind → Word → Word → Word → Word → Verb)
        → AsksFor (ways_to_triples verb) words.now (verb t.item t.name t.attribute t.value t.unit)) }
    ensures refused { IfErr result (λ why. why ≢ Memory → (verb : ItemKind → Word → Word → Word → Word → Verb) → Refuses (ways_to_triples verb) words.now why) }
{
    let (item, rest) = front(words, 2)?;
    if let Some(item) = kind_with_path(item) {
        let (name, rest) = front(rest, 3)?;
        let (attribute, rest) = front(rest, 4)?;
        let (value, rest) = front(rest, 5)?;
        let (unit, rest) = front(rest, 6)?;
        no_more(rest, 7)?;
        let name = path_text_of(alloc, name)?;
        let attribute = text_of(alloc, attribute)?;
        let value = text_of(alloc, value)?;
        let unit = text_of(alloc, unit)?;
        return Ok(Triple {
            item,
            name,
            attribute,
            value,
            unit,
        });
    }
    let item = kind_with_name(item).ok_or(bad_word(2))?;
    let (name, rest) = front(rest, 3)?;
    let (attribute, rest) = front(rest, 4)?;
    let (value, rest) = front(rest, 5)?;
    let (unit, rest) = front(rest, 6)?;
    no_more(rest, 7)?;
    let name = text_of(alloc, name)?;
    let attribute = text_of(alloc, attribute)?;
    let value = text_of(alloc, value)?;
    let unit = text_of(alloc, unit)?;
    Ok(Triple {
        item,
        name,
        attribute,
        value,
        unit,
    })
}

/// An item, by its path or its name.
pub(crate) fn read_lsmeta(alloc: Global, words: &[Text]) -> Result<Verb, ReadError>
    ensures verb { IfOk result (λ verb. AsksFor ways_to_items words.now verb) }
    ensures refused { IfErr result (λ why. why ≢ Memory → Refuses ways_to_items words.now why) }
{
    let (item, rest) = front(words, 2)?;
    if let Some(item) = kind_with_path(item) {
        let (name, rest) = front(rest, 3)?;
        no_more(rest, 4)?;
        let name = path_text_of(alloc, name)?;
        return Ok(Verb::LsMeta { item, name });
    }
    let item = kind_with_name(item).ok_or(bad_word(2))?;
    let (name, rest) = front(rest, 3)?;
    no_more(rest, 4)?;
    let name = text_of(alloc, name)?;
    Ok(Verb::LsMeta { item, name })
}

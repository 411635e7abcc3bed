ghost use Rattle.std.specs.Prelude.{◌≡◌, ◌≢◌, IfOk, IfErr};
ghost use Rattle.cmd_read.specs.Orders.{NamesThing};
ghost use Rattle.grid_model.specs.Grid.{Thing};
ghost use Rattle.grid_model.specs.Names.{SpellsPath};
ghost use Rattle.grid_model.specs.Places.{IsRefusedAt};
ghost use Rattle.grid_model.specs.declared.path.PathError.TheVariants.{BadPath, Memory};
ghost use Rattle.plan_meta.specs.Things.{thing_by};

use grid_model::{ItemKind, Path, PathError, Text};
use std::alloc::Global;

/// What metadata is of: an object or a collection by its path, or a resource, a user or a group by its name. It need not be
/// there.
#[derive(Debug, Drop)]
pub enum ThingName {
    ObjectAt(Path),
    CollectionAt(Path),
    ResourceNamed(Text),
    UserNamed(Text),
}

/// The thing of this kind by the text of its path or its name. A text that is no path names no object and no collection, and is
/// refused with `BadPath`; any text may be the name of a resource or a user.
pub fn thing_named(alloc: Global, kind: ItemKind, name: &Text) -> Result<ThingName, PathError>
    ensures named { IfOk result (λ thing. NamesThing kind name.now (thing_by thing)) }
    ensures alone { IfOk result (λ thing. (other : Thing) → NamesThing kind name.now other → other ≡ thing_by thing) }
    ensures none { IfErr result (λ error. error ≢ Memory → (thing : Thing) → NamesThing kind name.now thing → ⊥) }
    ensures place { IfErr result (λ error. (at : _) → error ≡ BadPath at → IsRefusedAt SpellsPath name.now at) }
{
    match kind {
        ItemKind::Object => match Path::parse(alloc, name.as_slice()) {
            Err(error) => Err(error),
            Ok(path) => Ok(ThingName::ObjectAt(path)),
        },
        ItemKind::Collection => match Path::parse(alloc, name.as_slice()) {
            Err(error) => Err(error),
            Ok(path) => Ok(ThingName::CollectionAt(path)),
        },
        ItemKind::Resource => match Text::copy_of(alloc, name.as_slice()) {
            Err(_) => Err(PathError::Memory),
            Ok(name) => Ok(ThingName::ResourceNamed(name)),
        },
        ItemKind::User => match Text::copy_of(alloc, name.as_slice()) {
            Err(_) => Err(PathError::Memory),
            Ok(name) => Ok(ThingName::UserNamed(name)),
        },
    }
}

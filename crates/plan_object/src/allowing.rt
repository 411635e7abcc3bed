ghost use Rattle.std.specs.Prelude.{IsTrue};
ghost use Rattle.grid_model.specs.Applying.{IsMade, is_user};
ghost use Rattle.grid_model.specs.RowGrids.{user_name};
ghost use Rattle.plan_object.specs.Allowing.{FindsObject};

use grid_model::{Item, Level, Path, Refusal};
use grid_tables::Tables;
use plan_base::may_at;

/// The id of the object at the path, where the user has this level; or why what asks for it is refused. It takes no memory.
pub(crate) fn object_for(
    tables: &Tables,
    user: u32,
    path: &Path,
    level: Level,
) -> Result<u64, Refusal>
    requires made { IsMade tables.now }
    requires user { IsTrue (is_user tables.now user) }
    ensures { FindsObject tables.now (user_name tables.now user) path.now level result }
{
    match tables.object_at(path) {
        None => Err(Refusal::NoObject),
        Some(id) => {
            if !may_at(tables, user, Item::Object(id), level) {
                return Err(Refusal::NoAccess);
            }
            Ok(id)
        }
    }
}

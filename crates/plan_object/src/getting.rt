ghost use Rattle.std.specs.Prelude.{◌≡◌, IsTrue, IfSome, Some, option_map};
ghost use Rattle.std.specs.Option.{option_copied};
ghost use Rattle.grid_model.specs.Applying.{IsMade, is_user};
ghost use Rattle.grid_model.specs.RowGrids.{resource_name, user_name};
ghost use Rattle.grid_model.specs.Rows.{has_resource, object as object_row};
ghost use Rattle.plan_object.specs.Sending.{FindsFile, PlansGet};

use grid_model::{Item, Level, ObjectRow, OldFile, Path, Refusal, Text};
use grid_tables::Tables;
use grid_tree::first_candidate;
use plan_base::may_at;

/// The file that a get of the object at the path reads, from the asked resource where that has a replica that can be read;
/// or why the get is refused. It takes no memory.
pub fn plan_get(
    tables: &Tables,
    user: u32,
    path: &Path,
    asked: Option<&Text>,
) -> Result<OldFile, Refusal>
    requires made { IsMade tables.now }
    requires user { IsTrue (is_user tables.now user) }
    ensures { PlansGet tables.now (user_name tables.now user) path.now (option_copied asked.entry) result }
{
    match tables.object_at(path) {
        None => Err(Refusal::NoObject),
        Some(id) => match tables.object(id) {
            None => unreachable!(),
            Some(object) => {
                if !may_at(tables, user, Item::Object(id), Level::Read) {
                    return Err(Refusal::NoAccess);
                }
                match asked {
                    None => first_file(tables, object, None),
                    Some(name) => match tables.resource_named(name) {
                        None => Err(Refusal::NoResource),
                        Some(resource) => first_file(tables, object, Some(resource)),
                    },
                }
            }
        },
    }
}

/// The file of the first replica of an object that can be read, on the asked resource where that has one.
pub(crate) fn first_file(
    tables: &Tables,
    object: &ObjectRow,
    asked: Option<u32>,
) -> Result<OldFile, Refusal>
    requires made { IsMade tables.now }
    requires there { object_row tables.now object.now.id ≡ Some object.now }
    requires asked { IfSome asked (λ id. IsTrue (has_resource tables.now id)) }
    ensures { FindsFile tables.now object.now (option_map (resource_name tables.now) asked) result }
{
    match first_candidate(tables, object.id, asked) {
        None => Err(Refusal::NoReplica),
        Some(replica) => match tables.resource(replica.leaf) {
            None => unreachable!(),
            Some(leaf) => Ok(OldFile {
                slot: leaf.slot,
                name: replica.vault,
                number: replica.number,
                size: object.size,
                digest: object.digest,
            }),
        },
    }
}

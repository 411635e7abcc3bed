ghost use Rattle.std.specs.Prelude.{◌≡◌, ◌∷◌, [], ◌++◌, IsTrue, IfOk};
ghost use Rattle.std.specs.List.{list_all};
ghost use Rattle.grid_journal.specs.Journal.{AreSpelled, can_be_kept};
ghost use Rattle.grid_model.specs.Applying.{IsMade, is_user};
ghost use Rattle.grid_model.specs.Operations.Table.{rmdir};
ghost use Rattle.grid_model.specs.RowGrids.{user_name};
ghost use Rattle.grid_model.specs.declared.deltas.Delta.TheVariants as delta;
ghost use Rattle.grid_model.specs.declared.grid.ItemKind.TheVariants as kind;
ghost use Rattle.plan_base.specs.Forgetting.{forgotten};
ghost use Rattle.plan_base.specs.Plans.{PlansChange};

use grid_model::{Delta, Deltas, Item, Level, Path, PlanError, Refusal};
use grid_tables::Tables;
use plan_base::{is_fixed, may_at, push_forgotten};
use std::alloc::{AllocError, Global};

/// Plans that the collection at the path, which holds nothing, goes with its metadata and its access (`rmdir`).
pub fn plan_rmdir(
    alloc: Global,
    tables: &Tables,
    user: u32,
    path: &Path,
) -> Result<Deltas, PlanError>
    requires made { IsMade tables.now }
    requires spelled { AreSpelled tables.now.triples }
    requires user { IsTrue (is_user tables.now user) }
    ensures { PlansChange tables.now (user_name tables.now user) (rmdir path.now) result }
{
    let id = match tables.collection_at(path) {
        None => return Err(PlanError::Refused(Refusal::NoCollection)),
        Some(id) => id,
    };
    if !may_at(tables, user, Item::Collection(id), Level::Own) {
        return Err(PlanError::Refused(Refusal::NoAccess));
    }
    if is_fixed(tables, path) {
        return Err(PlanError::Refused(Refusal::Fixed));
    }
    if !tables.is_empty_collection(id) {
        return Err(PlanError::Refused(Refusal::NotEmpty));
    }
    match without_collection(alloc, tables, id) {
        Err(_) => Err(PlanError::Memory),
        Ok(deltas) => Ok(deltas),
    }
}

// The changes that take the collection with this id away. Fails for want of memory alone.
fn without_collection(alloc: Global, tables: &Tables, id: u64) -> Result<Deltas, AllocError>
    requires made { IsMade tables.now }
    requires spelled { AreSpelled tables.now.triples }
    ensures changes { IfOk result (λ deltas. deltas ≡ forgotten tables.now kind.Collection id ++ delta.NoCollection id ∷ []) }
    ensures spelled { IfOk result (λ deltas. IsTrue (list_all can_be_kept deltas)) }
{
    let mut deltas = Vec::new(alloc);
    push_forgotten(alloc, tables, &mut deltas, Item::Collection(id))?;
    deltas.push(Delta::NoCollection { id })?;
    Ok(Deltas::from_vec(deltas))
}

ghost use Rattle.std.specs.Prelude.{◌≡◌, ◌∷◌, [], ◌++◌, IsTrue, IfOk};
ghost use Rattle.std.specs.List.{list_all};
ghost use Rattle.file_laws.specs.Rewriting.{replicas_dropped};
ghost use Rattle.grid_journal.specs.Journal.{AreSpelled, can_be_kept};
ghost use Rattle.grid_model.specs.Applying.{IsMade, is_user};
ghost use Rattle.grid_model.specs.Operations.Table.{rm};
ghost use Rattle.grid_model.specs.RowGrids.{user_name};
ghost use Rattle.grid_model.specs.Rows.{replicas_of};
ghost use Rattle.grid_model.specs.declared.deltas.Delta.TheVariants as delta;
ghost use Rattle.grid_model.specs.declared.grid.ItemKind.TheVariants as kind;
ghost use Rattle.plan_base.specs.Forgetting.{forgotten};
ghost use Rattle.plan_drop.specs.Stored.{stored_rows};
ghost use Rattle.plan_base.specs.Plans.{PlansChange};

use crate::replicas::push_dropped;
use grid_model::{Delta, Deltas, Item, Level, Path, PlanError, Refusal};
use grid_tables::Tables;
use plan_base::{may_at, push_forgotten};
use std::alloc::{AllocError, Global};

/// Plans that the object at the path goes with its replicas, its metadata and its access (`rm`).
pub fn plan_rm(alloc: Global, tables: &Tables, user: u32, path: &Path) -> Result<Deltas, PlanError>
    requires made { IsMade tables.now }
    requires spelled { AreSpelled tables.now.triples }
    requires user { IsTrue (is_user tables.now user) }
    ensures { PlansChange tables.now (user_name tables.now user) (rm path.now) result }
{
    let id = match tables.object_at(path) {
        None => return Err(PlanError::Refused(Refusal::NoObject)),
        Some(id) => id,
    };
    if !may_at(tables, user, Item::Object(id), Level::Own) {
        return Err(PlanError::Refused(Refusal::NoAccess));
    }
    match without_object(alloc, tables, id) {
        Err(_) => Err(PlanError::Memory),
        Ok(deltas) => Ok(deltas),
    }
}

// The changes that take the object with this id away. Fails for want of memory alone.
fn without_object(alloc: Global, tables: &Tables, id: u64) -> Result<Deltas, AllocError>
    requires made { IsMade tables.now }
    requires spelled { AreSpelled tables.now.triples }
    ensures changes { IfOk result (λ list. list
        ≡ (replicas_dropped (stored_rows tables.now (replicas_of tables.now id)) ++ forgotten tables.now kind.Object id) ++ delta.NoObject id ∷ []) }
    ensures spelled { IfOk result (λ list. IsTrue (list_all can_be_kept list)) }
{
    let rows = tables.replicas_of(id);
    let mut deltas = Vec::new(alloc);
    push_dropped(tables, rows, &mut deltas)?;
    push_forgotten(alloc, tables, &mut deltas, Item::Object(id))?;
    deltas.push(no_object(id))?;
    Ok(Deltas::from_vec(deltas))
}

// The change that takes an object away.
fn no_object(id: u64) -> Delta
    ensures change { result ≡ Delta.NoObject id }
    ensures spelled { IsTrue (can_be_kept result) }
{
    Delta::NoObject { id }
}

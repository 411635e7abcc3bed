ghost use Rattle.std.specs.Prelude.{◌≡◌, IsTrue, IfOk};
ghost use Rattle.std.specs.List.{AllByRecursion, list_all};
ghost use Rattle.grid_journal.specs.Journal.{AreSpelled};
ghost use Rattle.grid_model.specs.Applying.{IsMade, is_user};
ghost use Rattle.grid_model.specs.Names.{path_cmp};
ghost use Rattle.grid_model.specs.QueryRows.{query_rows};
ghost use Rattle.grid_model.specs.RowGrids.{grid_of, user_name};
ghost use Rattle.grid_model.specs.Rows.{has_user};
ghost use Rattle.grid_model.specs.Writable.{is_word};
ghost use Rattle.query_run.specs.Parts.{AreWords};
ghost use Rattle.query_run.specs.Unsorted.{HasMembers, unsorted_rows};

use crate::items::{push_collections, push_objects};
use crate::narrowing::{collections_to_try, objects_to_try};
use crate::stages::names_collections_alone;
use grid_model::{Query, Rows, Texts};
use grid_tables::Tables;
use std::alloc::{AllocError, Global};
use std::cmp::Ordering;

/// The rows that the query shows the user, who is no group: the columns of each combination that the user may read and that meets
/// all conditions, by the first column, then the second, and so on, each row once. It goes by the objects that a condition with `=`
/// on an attribute or on a collection leaves, or by collections where the query names no other table, and by each object's own
/// replicas and triples. Fails for want of memory alone.
pub fn query_rows(
    alloc: Global,
    tables: &Tables,
    user: u32,
    query: &Query,
) -> Result<Rows, AllocError>
    requires made { IsMade tables.now }
    requires user { IsTrue (is_user tables.now user) }
    requires spelled { AreSpelled tables.now.triples }
    ensures rows { IfOk result (λ rows. rows ≡ query_rows (grid_of tables.now) (user_name tables.now user) query.now) }
    ensures words { IfOk result (λ rows. IsTrue (list_all (list_all is_word) rows)) }
{
    let mut rows = unsorted_rows(alloc, tables, user, query)?;
    rows.sort_by(|one, other| order(one, other))?;
    rows.dedup();
    Ok(Rows::from_vec(rows))
}

// Its rows in some order, each at least once.
fn unsorted_rows(
    alloc: Global,
    tables: &Tables,
    user: u32,
    query: &Query,
) -> Result<Vec<Texts>, AllocError>
    requires made { IsMade tables.now }
    requires user { IsTrue (has_user tables.now user) }
    requires words { AllByRecursion AreWords tables.now.triples }
    ensures rows { IfOk result (λ rows. HasMembers rows.items (unsorted_rows (grid_of tables.now) (user_name tables.now user) query.now)) }
    ensures words { IfOk result (λ rows. IsTrue (list_all (list_all is_word) rows.items)) }
{
    let mut rows = Vec::new(alloc);
    if names_collections_alone(query) {
        let ids = collections_to_try(alloc, tables, query)?;
        push_collections(alloc, tables, user, query, ids.as_slice(), &mut rows)?;
        return Ok(rows);
    }
    let ids = objects_to_try(alloc, tables, query)?;
    push_objects(alloc, tables, user, query, ids.as_slice(), &mut rows)?;
    Ok(rows)
}

// How a row stands to another: by the first text in which they differ.
fn order(one: &Texts, other: &Texts) -> Ordering
    ensures { result ≡ path_cmp one.now other.now }
{
    one.as_slice().cmp(other.as_slice())
}

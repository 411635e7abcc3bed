ghost use Rattle.std.specs.Prelude.{◌≡◌};
ghost use Rattle.std.specs.List.{list_all, list_any};
ghost use Rattle.grid_model.specs.QueryRows.{columns_named, is_of_collection, is_of_replica, is_of_triple};
ghost use Rattle.query_run.specs.Stages.{is_of_stage};

use grid_model::{Column, Cond, Query};

/// From when on a condition can be tested, by the table that its column is of.
#[derive(Clone, Copy, Debug)]
pub(crate) enum Stage {
    /// Once the object, or the collection, is chosen.
    OfItem,
    /// Once a replica of the object is chosen.
    OfReplica,
    /// Once a triple of the object is chosen.
    OfTriple,
}

/// Whether it is a column of the table of replicas.
pub(crate) fn is_of_replica(column: Column) -> bool
    ensures { result ≡ is_of_replica column }
{
    matches!(
        column,
        Column::DataSize
            | Column::DataReplNum
            | Column::DataReplStatus
            | Column::DataRescHier
            | Column::DataChecksum
    )
}

/// Whether it is a column of the table of triples.
pub(crate) fn is_of_triple(column: Column) -> bool
    ensures { result ≡ is_of_triple column }
{
    matches!(
        column,
        Column::MetaDataAttrName | Column::MetaDataAttrValue | Column::MetaDataAttrUnits
    )
}

/// Whether it is the column of the table of collections.
pub(crate) fn is_of_collection(column: Column) -> bool
    ensures { result ≡ is_of_collection column }
{
    matches!(column, Column::CollName)
}

/// Whether a condition on the column is tested at this stage.
pub(crate) fn is_of_stage(stage: Stage, column: Column) -> bool
    ensures { result ≡ is_of_stage stage column }
{
    match stage {
        Stage::OfItem => !is_of_replica(column) && !is_of_triple(column),
        Stage::OfReplica => is_of_replica(column),
        Stage::OfTriple => is_of_triple(column),
    }
}

// Whether one of the columns is of this stage.
fn any_column(stage: Stage, columns: &[Column]) -> bool
    ensures { result ≡ list_any (is_of_stage stage) columns.now }
{
    columns.iter().any(|column| is_of_stage(stage, *column))
}

// Whether one of the conditions is on a column of this stage.
fn any_cond(stage: Stage, conds: &[Cond]) -> bool
    ensures { result ≡ list_any (λ cond. is_of_stage stage cond.column) conds.now }
{
    conds.iter().any(|cond| is_of_stage(stage, cond.column))
}

/// Whether the query names a column of this stage.
pub(crate) fn names_stage(query: &Query, stage: Stage) -> bool
    ensures { result ≡ list_any (is_of_stage stage) (columns_named query.now) }
{
    any_column(stage, query.columns.as_slice()) || any_cond(stage, query.conds.as_slice())
}

// Whether these are all the column of collections.
fn all_columns(columns: &[Column]) -> bool
    ensures { result ≡ list_all is_of_collection columns.now }
{
    columns.iter().all(|column| is_of_collection(*column))
}

// Whether these are all conditions on the column of collections.
fn all_conds(conds: &[Cond]) -> bool
    ensures { result ≡ list_all (λ cond. is_of_collection cond.column) conds.now }
{
    conds.iter().all(|cond| is_of_collection(cond.column))
}

/// Whether the query names no table but that of collections.
pub(crate) fn names_collections_alone(query: &Query) -> bool
    ensures { result ≡ list_all is_of_collection (columns_named query.now) }
{
    all_columns(query.columns.as_slice()) && all_conds(query.conds.as_slice())
}

use grid_model::{ObjectRow, Path, ReplicaRow, TripleRow};

/// What a row of a query is made of: a collection, or an object in it, and where they are asked for, a replica and a triple of
/// the object.
#[derive(Clone, Copy)]
pub(crate) struct Parts<'p, 't> {
    /// The path of the collection.
    pub(crate) collection: &'p Path,
    pub(crate) object: Option<&'t ObjectRow>,
    pub(crate) replica: Option<&'t ReplicaRow>,
    pub(crate) triple: Option<&'t TripleRow>,
}

ghost use Rattle.std.specs.Prelude.{◌≡◌, ◌&&◌, not, filter, Ok, Err, IsOk, OnOk, OnErr, IfErr};
ghost use Rattle.std.specs.Ordering.{eq_by_cmp};
ghost use Rattle.grid_model.specs.Applying.{apply, has_triple};
ghost use Rattle.grid_model.specs.Rows.{item_there, triple_cmp};
ghost use Rattle.grid_tables.specs.declared.error.TableError.TheVariants.{BadDelta, Memory};

use crate::{TableError, Tables};
use grid_model::{Delta, ItemKind, TripleRow};

impl Tables {
    // Whether there is an item of this kind with this id.
    pub(crate) fn is_item_there(&self, kind: ItemKind, id: u64) -> bool
        ensures { result ≡ item_there self.now kind id }
    {
        match kind {
            ItemKind::Object => self.has_object(id),
            ItemKind::Collection => self.has_collection(id),
            ItemKind::Resource => self.has_resource(id),
            ItemKind::User => self.has_user(id),
        }
    }

    // Whether this is among the metadata.
    fn has_triple(&self, row: &TripleRow) -> bool
        ensures { result ≡ has_triple self.now row.now }
    {
        self.triples.has(row)
    }

    // Whether its item is there and it is not yet said of it.
    fn may_add_triple(&self, row: &TripleRow) -> bool
        ensures { result ≡ item_there self.now row.now.kind row.now.id && not (has_triple self.now row.now) }
    {
        self.is_item_there(row.kind, row.id) && !self.has_triple(row)
    }

    // Whether its item is there and it is said of it.
    fn may_drop_triple(&self, row: &TripleRow) -> bool
        ensures { result ≡ item_there self.now row.now.kind row.now.id && has_triple self.now row.now }
    {
        self.is_item_there(row.kind, row.id) && self.has_triple(row)
    }

    /// Applies delta 11.
    pub(crate) fn apply_triple(&mut self, row: TripleRow) -> Result<(), TableError>
        ensures applied { OnOk result (apply self.old (Delta.Triple row) ≡ Ok self.new) }
        ensures refused { IfErr result (λ error. (cause : _) → error ≡ BadDelta cause → apply self.old (Delta.Triple row) ≡ Err cause) }
        ensures memory { result ≡ Err Memory → IsOk (apply self.old (Delta.Triple row)) }
        ensures unchanged { OnErr result (self.new ≡ self.old) }
    {
        if !self.may_add_triple(&row) {
            return Err(TableError::BadDelta { cause: 11 });
        }
        self.triples.put_new(row)?;
        Ok(())
    }

    /// Applies delta 12.
    pub(crate) fn apply_no_triple(&mut self, row: TripleRow) -> Result<(), TableError>
        ensures applied { OnOk result (apply self.old (Delta.NoTriple row) ≡ Ok self.new) }
        ensures refused { IfErr result (λ error. (cause : _) → error ≡ BadDelta cause → apply self.old (Delta.NoTriple row) ≡ Err cause) }
        ensures memory { result ≡ Err Memory → IsOk (apply self.old (Delta.NoTriple row)) }
        ensures unchanged { OnErr result (self.new ≡ self.old) }
    {
        if !self.may_drop_triple(&row) {
            return Err(TableError::BadDelta { cause: 12 });
        }
        self.triples.remove_triple(&row);
        Ok(())
    }
}

ghost use Rattle.std.specs.Prelude.{◌≡◌, not, filter, Ok, Err, IsOk, OnOk, OnErr, IfErr};
ghost use Rattle.std.specs.List.{list_any};
ghost use Rattle.grid_model.specs.Applying.{apply, is_told_of, entry_fits, is_entry, has_entry};
ghost use Rattle.grid_model.specs.Rows.{same_item};
ghost use Rattle.grid_tables.specs.declared.error.TableError.TheVariants.{BadDelta, Memory};

use crate::kinds::{gives_access, is_given};
use crate::probe::EntryKey;
use crate::{TableError, Tables};
use grid_model::{Delta, EntryRow, ItemKind};

impl Tables {
    // Whether an item has metadata.
    fn has_triple_of(&self, kind: ItemKind, id: u64) -> bool
        ensures { result ≡ list_any (λ t. same_item t.kind t.id kind id) self.now.triples }
    {
        !self.triples.of_item(kind, id).is_empty()
    }

    // Whether an item gives access.
    fn has_entry_of(&self, kind: ItemKind, id: u64) -> bool
        ensures { result ≡ list_any (λ e. same_item e.kind e.id kind id) self.now.entries }
    {
        !self.entries.of_item(kind, id).is_empty()
    }

    // Whether an item has metadata or gives access.
    pub(crate) fn is_told_of(&self, kind: ItemKind, id: u64) -> bool
        ensures { result ≡ is_told_of self.now kind id }
    {
        self.has_triple_of(kind, id) || self.has_entry_of(kind, id)
    }

    // Whether its item, which may give access, and its user are there, and its level may be given.
    fn entry_fits(&self, row: EntryRow) -> bool
        ensures { result ≡ entry_fits self.now row }
    {
        gives_access(row.kind)
            && is_given(row.level)
            && self.is_item_there(row.kind, row.id)
            && self.has_user(u64::from(row.user))
    }

    // Whether an item has an entry for a user.
    fn has_entry(&self, kind: ItemKind, id: u64, user: u32) -> bool
        ensures { result ≡ has_entry self.now kind id user }
    {
        self.entries.has(EntryKey { kind, id, user })
    }

    /// Applies delta 13.
    pub(crate) fn apply_entry(&mut self, row: EntryRow) -> Result<(), TableError>
        ensures applied { OnOk result (apply self.old (Delta.Entry row) ≡ Ok self.new) }
        ensures refused { IfErr result (λ error. (cause : _) → error ≡ BadDelta cause → apply self.old (Delta.Entry row) ≡ Err cause) }
        ensures memory { result ≡ Err Memory → IsOk (apply self.old (Delta.Entry row)) }
        ensures unchanged { OnErr result (self.new ≡ self.old) }
    {
        if !self.entry_fits(row) {
            return Err(TableError::BadDelta { cause: 13 });
        }
        self.entries.put(row)?;
        Ok(())
    }

    /// Applies delta 14.
    pub(crate) fn apply_no_entry(
        &mut self,
        kind: ItemKind,
        id: u64,
        user: u32,
    ) -> Result<(), TableError>
        ensures applied { OnOk result (apply self.old (Delta.NoEntry kind id user) ≡ Ok self.new) }
        ensures refused { IfErr result (λ error. (cause : _) → error ≡ BadDelta cause → apply self.old (Delta.NoEntry kind id user) ≡ Err cause) }
        ensures memory { result ≡ Err Memory → IsOk (apply self.old (Delta.NoEntry kind id user)) }
        ensures unchanged { OnErr result (self.new ≡ self.old) }
    {
        if !self.has_entry(kind, id, user) {
            return Err(TableError::BadDelta { cause: 14 });
        }
        self.entries.remove(EntryKey { kind, id, user });
        Ok(())
    }
}

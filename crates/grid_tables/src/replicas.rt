ghost use Rattle.std.specs.Prelude.{◌≡◌, ◌==◌, ◌&&◌, not, filter, Ok, Err, IsOk, OnOk, OnErr, IfErr};
ghost use Rattle.std.specs.List.{list_any};
ghost use Rattle.grid_model.specs.Applying.{apply, is_leaf, is_drawn, is_replica, replica_fits, has_replica, orphan_fits, has_orphan};
ghost use Rattle.grid_tables.specs.declared.error.TableError.TheVariants.{BadDelta, Memory};

use crate::kinds::is_storage;
use crate::{TableError, Tables};
use grid_model::{Delta, OrphanRow, ReplicaRow};

impl Tables {
    // Whether there is a leaf with this id.
    fn is_leaf(&self, id: u32) -> bool
        ensures { result ≡ is_leaf self.now id }
    {
        match self.resources.get(u64::from(id)) {
            Some(row) => is_storage(row.kind),
            None => false,
        }
    }

    // Whether an orphan has this vault number.
    fn has_orphan(&self, vault: u64) -> bool
        ensures { result ≡ has_orphan self.now vault }
    {
        self.orphans.has(vault)
    }

    // Whether a vault number was drawn, and no orphan has it.
    fn is_drawn(&self, vault: u64) -> bool
        ensures { result ≡ is_drawn self.now vault }
    {
        0 < vault && vault < self.numbers.next_vault && !self.has_orphan(vault)
    }

    // Whether another replica of the object has the leaf.
    fn is_leaf_of_another(&self, row: &ReplicaRow) -> bool
        ensures { result ≡ list_any (λ o. (o.object == row.now.object) && not (o.number == row.now.number) && (o.leaf == row.now.leaf)) self.now.replicas }
    {
        has_other_on_leaf(self.replicas.of_object(row.object), row)
    }

    // Whether another replica has the vault number.
    fn is_vault_of_another(&self, row: &ReplicaRow) -> bool
        ensures { result ≡ list_any (λ o. (o.vault == row.now.vault) && not (is_replica row.now.object row.now.number o)) self.now.replicas }
    {
        self.replicas.has_other_with_vault(row)
    }

    // Whether its object and leaf are there, and no other replica of the object has the leaf, and no other row the vault number.
    fn replica_fits(&self, row: &ReplicaRow) -> bool
        ensures { result ≡ replica_fits self.now row.now }
    {
        self.has_object(row.object)
            && self.is_leaf(row.leaf)
            && !self.is_leaf_of_another(row)
            && self.is_drawn(row.vault)
            && !self.is_vault_of_another(row)
    }

    // Whether an object has a replica with this number.
    fn has_replica(&self, object: u64, number: u32) -> bool
        ensures { result ≡ has_replica self.now object number }
    {
        self.replicas.has(object, number)
    }

    // Whether a replica has this vault number.
    fn is_vault_of_replica(&self, vault: u64) -> bool
        ensures { result ≡ list_any (λ o. o.vault == vault) self.now.replicas }
    {
        self.replicas.has_vault(vault)
    }

    // Whether its vault number was drawn and no row has it, and there is a store at its slot.
    fn orphan_fits(&self, row: OrphanRow) -> bool
        ensures { result ≡ orphan_fits self.now row }
    {
        self.is_drawn(row.vault) && !self.is_vault_of_replica(row.vault) && row.slot < self.stores
    }

    /// Applies delta 9.
    pub(crate) fn apply_replica(&mut self, row: ReplicaRow) -> Result<(), TableError>
        ensures applied { OnOk result (apply self.old (Delta.Replica row) ≡ Ok self.new) }
        ensures refused { IfErr result (λ error. (cause : _) → error ≡ BadDelta cause → apply self.old (Delta.Replica row) ≡ Err cause) }
        ensures memory { result ≡ Err Memory → IsOk (apply self.old (Delta.Replica row)) }
        ensures unchanged { OnErr result (self.new ≡ self.old) }
    {
        if !self.replica_fits(&row) {
            return Err(TableError::BadDelta { cause: 9 });
        }
        self.replicas.put(row)?;
        Ok(())
    }

    /// Applies delta 10.
    pub(crate) fn apply_no_replica(&mut self, object: u64, number: u32) -> Result<(), TableError>
        ensures applied { OnOk result (apply self.old (Delta.NoReplica object number) ≡ Ok self.new) }
        ensures refused { IfErr result (λ error. (cause : _) → error ≡ BadDelta cause → apply self.old (Delta.NoReplica object number) ≡ Err cause) }
        ensures memory { result ≡ Err Memory → IsOk (apply self.old (Delta.NoReplica object number)) }
        ensures unchanged { OnErr result (self.new ≡ self.old) }
    {
        if !self.has_replica(object, number) {
            return Err(TableError::BadDelta { cause: 10 });
        }
        self.replicas.remove(object, number);
        Ok(())
    }

    /// Applies delta 17.
    pub(crate) fn apply_orphan(&mut self, row: OrphanRow) -> Result<(), TableError>
        ensures applied { OnOk result (apply self.old (Delta.Orphan row) ≡ Ok self.new) }
        ensures refused { IfErr result (λ error. (cause : _) → error ≡ BadDelta cause → apply self.old (Delta.Orphan row) ≡ Err cause) }
        ensures memory { result ≡ Err Memory → IsOk (apply self.old (Delta.Orphan row)) }
        ensures unchanged { OnErr result (self.new ≡ self.old) }
    {
        if !self.orphan_fits(row) {
            return Err(TableError::BadDelta { cause: 17 });
        }
        match self.orphans.put(row) {
            Ok(_) => Ok(()),
            Err(_) => Err(TableError::Memory),
        }
    }

    /// Applies delta 18.
    pub(crate) fn apply_no_orphan(&mut self, vault: u64) -> Result<(), TableError>
        ensures applied { OnOk result (apply self.old (Delta.NoOrphan vault) ≡ Ok self.new) }
        ensures refused { IfErr result (λ error. (cause : _) → error ≡ BadDelta cause → apply self.old (Delta.NoOrphan vault) ≡ Err cause) }
        ensures memory { result ≡ Err Memory → IsOk (apply self.old (Delta.NoOrphan vault)) }
        ensures unchanged { OnErr result (self.new ≡ self.old) }
    {
        if !self.has_orphan(vault) {
            return Err(TableError::BadDelta { cause: 18 });
        }
        self.orphans.remove(vault);
        Ok(())
    }
}

/// Whether one of these replicas with another number has the leaf.
fn has_other_on_leaf(rows: &[ReplicaRow], row: &ReplicaRow) -> bool
    ensures { result ≡ list_any (λ o. not (o.number == row.now.number) && (o.leaf == row.now.leaf)) rows.now }
{
    rows.iter().any(|other| other.number != row.number && other.leaf == row.leaf)
}

ghost use Rattle.std.specs.Prelude.{◌≡◌, ◌==◌, ◌&&◌, ℕ, Bool, false, [], find, filter, not, option_map, IfOk, OnOk, OnErr};
ghost use Rattle.std.proofs.Common.{refl};
ghost use Rattle.std.specs.List.{list_any};
ghost use Rattle.std.specs.Ordering.{nat_cmp};
ghost use Rattle.std.specs.Cmp.{nat_cmp_total, on_total};
ghost use Rattle.grid_model.specs.Applying.{is_replica};
ghost use Rattle.grid_tables.specs.IndexKeys.{AreKeysOf};
ghost use Rattle.grid_tables.specs.KeyOrders.{leaf_cmp, leaf_of};
ghost use Rattle.grid_tables.specs.Vaults.{is_left};
ghost use Rattle.grid_model.specs.Rows.{IsTable, replica_cmp, replicas_of, with_row};

use crate::index_key::ReplicaOnLeaf;
use crate::indexed::Indexed;
use crate::keyed::Keyed;
use crate::probe::ReplicaKey;
use crate::row::{Numbered, Row};
use grid_model::{ItemKind, ReplicaRow};
use sorted_list::Run;
use std::alloc::{AllocError, Global};
use std::cmp::Ordering;
use std::marker::Model;

/// The number of a file in a vault.
#[derive(Clone, Copy, Debug, PartialEq, Eq)]
pub(crate) struct Vault {
    vault: u64,
}

impl Row for Vault {
    ghost use Rattle.std.specs.Prelude.{true};

    ghost row_cmp = { λ a b. nat_cmp a.vault b.vault };

    ghost fits = { λ _. true };

    ghost total = { on_total (λ v. v.vault) nat_cmp_total };

    fn cmp_key(&self, other: &Vault) -> Ordering {
        self.vault.cmp(&other.vault)
    }
}

impl Numbered for Vault {
    ghost number = { λ v. v.vault };

    ghost by_number = { λ one other. refl };

    fn number(&self) -> u64 {
        self.vault
    }
}

/// The replicas, and the numbers of their files in rising order. No two replicas have one number.
#[derive(Debug, Drop)]
pub(crate) struct Replicas {
    rows: Indexed<ReplicaRow, ReplicaOnLeaf>,
    vaults: Keyed<Vault>,
}

impl Model for Replicas {
    ghost use Rattle.std.specs.Prelude.{List};
    ghost use Rattle.grid_model.specs.declared.deltas.ReplicaRow.{ReplicaRow as Row};

    ghost Value = { List Row };

    ghost use Rattle.grid_tables.specs.Vaults.{IsVaults};

    ghost view = { λ t. t.rows };

    ghost invariant = { λ t. IsVaults t.rows t.vaults };
}

impl Replicas {
    /// No replicas. It takes no memory.
    pub(crate) fn empty(alloc: Global) -> Replicas
        ensures { result ≡ [] }
    {
        Replicas {
            rows: Indexed::empty(alloc),
            vaults: Keyed::empty(alloc),
        }
    }

    /// The keys of the replicas strictly rise. It does nothing.
    pub(crate) fn in_order(&self)
        ensures { IsTable ⟦<ReplicaRow as Row>⟧.row_cmp ⟦<ReplicaRow as Row>⟧.fits self.now }
    {
        let _vaults = &self.vaults;
        self.rows.in_order();
    }

    /// The replicas of an object, by number.
    pub(crate) fn of_object(&self, object: u64) -> &[ReplicaRow]
        ensures { result.now ≡ filter (λ r. r.object == object) self.now }
    {
        self.rows.of_item(ItemKind::Object, object)
    }

    /// The replicas on a leaf, by object and number.
    pub(crate) fn on_leaf(&self, leaf: u32) -> Run<'_, ReplicaOnLeaf>
        ensures { AreKeysOf leaf_of leaf_cmp (filter (λ r. r.leaf == leaf) self.now) result }
    {
        let _vaults = &self.vaults;
        self.rows.at(leaf)
    }

    /// Whether an object has a replica with this number.
    pub(crate) fn has(&self, object: u64, number: u32) -> bool
        ensures { result ≡ list_any (λ r. is_replica object number r) self.now }
    {
        self.rows.has(ReplicaKey { object, number })
    }

    /// Whether a replica has this vault number.
    pub(crate) fn has_vault(&self, vault: u64) -> bool
        ensures { result ≡ list_any (λ o. o.vault == vault) self.now }
    {
        self.vaults.has(vault)
    }

    /// Whether a replica has this one's vault number, and not its object and number.
    pub(crate) fn has_other_with_vault(&self, row: &ReplicaRow) -> bool
        ensures { result ≡ list_any (λ o. (o.vault == row.now.vault) && not (is_replica row.now.object row.now.number o)) self.now }
    {
        self.rows.in_order();
        let known = self.vaults.has(row.vault);
        if !known {
            return false;
        }
        match vault_of(&self.rows, row.object, row.number) {
            Some(own) => {
                if own == row.vault {
                    return false;
                }
                true
            }
            None => true,
        }
    }

    /// Puts a replica in the place of the one with its object and number, or where it belongs, where no other one has
    /// its vault number. Fails for want of memory alone, and then nothing is put.
    pub(crate) fn put(&mut self, row: ReplicaRow) -> Result<(), AllocError>
        requires { list_any (λ o. (o.vault == row.vault) && not (is_replica row.object row.number o)) self.old ≡ false }
        ensures put { OnOk result (self.new ≡ with_row replica_cmp self.old row) }
        ensures failed { OnErr result (self.new ≡ self.old) }
    {
        self.rows.in_order();
        let vault = row.vault;
        let before = vault_of(&self.rows, row.object, row.number);
        let known = put_vault(&mut self.vaults, vault)?;
        match self.rows.put(row) {
            Ok(()) => {
                drop_other(&mut self.vaults, before, vault);
                Ok(())
            }
            Err(_) => {
                let new = !known;
                drop_where(&mut self.vaults, new, vault);
                Err(AllocError)
            }
        }
    }

    /// Drops the replica with this number of an object, where there is one.
    pub(crate) fn remove(&mut self, object: u64, number: u32)
        ensures { self.new ≡ filter (λ r. not (is_replica object number r)) self.old }
    {
        self.rows.in_order();
        let before = vault_of(&self.rows, object, number);
        self.rows.remove(ReplicaKey { object, number });
        match before {
            Some(vault) => {
                self.vaults.remove(vault);
            }
            None => {}
        }
    }
}

// Puts a vault number, and answers whether it was there. Fails for want of memory alone, and then nothing is put.
fn put_vault(vaults: &mut Keyed<Vault>, vault: u64) -> Result<bool, AllocError>
    ensures put { OnOk result (vaults.new ≡ with_row ⟦<Vault as Row>⟧.row_cmp vaults.old (record { vault = vault })) }
    ensures known { IfOk result (λ known. known ≡ list_any (λ v. v.vault == vault) vaults.old) }
    ensures failed { OnErr result (vaults.new ≡ vaults.old) }
{
    match vaults.put(Vault { vault }) {
        Ok(old) => Ok(old.is_some()),
        Err(_) => Err(AllocError),
    }
}

// The vault number of a replica.
fn vault_of(rows: &Indexed<ReplicaRow, ReplicaOnLeaf>, object: u64, number: u32) -> Option<u64>
    ensures { result ≡ option_map (λ r. r.vault) (find (λ r. is_replica object number r) rows.now) }
{
    match rows.get(ReplicaKey { object, number }) {
        Some(row) => Some(row.vault),
        None => None,
    }
}

// Drops a vault number where the flag says so.
fn drop_where(vaults: &mut Keyed<Vault>, is_dropped: bool, vault: u64)
    ensures { (n : ℕ) → list_any (λ v. v.vault == n) vaults.new ≡ list_any (λ v. v.vault == n) vaults.old && not (is_dropped && (n == vault)) }
{
    if is_dropped {
        vaults.remove(vault);
    }
}

// Drops the vault number from before where it is another one.
fn drop_other(vaults: &mut Keyed<Vault>, before: Option<u64>, vault: u64)
    ensures { (n : ℕ) → list_any (λ v. v.vault == n) vaults.new ≡ list_any (λ v. v.vault == n) vaults.old && not (is_left before vault n) }
{
    match before {
        Some(old) => drop_where(vaults, old != vault, old),
        None => {}
    }
}

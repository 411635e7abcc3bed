ghost use Rattle.std.specs.Prelude.{◌≡◌, Ok, Err, IsOk, OnOk, OnErr, IfErr};
ghost use Rattle.grid_model.specs.Applying.{apply, zone_fits, numbers_fit};
ghost use Rattle.grid_tables.specs.declared.error.TableError.TheVariants.{BadDelta, Memory};

use crate::kinds::is_name;
use crate::{TableError, Tables};
use grid_model::{Delta, Numbers, Pending, Text};

impl Tables {
    // Whether there is no zone yet, and this is one of 1 to 16 stores.
    fn zone_fits(&self, name: &Text, stores: u8) -> bool
        ensures { result ≡ zone_fits self.now name.now stores }
    {
        self.zone.is_none() && is_name(name) && 0 < stores && stores <= 16
    }

    // Whether the next vault number does not fall.
    fn numbers_fit(&self, numbers: Numbers) -> bool
        ensures { result ≡ numbers_fit self.now numbers }
    {
        0 < numbers.next_vault && self.numbers.next_vault <= numbers.next_vault
    }

    /// Applies delta 1.
    pub(crate) fn apply_zone(&mut self, name: Text, stores: u8) -> Result<(), TableError>
        ensures applied { OnOk result (apply self.old (Delta.Zone name stores) ≡ Ok self.new) }
        ensures refused { IfErr result (λ error. (cause : _) → error ≡ BadDelta cause → apply self.old (Delta.Zone name stores) ≡ Err cause) }
        ensures memory { result ≡ Err Memory → IsOk (apply self.old (Delta.Zone name stores)) }
        ensures unchanged { OnErr result (self.new ≡ self.old) }
    {
        if !self.zone_fits(&name, stores) {
            return Err(TableError::BadDelta { cause: 1 });
        }
        self.zone = Some(name);
        self.stores = stores;
        Ok(())
    }

    /// Applies delta 16.
    pub(crate) fn apply_rules(&mut self, text: Text)
        ensures { apply self.old (Delta.Rules text) ≡ Ok self.new }
    {
        self.rules = text;
    }

    /// Applies delta 19.
    pub(crate) fn apply_numbers(&mut self, numbers: Numbers) -> Result<(), TableError>
        ensures applied { OnOk result (apply self.old (Delta.Numbers numbers) ≡ Ok self.new) }
        ensures refused { IfErr result (λ error. (cause : _) → error ≡ BadDelta cause → apply self.old (Delta.Numbers numbers) ≡ Err cause) }
        ensures memory { result ≡ Err Memory → IsOk (apply self.old (Delta.Numbers numbers)) }
        ensures unchanged { OnErr result (self.new ≡ self.old) }
    {
        if !self.numbers_fit(numbers) {
            return Err(TableError::BadDelta { cause: 19 });
        }
        self.numbers = numbers;
        Ok(())
    }

    /// Applies delta 20.
    pub(crate) fn apply_pending(&mut self, pending: Pending) -> Result<(), TableError>
        ensures applied { OnOk result (apply self.old (Delta.Pending pending) ≡ Ok self.new) }
        ensures refused { IfErr result (λ error. (cause : _) → error ≡ BadDelta cause → apply self.old (Delta.Pending pending) ≡ Err cause) }
        ensures memory { result ≡ Err Memory → IsOk (apply self.old (Delta.Pending pending)) }
        ensures unchanged { OnErr result (self.new ≡ self.old) }
    {
        if !self.is_user(pending.user) {
            return Err(TableError::BadDelta { cause: 20 });
        }
        self.pending = Some(pending);
        Ok(())
    }

    /// Applies delta 21.
    pub(crate) fn apply_no_pending(&mut self) -> Result<(), TableError>
        ensures applied { OnOk result (apply self.old Delta.NoPending ≡ Ok self.new) }
        ensures refused { IfErr result (λ error. (cause : _) → error ≡ BadDelta cause → apply self.old Delta.NoPending ≡ Err cause) }
        ensures memory { result ≡ Err Memory → IsOk (apply self.old Delta.NoPending) }
        ensures unchanged { OnErr result (self.new ≡ self.old) }
    {
        if !self.pending.is_some() {
            return Err(TableError::BadDelta { cause: 21 });
        }
        self.pending = None;
        Ok(())
    }
}

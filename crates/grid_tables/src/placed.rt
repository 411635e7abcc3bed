ghost use Rattle.std.specs.Prelude.{◌≡◌, ℕ};
ghost use Rattle.grid_model.specs.Names.{Text as Bytes};

use crate::row::Numbered;
use grid_model::{CollectionRow, ObjectRow, Text};

/// A row that has a name in a parent, where no other row has it.
pub(crate) trait Placed: Numbered {
    ghost parent: { Self → ℕ };

    ghost name: { Self → Bytes };

    /// The id of the parent.
    fn parent(&self) -> u64
        ensures { result ≡ parent self.now };

    /// The name.
    fn name(&self) -> &Text
        ensures { result.now ≡ name self.now };
}

impl Placed for CollectionRow {
    ghost parent = { λ r. r.parent };

    ghost name = { λ r. r.name };

    fn parent(&self) -> u64 {
        self.parent
    }

    fn name(&self) -> &Text {
        &self.name
    }
}

impl Placed for ObjectRow {
    ghost parent = { λ r. r.collection };

    ghost name = { λ r. r.name };

    fn parent(&self) -> u64 {
        self.collection
    }

    fn name(&self) -> &Text {
        &self.name
    }
}

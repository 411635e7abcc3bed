ghost use Rattle.std.specs.Prelude.{◌≡◌, ◌-◌, ◌^◌, ◌≤◌, ◌++◌, length, IfOk, OnOk, IsOk, Ok};
ghost use Rattle.std.specs.List.{AllByRecursion};
ghost use Rattle.grid_model.specs.Applying.{apply_all};
ghost use Rattle.grid_model.specs.Deltas.{SpellsDeltas};
ghost use Rattle.grid_journal.specs.Journal.{MayBeKept};

use crate::replay::take_each;
use grid_model::{Bytes, Deltas};
use grid_tables::Tables;
use row_codec::{CodecError, decode, encode};
use std::alloc::{AllocError, Global};

// How many bytes the body of a record has at most.
const LONGEST: usize = (1 << 62) - 16;

/// Applies the deltas, one after another, of which none is refused. For want of memory a part of them may be applied.
pub(crate) fn apply_each(
    alloc: Global,
    tables: &mut Tables,
    deltas: Deltas,
) -> Result<(), AllocError>
    requires apply { IsOk (apply_all tables.old deltas) }
    requires kept { AllByRecursion MayBeKept deltas }
    ensures { OnOk result (apply_all tables.old deltas ≡ Ok tables.new) }
{
    match take_each(alloc, tables, deltas)? {
        None => Ok(()),
        Some(_) => unreachable!(),
    }
}

/// The same deltas once more, read from their bytes.
pub(crate) fn copy_of(alloc: Global, deltas: &Deltas) -> Result<Deltas, AllocError>
    requires { AllByRecursion MayBeKept deltas.now }
    ensures { IfOk result (λ copy. copy ≡ deltas.now) }
{
    let bytes = encode(alloc, deltas)?;
    match decode(alloc, bytes.as_slice()) {
        Ok(copy) => Ok(copy),
        Err(CodecError::Memory) => Err(AllocError),
        Err(CodecError::BadRecord { at: _ }) => unreachable!(),
    }
}

/// The body of the record with the first deltas and then the others. Fails for want of memory alone, which is also
/// the answer where it would have more than 2^62 - 16 bytes.
pub(crate) fn record_of(alloc: Global, first: &Deltas, then: &Deltas) -> Result<Bytes, AllocError>
    requires first { AllByRecursion MayBeKept first.now }
    requires then { AllByRecursion MayBeKept then.now }
    ensures spells { IfOk result (λ bytes. SpellsDeltas bytes (first.now ++ then.now)) }
    ensures short { IfOk result (λ bytes. length bytes ≤ 2 ^ 62 - 16) }
{
    let mut bytes = encode(alloc, first)?.into_vec();
    let behind = encode(alloc, then)?;
    bytes.extend_from_slice(behind.as_slice())?;
    if bytes.len() > LONGEST {
        return Err(AllocError);
    }
    Ok(Bytes::from_vec(bytes))
}

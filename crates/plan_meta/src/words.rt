ghost use Rattle.std.specs.Prelude.{◌≡◌, ◌<◌, ◌^◌, ◌&&◌, not, length, nat_le, nat_lt, IsTrue, IfOk};
ghost use Rattle.std.specs.List.{list_any};
ghost use Rattle.grid_journal.specs.Journal.{can_be_kept};
ghost use Rattle.grid_model.specs.Applying.{has_triple};
ghost use Rattle.grid_model.specs.Bounds.{triple_size};
ghost use Rattle.grid_model.specs.Deltas.{text};
ghost use Rattle.grid_model.specs.Grid.{Thing};
ghost use Rattle.grid_model.specs.Names.{same_text};
ghost use Rattle.grid_model.specs.Operations.Metadata.{words_fit};
ghost use Rattle.grid_model.specs.Writable.{is_word};
ghost use Rattle.plan_meta.specs.Things.{row_saying};

use grid_model::{Delta, Item, Refusal, Text, TripleRow};
use grid_tables::Tables;
use plan_base::kind_and_id;
use std::alloc::{AllocError, Global};

/// Whether the texts may stand in a triple: there is an attribute and a value, and none of the three has more than 1,024 bytes.
/// Else `BadTriple` with the number of the first that may not, where those that are missing come first. It takes no memory.
pub(crate) fn words_fit(attribute: &Text, value: &Text, unit: &Text) -> Result<(), Refusal>
    ensures { (of : Thing) → result ≡ words_fit (record { of = of; attribute = attribute.now; value = value.now; unit = unit.now }) }
{
    if is_missing(attribute) {
        return Err(Refusal::BadTriple { which: 0 });
    }
    if is_missing(value) {
        return Err(Refusal::BadTriple { which: 1 });
    }
    if is_long(attribute) {
        return Err(Refusal::BadTriple { which: 0 });
    }
    if is_long(value) {
        return Err(Refusal::BadTriple { which: 1 });
    }
    if is_long(unit) {
        return Err(Refusal::BadTriple { which: 2 });
    }
    Ok(())
}

// Whether it has no bytes.
fn is_missing(word: &Text) -> bool
    ensures { result ≡ not (nat_lt 0 (length word.now)) }
{
    word.as_slice().is_empty()
}

// Whether it has more bytes than a text of a triple may have.
fn is_long(word: &Text) -> bool
    ensures { result ≡ not (nat_le (length word.now) triple_size) }
{
    word.as_slice().len() > 1024
}

/// Whether this is said of the item. It takes no memory.
pub(crate) fn is_said(
    tables: &Tables,
    item: Item,
    attribute: &Text,
    value: &Text,
    unit: &Text,
) -> bool
    ensures { result ≡ has_triple tables.now (row_saying item attribute.now value.now unit.now) }
{
    has_words(tables.triples_of(item), attribute, value, unit)
}

// Whether one of these has the three words.
fn has_words(rows: &[TripleRow], attribute: &Text, value: &Text, unit: &Text) -> bool
    ensures { result ≡ list_any (λ t. same_text t.attribute attribute.now && (same_text t.value value.now && same_text t.unit unit.now)) rows.now }
{
    rows.iter().any(|row| row.attribute == *attribute && (row.value == *value && row.unit == *unit))
}

/// The row that says this of the item. Fails for want of memory alone.
pub(crate) fn row_saying(
    alloc: Global,
    item: Item,
    attribute: &Text,
    value: &Text,
    unit: &Text,
) -> Result<TripleRow, AllocError>
    ensures { IfOk result (λ row. row ≡ row_saying item attribute.now value.now unit.now) }
{
    let (kind, id) = kind_and_id(item);
    Ok(TripleRow {
        kind,
        id,
        attribute: Text::copy_of(alloc, attribute.as_slice())?,
        value: Text::copy_of(alloc, value.as_slice())?,
        unit: Text::copy_of(alloc, unit.as_slice())?,
    })
}

/// A row of words may be kept. It does nothing.
pub(crate) fn row_is_kept(row: &TripleRow)
    requires attribute { IsTrue (is_word row.now.attribute) }
    requires value { IsTrue (is_word row.now.value) }
    requires unit { IsTrue (is_word row.now.unit) }
    ensures { IsTrue (can_be_kept (Delta.Triple row.now)) }
{
    let _id = row.id;
    word_is_text(row.attribute.as_slice());
    word_is_text(row.value.as_slice());
    word_is_text(row.unit.as_slice());
}

// A word may stand as a text in the catalogue. It does nothing.
fn word_is_text(word: &[u8])
    requires { IsTrue (is_word word.now) }
    ensures { IsTrue (text word.now).fits }
{
    is_size(word.len());
}

// A number of bytes in memory is below 2^64. It does nothing.
fn is_size(len: usize)
    ensures { len < 2 ^ 64 }
{}

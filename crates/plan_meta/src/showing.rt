ghost use Rattle.std.specs.Prelude.{◌≡◌, map, IsTrue, IfOk};
ghost use Rattle.grid_journal.specs.Journal.{AreSpelled};
ghost use Rattle.grid_model.specs.Applying.{IsMade, is_user};
ghost use Rattle.grid_model.specs.RowGrids.{user_name};
ghost use Rattle.plan_meta.specs.Showing.{triple_words, ShowsTriples};
ghost use Rattle.plan_meta.specs.Things.{thing_by};

use crate::ThingName;
use crate::items::item_to_see;
use grid_model::{PlanError, Rows, Text, Texts, TripleRow};
use grid_tables::Tables;
use std::alloc::{AllocError, Global};

/// The rows that are shown to a user of what is said of a thing (`lsmeta`): attribute, value and unit of each triple, in order.
/// Refused are a thing that is not there, and an object or a collection that the user may not read (`NoAccess`). Fails for want
/// of memory alone else.
pub fn list_triples(
    alloc: Global,
    tables: &Tables,
    user: u32,
    thing: &ThingName,
) -> Result<Rows, PlanError>
    requires made { IsMade tables.now }
    requires user { IsTrue (is_user tables.now user) }
    requires spelled { AreSpelled tables.now.triples }
    ensures { ShowsTriples tables.now (user_name tables.now user) (thing_by thing.now) result }
{
    let item = match item_to_see(tables, user, thing) {
        Err(refusal) => return Err(PlanError::Refused(refusal)),
        Ok(item) => item,
    };
    match triple_rows(alloc, tables.triples_of(item)) {
        Err(_) => Err(PlanError::Memory),
        Ok(rows) => Ok(Rows::from_vec(rows)),
    }
}

// The words of each of these, in order. Fails for want of memory alone.
fn triple_rows(alloc: Global, triples: &[TripleRow]) -> Result<Vec<Texts>, AllocError>
    ensures { IfOk result (λ rows. rows.items ≡ map triple_words triples.now) }
{
    let mut rows = Vec::new(alloc);
    for triple in triples {
        rows.push(triple_words(alloc, triple)?)?;
    }
    Ok(rows)
}

// Attribute, value and unit.
fn triple_words(alloc: Global, triple: &TripleRow) -> Result<Texts, AllocError>
    ensures { IfOk result (λ words. words ≡ triple_words triple.now) }
{
    let attribute = Text::copy_of(alloc, triple.attribute.as_slice())?;
    let value = Text::copy_of(alloc, triple.value.as_slice())?;
    let unit = Text::copy_of(alloc, triple.unit.as_slice())?;
    Ok(Texts::from_vec(vec![in alloc; attribute, value, unit]?))
}

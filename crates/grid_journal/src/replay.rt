ghost use Rattle.std.specs.Prelude.{◌≡◌, ◌+◌, ◌^◌, ◌<◌, ◌≤◌, ℕ, false, Ok, Err, List, length, map, take, flat_map, MatchOption, MatchResult, IfOk, IsTrue};
ghost use Rattle.frame_log.specs.Extent.{placed, bodies};
ghost use Rattle.frame_log.specs.Log.{frames};
ghost use Rattle.frame_log.specs.Records.{placed_body};
ghost use Rattle.grid_model.specs.Deltas.{SpellsDeltas, spelling};
ghost use Rattle.grid_model.specs.Rows.{empty_cat};
ghost use Rattle.grid_model.specs.declared.deltas.Delta.{Delta as DeltaOf};
ghost use Rattle.grid_journal.specs.Replaying.{ReplayStopsAt, Leads, IsAtFault, TakesAll, RefusesNext};
ghost use Rattle.grid_journal.specs.Stands.{Replays, SetsKeptRules};
ghost use Rattle.grid_journal.specs.declared.replay.ReplayError.TheVariants.{Memory as NoMemory};

use frame_log::Record;
use grid_model::{Delta, Deltas};
use grid_tables::{TableError, Tables};
use row_codec::{CodecError, decode, encode};
use rule_keep::kept_rules;
use std::alloc::{AllocError, Global};

/// Why records make no catalogue.
#[derive(Clone, Copy, Debug, PartialEq, Eq)]
pub(crate) enum ReplayError {
    /// The first fault is at this place.
    Fault { at: u64 },
    Memory,
}

impl From<AllocError> for ReplayError {
    ghost from_gives = { λ _ e. e ≡ NoMemory };

    fn from(_: AllocError) -> Self {
        ReplayError::Memory
    }
}

/// What records make of tables without rows, one after another. They stand one behind another from 16 on, and their
/// end fits a u64.
pub(crate) fn replay(alloc: Global, records: &[Record]) -> Result<Tables, ReplayError>
    requires places { map placed_body records.now ≡ placed 16 (bodies (map placed_body records.now)) }
    requires end { 16 + length (frames (bodies (map placed_body records.now))) < 2 ^ 64 }
    ensures { MatchResult result (λ tables. Replays empty_cat (map placed_body records.now) (Ok tables))
        (λ error. ReplayStopsAt (λ at. Replays empty_cat (map placed_body records.now) (Err at)) error) }
{
    let mut tables = Tables::empty(alloc);
    for logged in records {
        match replay_record(alloc, &mut tables, logged) {
            Ok(()) => {}
            Err(error) => {
                drop(tables);
                return Err(error);
            }
        }
    }
    Ok(tables)
}

// Takes the deltas of a record, whose end fits a u64.
fn replay_record(alloc: Global, tables: &mut Tables, logged: &Record) -> Result<(), ReplayError>
    requires { logged.now.place + length logged.now.body.items < 2 ^ 64 }
    ensures { MatchResult result (λ _. Leads (placed_body logged.now) tables.old tables.new)
        (λ error. ReplayStopsAt (IsAtFault (placed_body logged.now) tables.old) error) }
{
    let body = logged.body.as_slice();
    let deltas = match decode(alloc, body) {
        Ok(deltas) => deltas,
        Err(CodecError::BadRecord { at }) => {
            return Err(ReplayError::Fault {
                at: logged.place + at,
            });
        }
        Err(CodecError::Memory) => return Err(ReplayError::Memory),
    };
    match take_each(alloc, tables, deltas)? {
        None => Ok(()),
        Some(count) => {
            let before = length_of_first(alloc, body, count)?;
            Err(ReplayError::Fault {
                at: logged.place + before as u64,
            })
        }
    }
}

/// Applies deltas up to the first that is refused, and answers how many stand before that one. One that sets rules is
/// refused where its text is not that of allowed rules as they are printed. For want of memory a part of them may be
/// applied.
pub(crate) fn take_each(
    alloc: Global,
    tables: &mut Tables,
    deltas: Deltas,
) -> Result<Option<usize>, AllocError>
    ensures { IfOk result (λ refused. MatchOption refused (TakesAll deltas tables.old tables.new)
        (λ count. RefusesNext deltas count tables.old)) }
{
    let mut count = 0;
    for delta in deltas.into_vec() {
        let is_kept = match sets_kept_rules(alloc, &delta) {
            Ok(is_kept) => is_kept,
            Err(AllocError) => {
                drop(delta);
                return Err(AllocError);
            }
        };
        if !is_kept {
            drop(delta);
            return Ok(Some(count));
        }
        match tables.apply(delta) {
            Ok(()) => count += 1,
            Err(TableError::BadDelta { cause: _ }) => return Ok(Some(count)),
            Err(TableError::Memory) => return Err(AllocError),
        }
    }
    Ok(None)
}

// Whether the rules that a delta sets, if it sets some, are allowed and stand as they are printed.
fn sets_kept_rules(alloc: Global, delta: &Delta) -> Result<bool, AllocError>
    ensures kept { IfOk result (λ is_kept. IsTrue is_kept → SetsKeptRules delta.now) }
    ensures others { IfOk result (λ is_kept. is_kept ≡ false → ¬ SetsKeptRules delta.now) }
{
    match delta {
        Delta::Rules { text } => Ok(kept_rules(alloc, text)?.is_some()),
        _ => Ok(true),
    }
}

// How many bytes the first so many deltas have that a body spells.
fn length_of_first(alloc: Global, body: &[u8], count: usize) -> Result<usize, AllocError>
    requires { (deltas : List DeltaOf) × SpellsDeltas body.now deltas }
    ensures { IfOk result (λ n. (deltas : List DeltaOf) → SpellsDeltas body.now deltas → n ≡ length (flat_map spelling (take count deltas))) }
{
    let mut deltas = match decode(alloc, body) {
        Ok(deltas) => deltas.into_vec(),
        Err(CodecError::Memory) => return Err(AllocError),
        Err(CodecError::BadRecord { at: _ }) => unreachable!(),
    };
    deltas.truncate(count);
    let bytes = encode(alloc, &Deltas::from_vec(deltas))?;
    Ok(bytes.as_slice().len())
}

ghost use Rattle.std.specs.Prelude.{◌≡◌, ◌≢◌, ◌↔◌, ◌⊎◌, ℕ, ◌+◌, ◌-◌, ◌*◌, ◌^◌, ◌<◌, ◌≤◌, List, [], ◌∷◌, ◌++◌, length, flat_map, true};
ghost use Rattle.std.specs.Prelude.{false, IsTrue, Some, None, IfOk, OnOk, OnErr, IsOk, IsErrOf, MatchResult, Ok, Err};
ghost use Rattle.std.specs.List.{AllByRecursion};
ghost use Rattle.frame_log.specs.Extent.{extent_of, placed, bodies, IsLogOf};
ghost use Rattle.grid_outside.specs.Device.{Between, Leaves, Looks, IsSettled};
ghost use Rattle.grid_outside.specs.Disk.{Torn};
ghost use Rattle.grid_outside.specs.Fault.{Rose};
ghost use Rattle.grid_outside.specs.declared.outside.Wear.{Wear};
ghost use Rattle.grid_model.specs.Names.{Text as TextOf, is_name};
ghost use Rattle.grid_model.specs.Grid.{everybody};
ghost use Rattle.grid_model.specs.Deltas.{spelling, SpellsDeltas};
ghost use Rattle.grid_model.specs.Rows.{Cat, empty_cat};
ghost use Rattle.grid_model.specs.Applying.{apply_all};
ghost use Rattle.grid_model.specs.declared.deltas.Delta.{Delta};
ghost use Rattle.grid_model.specs.declared.grid.Side.{Side as SideOf};
ghost use Rattle.grid_journal.specs.Journal.{Keeps, AreSpelled, IsSpelledPending, MayBeKept};
ghost use Rattle.grid_journal.specs.Stands.{Stands, StandsEither};
ghost use Rattle.grid_journal.specs.Start.{start, start_main};
ghost use Rattle.grid_journal.specs.Replaying.{HasCatalogue, IsUnread};
ghost use Rattle.grid_journal.specs.Store.{IsOpened, Stages, Commits, IsNotEmpty, WasEmpty};
ghost use Rattle.grid_journal.specs.declared.error.JournalError.{JournalError};

use crate::JournalError;
use crate::changes::{apply_each, copy_of, record_of};
use crate::head::{BASE, READ, fault_in, main_with_record};
use crate::replay::{ReplayError, replay};
use crate::starting::start_deltas;
use frame_log::{FrameLog, Records, write_synced};
use grid_model::{Deltas, Side, Text};
use grid_outside::{Disk, Moments, Wear};
use grid_tables::Tables;
use row_codec::encode;
use std::alloc::{AllocError, Global};
use std::marker::Model;
use std::mem::replace;

// The greatest place of the closing gate at which a record may be added.
const LAST_GATE: u64 = 1 << 62;

/// The catalogue in memory, over the log on main in which it is kept. It has the deltas that are applied to its rows
/// and not yet on the disk.
///
/// After want of memory or a fault in a change it is not sound: its rows may be anything, and it is of no more use.
#[derive(Debug, Drop)]
pub struct Store {
    tables: Tables,
    staged: Deltas,
    log: FrameLog,
    sound: bool,
}

impl Model for Store {
    ghost use Rattle.std.specs.Prelude.{IsTrue};
    ghost use Rattle.std.specs.List.{AllByRecursion};
    ghost use Rattle.grid_journal.specs.Journal.{Journal, HasSpelledRows, MayBeKept};

    ghost Value = { Journal };

    ghost view = { λ s. record { cat = s.tables; staged = s.staged; log = s.log; sound = s.sound } };

    ghost invariant = { λ s. AllByRecursion MayBeKept s.staged × (IsTrue s.sound → HasSpelledRows s.tables) };
}

impl Store {
    /// Begins a grid with this zone, this administrator and so many stores: writes its catalogue to main in one
    /// write, and syncs.
    ///
    /// Zone and administrator are names, and the administrator is not `public`; there are 1 to 16 stores. What a
    /// stop leaves before it is done may be anything. Draws at most 2 moments. Errors are `NotEmpty`, with the first
    /// disk that is not empty, and `Memory`, which come before any disk is changed, and `DiskFault`.
    pub fn init<D: Disk>(
        alloc: Global,
        main: &mut D,
        spare: &mut D,
        moments: &mut Moments,
        zone: &Text,
        admin: &Text,
        stores: u8,
    ) -> Result<(), JournalError>
        requires last { (D.disk main.old).last ≤ moments.old }
        requires room { moments.old + 2 < 2 ^ 128 }
        requires zone { IsTrue (is_name zone.now) }
        requires admin { IsTrue (is_name admin.now) }
        requires not_public { admin.now ≢ everybody }
        requires stores { (0 < stores) × (stores ≤ 16) }

        // Both disks were empty. Main stands for the catalogue of a new grid, byte by byte, and nothing is pending.
        ensures was_empty { OnOk result (WasEmpty (D.disk main.old) × WasEmpty (D.disk spare.old)) }
        ensures written { OnOk result (IsTrue (D.disk main.old).tells → (D.disk main.new).holds ≡ start_main zone.now admin.now stores) }
        ensures stands { OnOk result (IsTrue (D.disk main.old).tells
            → (other_text : TextOf) → Stands (D.disk main.new).holds other_text (Ok (start zone.now admin.now stores))) }
        ensures settled { OnOk result (IsTrue (D.disk main.old).tells → IsSettled (D.disk main.new)) }

        // Spare is only looked at. Before the write main is too, which stays as it was if it was not empty.
        ensures kept { IsTrue (D.disk main.old).tells → (D.disk main.old).holds ≢ [] → (D.disk main.new).holds ≡ (D.disk main.old).holds }
        ensures spare { Looks (D.disk spare.old) (D.disk spare.new) }
        ensures span { Between moments.old moments.new (Torn 0 (length (start_main zone.now admin.now stores))) (D.disk main.old) (D.disk main.new) }

        // The first disk that is not empty is named. A fault comes only of a disk whose count rose.
        ensures not_empty { (side : SideOf) (n : ℕ) → IsErrOf result (JournalError.NotEmpty side n) → IsNotEmpty (D.disk main.old) (D.disk spare.old) n side }
        ensures cause { IsErrOf result JournalError.DiskFault
            → Rose (D.disk main.old).faults (D.disk main.new).faults ⊎ Rose (D.disk spare.old).faults (D.disk spare.new).faults }
        ensures main_later { (D.disk main.old).faults ≤ (D.disk main.new).faults }
        ensures spare_later { (D.disk spare.old).faults ≤ (D.disk spare.new).faults }
        ensures unchanged { (error : JournalError) → IsErrOf result error → error ≢ JournalError.DiskFault
            → Looks (D.disk main.old) (D.disk main.new) × (moments.new ≡ moments.old) }
        ensures no_other { (side : SideOf) (what : Wear) (position : ℕ)
            → (¬ IsErrOf result (JournalError.NotACatalogue side position)) × (¬ IsErrOf result (JournalError.Worn what position)) }
        ensures drawn_from { moments.old ≤ moments.new }
        ensures drawn { moments.new ≤ moments.old + 2 }
    {
        let len = main.len()?;
        if len > 0 {
            return Err(JournalError::NotEmpty {
                side: Side::Main,
                len,
            });
        }
        let len = spare.len()?;
        if len > 0 {
            return Err(JournalError::NotEmpty {
                side: Side::Spare,
                len,
            });
        }
        let deltas = start_deltas(alloc, zone, admin, stores)?;
        let body = encode(alloc, &deltas)?;
        let bytes = main_with_record(alloc, body.as_slice())?;
        write_synced(main, moments, 0, &bytes)?;
        Ok(())
    }

    /// Reads the catalogue that the disks stand for, in time in line with its log. No disk is changed.
    ///
    /// Errors are `Memory`, `DiskFault`, and `NotACatalogue` with the first of these places: that of a byte of the
    /// eight magic ones which is missing or another; 8, where the root is missing or odd; where the log does not go
    /// on; in the first record that is at fault, where its bytes begin no list of deltas, or the place of a delta
    /// that is refused; and 16, where there is no zone after all records.
    pub fn open<D: Disk>(alloc: Global, main: &mut D, spare: &mut D) -> Result<Store, JournalError>
        // The rows are those of the one catalogue that the disks stand for, which deltas make, and nothing is staged.
        ensures opened { IfOk result IsOpened }
        ensures made { IfOk result (λ store. (deltas : List Delta) × (apply_all empty_cat deltas ≡ Ok store.cat)) }
        ensures stands { IfOk result (λ store. IsTrue (D.disk main.old).tells → (other : TextOf) → Stands (D.disk main.old).holds other (Ok store.cat)) }
        ensures keeps { IfOk result (λ store. IsTrue (D.disk main.old).tells → Keeps store.cat store (D.disk main.new).holds) }
        ensures not_a_catalogue { (side : SideOf) (at : ℕ) → IsErrOf result (JournalError.NotACatalogue side at) → IsTrue (D.disk main.old).tells →
            (other : TextOf) → Stands (D.disk main.old).holds other (Err (side, at)) }

        // The disks are as they were, so where nothing was pending nothing is.
        ensures settled { IsTrue (D.disk main.old).tells → IsSettled (D.disk main.old) → IsSettled (D.disk main.new) }
        ensures looks { Looks (D.disk main.old) (D.disk main.new) }
        ensures spare { spare.new ≡ spare.old }
        ensures later { (D.disk main.old).faults ≤ (D.disk main.new).faults }
        ensures cause { IsErrOf result JournalError.DiskFault → Rose (D.disk main.old).faults (D.disk main.new).faults }
        ensures no_other { (side : SideOf) (what : Wear) (position : ℕ)
            → (¬ IsErrOf result (JournalError.NotEmpty side position)) × (¬ IsErrOf result (JournalError.Worn what position)) }
    {
        let mut head = [0; READ];
        let count = main.read(0, &mut head)?;
        match fault_in(&head[..count]) {
            Some(at) => return Err(not_at(at)),
            None => {}
        }
        let (log, records) = FrameLog::open(alloc, main, BASE)?;
        let tables = read_tables(alloc, &log, &records)?;
        Ok(Store {
            tables,
            staged: Deltas::from_vec(Vec::new(alloc)),
            log,
            sound: true,
        })
    }

    /// The rows: while the store is sound, those of the catalogue on the disk with the staged deltas.
    pub fn tables(&self) -> &Tables
        ensures { result.now ≡ self.now.cat }
    {
        &self.tables
    }

    /// What the rows of a sound store have of metadata may be taken away by deltas that `stage` and `commit` take. It does
    /// nothing.
    pub fn is_spelled(&self)
        requires sound { IsTrue self.now.sound }
        ensures { AreSpelled self.now.cat.triples }
    {
        let _sound = self.sound;
    }

    /// The command that is pending in the rows of a sound store may be noted again by a delta that `stage` and `commit` take.
    /// It does nothing.
    pub fn pending_is_spelled(&self)
        requires sound { IsTrue self.now.sound }
        ensures { IsSpelledPending self.now.cat.pending }
    {
        let _sound = self.sound;
    }

    /// The place of the closing gate of the log, where it is past 2^62: no record can be added then.
    pub fn full_at(&self) -> Option<u64>
        ensures some { (at : ℕ) → result ≡ Some at → (at ≡ self.now.log.gate) × (2 ^ 62 < self.now.log.gate) }
        ensures none { result ≡ None → self.now.log.gate ≤ 2 ^ 62 }
    {
        let gate = self.log.gate();
        if gate > LAST_GATE { Some(gate) } else { None }
    }

    /// Whether it is sound. It stays so until memory or a disk fails in a change.
    pub fn is_sound(&self) -> bool
        ensures { IsTrue result ↔ IsTrue self.now.sound }
    {
        self.sound
    }

    /// The deltas that are applied to the rows and not yet on the disk, the first one first.
    pub fn staged(&self) -> &Deltas
        ensures { result.now ≡ self.now.staged }
    {
        &self.staged
    }

    /// Applies the deltas to the rows and keeps them for the next commit. No disk is called.
    ///
    /// The store is sound, none of the deltas is refused, one after another, each has a spelling, and rules that one
    /// sets are allowed and stand as they are printed. Fails for want of memory alone, and is then not sound.
    pub fn stage(&mut self, alloc: Global, deltas: Deltas) -> Result<(), AllocError>
        requires sound { IsTrue self.old.sound }
        requires apply { IsOk (apply_all self.old.cat deltas) }
        requires spelled { AllByRecursion MayBeKept deltas }
        ensures staged { OnOk result (Stages deltas self.old self.new) }
        ensures keeps { OnOk result ((kept : Cat) (main : TextOf) → Keeps kept self.old main → Keeps kept self.new main) }
        ensures unsound { OnErr result (self.new.sound ≡ false) }
    {
        self.sound = false;
        let mut copy = copy_of(alloc, &deltas)?.into_vec();
        apply_each(alloc, &mut self.tables, deltas)?;
        let mut staged = replace(&mut self.staged, Deltas::from_vec(Vec::new(alloc))).into_vec();
        staged.append(&mut copy)?;
        self.staged = Deltas::from_vec(staged);
        self.sound = true;
        Ok(())
    }

    /// Applies the deltas to the rows, and adds the staged ones and then these to the log, as one record. Nothing is
    /// staged then.
    ///
    /// The conditions are those of `stage`, and main, where it tells, has the log that the store stands on. A stop at
    /// any moment leaves the catalogue that main had, or the one after all of these deltas. Draws at most 4 moments.
    /// Errors are `Worn`, exactly where the closing gate is past 2^62, which changes nothing; `Memory`, before any
    /// call of a disk; and `DiskFault`. After the last two the store is not sound.
    pub fn commit<D: Disk>(
        &mut self,
        alloc: Global,
        main: &mut D,
        spare: &mut D,
        moments: &mut Moments,
        deltas: Deltas,
    ) -> Result<(), JournalError>
        requires last { (D.disk main.old).last ≤ moments.old }
        requires room { moments.old + 4 < 2 ^ 128 }
        requires sound { IsTrue self.old.sound }
        requires apply { IsOk (apply_all self.old.cat deltas) }
        requires spelled { AllByRecursion MayBeKept deltas }
        requires log { IsTrue (D.disk main.old).tells → (kept : Cat) × Keeps kept self.old (D.disk main.old).holds }

        // After Ok main has the catalogue of the rows, and nothing is staged or pending.
        ensures commits { OnOk result (Commits deltas self.old self.new) }
        ensures keeps { OnOk result (IsTrue (D.disk main.old).tells → (kept : Cat) → Keeps kept self.old (D.disk main.old).holds →
            Keeps self.new.cat self.new (D.disk main.new).holds) }
        ensures settled { OnOk result (IsTrue (D.disk main.old).tells → IsSettled (D.disk main.new)) }

        // Its log has one record more, which spells the staged deltas and then the given ones.
        ensures added { OnOk result (IsTrue (D.disk main.old).tells → (kept : Cat) (k : Keeps kept self.old (D.disk main.old).holds) →
            IsLogOf self.new.log (k.records ++ flat_map spelling (self.old.staged ++ deltas) ∷ []) (D.disk main.new).holds) }

        // At each moment of the call, failed or not, every image stands for the catalogue before or for the one after.
        ensures any_moment { IsTrue (D.disk main.old).tells → IsSettled (D.disk main.old) →
            (kept after : Cat) → Keeps kept self.old (D.disk main.old).holds → apply_all self.old.cat deltas ≡ Ok after →
            Leaves moments.old (StandsEither kept after) (D.disk main.new) }
        ensures afterwards { IsTrue (D.disk main.old).tells →
            (kept after : Cat) → Keeps kept self.old (D.disk main.old).holds → apply_all self.old.cat deltas ≡ Ok after →
            StandsEither kept after (D.disk main.new).holds }
        ensures span { Between moments.old moments.new (Torn self.old.log.gate (length (flat_map spelling (self.old.staged ++ deltas)) + 10)) (D.disk main.old)
            (D.disk main.new) }
        ensures last { (D.disk main.new).last ≤ moments.new }
        ensures spare { spare.new ≡ spare.old }

        ensures worn { (what : Wear) (position : ℕ) → IsErrOf result (JournalError.Worn what position)
            ↔ ((what ≡ Wear.Log) × (position ≡ self.old.log.gate) × (2 ^ 62 < self.old.log.gate)) }
        ensures worn_same { (what : Wear) (at : ℕ) → IsErrOf result (JournalError.Worn what at) → self.new ≡ self.old }
        ensures unsound { (e : JournalError) → IsErrOf result e → ((e ≡ JournalError.Memory) ⊎ (e ≡ JournalError.DiskFault)) → self.new.sound ≡ false }
        ensures cause { IsErrOf result JournalError.DiskFault → Rose (D.disk main.old).faults (D.disk main.new).faults }
        ensures unchanged { (e : JournalError) → IsErrOf result e → e ≢ JournalError.DiskFault → (main.new ≡ main.old) × (moments.new ≡ moments.old) }
        ensures no_other { (side : SideOf) (position : ℕ)
            → (¬ IsErrOf result (JournalError.NotEmpty side position)) × (¬ IsErrOf result (JournalError.NotACatalogue side position)) }
        ensures drawn_from { moments.old ≤ moments.new }
        ensures drawn { moments.new ≤ moments.old + 4 }
    {
        let gate = self.log.gate();
        if gate > LAST_GATE {
            return Err(JournalError::Worn {
                what: Wear::Log,
                at: gate,
            });
        }
        self.sound = false;
        let body = record_of(alloc, &self.staged, &deltas)?;
        apply_each(alloc, &mut self.tables, deltas)?;
        self.log.append(alloc, main, moments, body.as_slice())?;
        self.staged = Deltas::from_vec(Vec::new(alloc));
        self.sound = true;
        Ok(())
    }
}

// There is no catalogue, which shows at this place of main.
fn not_at(at: u64) -> JournalError
    ensures { result ≡ JournalError.NotACatalogue SideOf.Main at }
{
    JournalError::NotACatalogue {
        side: Side::Main,
        at,
    }
}

// The rows that the records of a log on main make, which stand from 16 on.
fn read_tables(alloc: Global, log: &FrameLog, records: &Records) -> Result<Tables, JournalError>
    requires places { records.now ≡ placed 16 (bodies records.now) }
    requires extent { log.now ≡ extent_of 16 (bodies records.now) }
    ensures { MatchResult result (HasCatalogue records.now) (IsUnread records.now) }
{
    // The records end at a place that fits a u64.
    let _end = log.gate();
    match replay(alloc, records.as_slice()) {
        Ok(tables) => match tables.zone() {
            Some(_) => Ok(tables),
            None => {
                drop(tables);
                Err(not_at(BASE))
            }
        },
        Err(ReplayError::Fault { at }) => Err(not_at(at)),
        Err(ReplayError::Memory) => Err(JournalError::Memory),
    }
}

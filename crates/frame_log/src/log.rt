ghost use Rattle.std.specs.Prelude.{◌≡◌, ◌≢◌, ◌↔◌, ℕ, ◌+◌, ◌-◌, ◌^◌, ◌<◌, ◌≤◌, List, [], ◌∷◌, ◌++◌, length, IsTrue, IfOk, OnOk, OnErr, IsErrOf, Err};
ghost use Rattle.grid_outside.specs.Device.{Between, Leaves, Looks, IsSettled};
ghost use Rattle.grid_outside.specs.Disk.{Holds, Torn};
ghost use Rattle.grid_outside.specs.Fault.{Rose};
ghost use Rattle.grid_outside.specs.declared.outside.Wear.{Wear};
ghost use Rattle.frame_log.specs.declared.error.LogError.{LogError};
ghost use Rattle.frame_log.specs.Extent.{extent_of, grown, IsLogOf, placed, bodies};
ghost use Rattle.frame_log.specs.Log.{frame, IsLog, IsOldOrNew, ReadsOnlyAs, log_of, no_log};

use crate::LogError;
use crate::framing::{HEADER, OPEN, framed};
use crate::opening::read_records;
use crate::records::Records;
use crate::synced::write_synced;
use grid_outside::{Disk, Moments, Wear};
use std::alloc::Global;
use std::marker::Model;

// The greatest place of a gate behind which a record may be added.
const LAST_GATE: u64 = 1 << 62;

/// A log that stands on a disk. It knows where it stands and keeps no record in memory.
///
/// Contracts see the base, the place of the closing gate and the length of the first record's body.
#[derive(Debug, Drop)]
pub struct FrameLog {
    base: u64,
    gate: u64,
    first_len: u64,
}

impl Model for FrameLog {
    ghost use Rattle.frame_log.specs.Extent.{Extent};

    ghost Value = { Extent };

    ghost view = { λ log. record { base = log.base; gate = log.gate; first_len = log.first_len } };
}

impl FrameLog {
    /// Writes a log with this one record from the base on, over what stands there, in one write, and syncs.
    ///
    /// The base is at most 2^62 and not past the disk's end, and the body has at most 2^62 - 16 bytes. A stop before
    /// it is done may leave any bytes where the log is written. Draws at most 2 moments. Errors are `Memory`, which
    /// comes before any call of the disk, and `DiskFault`.
    pub fn fresh<D: Disk>(
        alloc: Global,
        disk: &mut D,
        moments: &mut Moments,
        base: u64,
        first: &[u8],
    ) -> Result<FrameLog, LogError>
        requires last { (D.disk disk.old).last ≤ moments.old }
        requires room { moments.old + 2 < 2 ^ 128 }
        requires base { base ≤ 2 ^ 62 }
        requires start { IsTrue (D.disk disk.old).tells → base ≤ length (D.disk disk.old).holds }
        requires size { length first.now ≤ 2 ^ 62 - 16 }

        // After Ok the disk holds the log, and nothing is pending.
        ensures extent { IfOk result (λ log. log ≡ extent_of base (first.now ∷ [])) }
        ensures written { OnOk result (IsTrue (D.disk disk.old).tells →
            Holds base (frame first.now ++ 0 ∷ []) (D.disk disk.old).holds (D.disk disk.new).holds) }
        ensures log { IfOk result (λ log. IsTrue (D.disk disk.old).tells → IsLogOf log (first.now ∷ []) (D.disk disk.new).holds) }
        ensures settled { OnOk result (IsTrue (D.disk disk.old).tells → IsSettled (D.disk disk.new)) }

        // At each moment what lies before the base is kept, and what lies past the record.
        ensures span { Between moments.old moments.new (Torn base (length first.now + 10)) (D.disk disk.old) (D.disk disk.new) }
        ensures last { (D.disk disk.new).last ≤ moments.new }

        ensures cause { IsErrOf result LogError.DiskFault → Rose (D.disk disk.old).faults (D.disk disk.new).faults }
        ensures unchanged { (error : LogError) → IsErrOf result error → error ≢ LogError.DiskFault
            → (error ≡ LogError.Memory) × (disk.new ≡ disk.old) × (moments.new ≡ moments.old) }
        ensures drawn_from { moments.old ≤ moments.new }
        ensures drawn { moments.new ≤ moments.old + 2 }
    {
        let bytes = framed(alloc, first)?;
        write_synced(disk, moments, base, &bytes)?;
        let first_len = first.len() as u64;
        Ok(FrameLog {
            base,
            gate: base + HEADER + first_len,
            first_len,
        })
    }

    /// Reads the log from the base on, in time in line with its length. The disk is not changed. Any base is allowed.
    ///
    /// Errors are `Memory`, `DiskFault`, and `NotALog` with the first of these places: the first gate's where it is
    /// missing or closed, that of a length which runs past the end or whose body does, and a further gate's where it
    /// is missing.
    pub fn open<D: Disk>(
        alloc: Global,
        disk: &mut D,
        base: u64,
    ) -> Result<(FrameLog, Records), LogError>
        // What is answered is what the bytes are read as, and they are read in no other way.
        ensures read { IfOk result (λ opened. IsTrue (D.disk disk.old).tells → ReadsOnlyAs base (D.disk disk.old).holds (log_of (bodies opened.1))) }
        ensures not_a_log { (at : ℕ) → IsErrOf result (LogError.NotALog at) → IsTrue (D.disk disk.old).tells →
            ReadsOnlyAs base (D.disk disk.old).holds (no_log at) }
        ensures places { IfOk result (λ opened. opened.1 ≡ placed base (bodies opened.1)) }
        ensures extent { IfOk result (λ opened. opened.0 ≡ extent_of base (bodies opened.1)) }

        // Records can be added. The disk is as it was, so where nothing was pending nothing is.
        ensures log { IfOk result (λ opened. IsTrue (D.disk disk.old).tells → IsLogOf opened.0 (bodies opened.1) (D.disk disk.new).holds) }
        ensures settled { IsTrue (D.disk disk.old).tells → IsSettled (D.disk disk.old) → IsSettled (D.disk disk.new) }
        ensures looks { Looks (D.disk disk.old) (D.disk disk.new) }
        ensures later { (D.disk disk.old).faults ≤ (D.disk disk.new).faults }
        ensures cause { IsErrOf result LogError.DiskFault → Rose (D.disk disk.old).faults (D.disk disk.new).faults }
        ensures not_worn { (what : Wear) (at : ℕ) → ¬ IsErrOf result (LogError.Worn what at) }
    {
        let (gate, list) = read_records(alloc, disk, base)?;
        let Some(first) = list.first() else {
            return Err(LogError::NotALog { at: base });
        };
        let first_len = first.body.len() as u64;
        let log = FrameLog {
            base,
            gate,
            first_len,
        };
        Ok((log, Records::from_vec(list)))
    }

    /// Adds a record: writes it behind the closing gate, with a closed gate after it, in one write, syncs, opens the
    /// gate by a write of one byte, and syncs.
    ///
    /// The body has at most 2^62 - 16 bytes. A stop at any moment leaves the old records, or these and the new one.
    /// Draws at most 4 moments. Errors are `Worn`, exactly where the closing gate is past 2^62, and `Memory`, which
    /// come before any call of the disk, and `DiskFault`, after which the log is to be opened again.
    pub fn append<D: Disk>(
        &mut self,
        alloc: Global,
        disk: &mut D,
        moments: &mut Moments,
        body: &[u8],
    ) -> Result<(), LogError>
        requires last { (D.disk disk.old).last ≤ moments.old }
        requires room { moments.old + 4 < 2 ^ 128 }
        requires size { length body.now ≤ 2 ^ 62 - 16 }
        requires log { IsTrue (D.disk disk.old).tells → (records : List (List ℕ)) × IsLogOf self.old records (D.disk disk.old).holds }

        // After Ok the disk holds the log with the record, and nothing is pending.
        ensures extent { OnOk result (self.new ≡ grown self.old (length body.now)) }
        ensures written { OnOk result (IsTrue (D.disk disk.old).tells →
            Holds self.old.gate (frame body.now ++ 0 ∷ []) (D.disk disk.old).holds (D.disk disk.new).holds) }
        ensures added { OnOk result (IsTrue (D.disk disk.old).tells → (records : List (List ℕ)) → IsLogOf self.old records (D.disk disk.old).holds →
            IsLogOf self.new (records ++ body.now ∷ []) (D.disk disk.new).holds) }
        ensures settled { OnOk result (IsTrue (D.disk disk.old).tells → IsSettled (D.disk disk.new)) }

        // At each moment of the call, failed or not, every image reads as the old records, or with the new one.
        ensures any_moment { IsTrue (D.disk disk.old).tells → IsSettled (D.disk disk.old) → (records : List (List ℕ))
            → IsLogOf self.old records (D.disk disk.old).holds →
            Leaves moments.old (IsOldOrNew self.old.base records body.now (D.disk disk.old).holds) (D.disk disk.new) }
        ensures afterwards { IsTrue (D.disk disk.old).tells → (records : List (List ℕ)) → IsLogOf self.old records (D.disk disk.old).holds →
            IsOldOrNew self.old.base records body.now (D.disk disk.old).holds (D.disk disk.new).holds }
        ensures span { Between moments.old moments.new (Torn self.old.gate (length body.now + 10)) (D.disk disk.old) (D.disk disk.new) }
        ensures last { (D.disk disk.new).last ≤ moments.new }

        ensures worn { (what : Wear) (at : ℕ) → IsErrOf result (LogError.Worn what at) ↔ ((what ≡ Wear.Log) × (at ≡ self.old.gate) × (2 ^ 62 < self.old.gate)) }
        ensures not_read { (at : ℕ) → ¬ IsErrOf result (LogError.NotALog at) }
        ensures cause { IsErrOf result LogError.DiskFault → Rose (D.disk disk.old).faults (D.disk disk.new).faults }
        ensures unchanged { (e : LogError) → IsErrOf result e → e ≢ LogError.DiskFault → (disk.new ≡ disk.old) × (moments.new ≡ moments.old) }
        ensures same_extent { OnErr result (self.new ≡ self.old) }
        ensures drawn_from { moments.old ≤ moments.new }
        ensures drawn { moments.new ≤ moments.old + 4 }
    {
        if self.gate > LAST_GATE {
            return Err(LogError::Worn {
                what: Wear::Log,
                at: self.gate,
            });
        }
        let bytes = framed(alloc, body)?;
        write_synced(disk, moments, self.gate + 1, &bytes[1..])?;
        write_synced(disk, moments, self.gate, &[OPEN])?;
        self.gate += HEADER + body.len() as u64;
        Ok(())
    }

    /// The place of the closing gate.
    pub fn gate(&self) -> u64
        ensures { result ≡ self.now.gate }
    {
        self.gate
    }

    /// How many bytes the first record's body has.
    pub fn first_len(&self) -> u64
        ensures { result ≡ self.now.first_len }
    {
        self.first_len
    }
}

ghost use Rattle.std.specs.Prelude.{◌≡◌, ◌↔◌, ℕ, ◌+◌, ◌^◌, ◌<◌, ◌≤◌, true, [], ◌∷◌, ◌++◌, List, length, take, drop, OnOk, OnErr, IfOk, IsTrue};
ghost use Rattle.grid_mem.specs.Calls.{is_record, held, held_after, held_since, Records};
ghost use Rattle.grid_mem.specs.DiskCalls.{disk_kind, deed_done, deed_fits, MayDo, IsSure};

use crate::reading::read_at;
use crate::{Call, DiskDeed, Schedule};
use grid_outside::{Disk, DiskFault};
use std::alloc::{AllocError, Global};

/// A disk in memory. It is made from contents and the numbers of the calls that are to fail. A call that fails does
/// nothing to what is held, but a stop may leave any part of it. Where there is no memory for a call, it fails and
/// is not recorded.
#[derive(Drop)]
pub struct MemDisk {
    alloc: Global,
    start: Vec<u8>,
    bytes: Vec<u8>,
    calls: Vec<Call<DiskDeed>>,
    last: u128,
    faults: u64,
    schedule: Schedule,
    ghost valid: { is_record disk_kind 0 last start.items calls.items ≡ true },
    ghost same: { bytes.items ≡ held disk_kind start.items calls.items },
}

#[tactic(auto, unfolding(crate::specs::MemDisk::disk_of))]
impl MemDisk {
    ghost use Rattle.grid_outside.specs.Device.{Acts};
    ghost use Rattle.grid_outside.specs.DiskModel.{MayLeave};
    ghost use Rattle.grid_outside.specs.Fault.{HasCause};
    ghost use Rattle.grid_mem.specs.Device.{IsNew};
    ghost use Rattle.grid_mem.specs.DiskCalls.{unsynced_at};
    ghost use Rattle.grid_mem.specs.MemDisk.{disk_of, disk_history, disk_schedule};
    ghost use Rattle.grid_mem.specs.Schedule.{IsFresh, CountsFaults};

    /// A disk that holds these bytes. Its calls of these numbers, from 1, are to fail. The only error is want of
    /// memory.
    pub fn new(alloc: Global, bytes: Vec<u8>, fails: Vec<u64>) -> Result<MemDisk, AllocError>
        ensures new { IfOk result (λ disk. IsNew bytes.items (disk_of disk)) }
        ensures history { IfOk result (λ disk. disk_history disk ≡ record { start = bytes.items; calls = [] }) }
        ensures schedule { IfOk result (λ disk. IsFresh fails.items (disk_schedule disk)) }
    {
        let start = bytes.as_slice().to_vec(alloc)?;
        Ok(MemDisk {
            alloc,
            start,
            bytes,
            calls: Vec::new(alloc),
            last: 0,
            faults: 0,
            schedule: Schedule { fails, made: 0 },
        })
    }

    /// What it holds.
    pub fn bytes(&self) -> &[u8]
        ensures { result.now ≡ (disk_of self.now).holds }
    {
        &self.bytes
    }

    /// Its calls with a moment, in order.
    pub fn calls(&self) -> &[Call<DiskDeed>]
        ensures { result.now ≡ (disk_history self.now).calls }
    {
        &self.calls
    }

    /// A law, which does nothing: a stop at a moment may leave exactly what the rules of a disk allow after the calls
    /// up to that moment.
    pub fn leaves(&self)
        ensures holds { (disk_of self.now).holds ≡ held_since disk_kind (disk_history self.now) }
        ensures left { (t : ℕ) (image : List ℕ) → (disk_of self.now).left t image
            ↔ MayLeave (unsynced_at t (disk_history self.now)) image }
    {}

    // A call with a moment.
    fn take(&mut self, moment: u128, deed: DiskDeed, done: bool) -> Result<(), DiskFault>
        requires moment { self.old.last < moment }
        requires fits { deed_fits self.old.bytes.items deed ≡ true }
        ensures asked { OnOk result (done ≡ true) }
        ensures done { OnOk result (self.new.bytes.items ≡ deed_done self.old.bytes.items deed) }
        ensures unchanged { OnErr result (self.new.bytes.items ≡ self.old.bytes.items) }
        ensures sure { OnOk result ((t : ℕ) (image : List ℕ) → moment < t →
            (disk_of self.new).left t image → IsSure deed true self.new.bytes.items image) }
        ensures acts { Acts moment (MayDo deed) (disk_of self.old) (disk_of self.new) }
        ensures cause { HasCause self.old.faults self.new.faults result }
        ensures faults { CountsFaults self.old.faults self.new.faults result }
        ensures schedule { self.new.schedule ≡ self.old.schedule }
        ensures recorded { Records moment (λ other. other ≡ deed)
            (disk_history self.old) (disk_history self.new) result }
    {
        let call = Call { moment, deed, done };
        match record(self.alloc, &mut self.calls, &mut self.bytes, call) {
            Ok(()) => {
                self.last = moment;
                if done {
                    return Ok(());
                }
                self.faults = self.faults.saturating_add(1);
                Err(DiskFault)
            }
            Err(_) => {
                self.last = moment;
                self.faults = self.faults.saturating_add(1);
                Err(DiskFault)
            }
        }
    }
}

// Records a call, and does its deed if it is not to fail.
fn record(
    alloc: Global,
    calls: &mut Vec<Call<DiskDeed>>,
    bytes: &mut Vec<u8>,
    call: Call<DiskDeed>,
) -> Result<(), AllocError>
    requires { deed_fits bytes.old.items call.deed ≡ true }
    ensures calls { OnOk result (calls.new.items ≡ calls.old.items ++ call ∷ []) }
    ensures bytes { OnOk result (bytes.new.items ≡ held_after disk_kind bytes.old.items call) }
    ensures err { OnErr result ((calls.new.items ≡ calls.old.items) × (bytes.new.items ≡ bytes.old.items)) }
{
    let done = call.done;
    let next = done_deed(alloc, bytes, &call.deed)?;
    calls.push(call)?;
    if done {
        *bytes = next;
    }
    Ok(())
}

// The bytes after a deed.
fn done_deed(alloc: Global, bytes: &[u8], deed: &DiskDeed) -> Result<Vec<u8>, AllocError>
    requires { deed_fits bytes.now deed.now ≡ true }
    ensures { IfOk result (λ next. next.items ≡ deed_done bytes.now deed.now) }
{
    match deed {
        DiskDeed::Write { at, bytes: written } => write_over(alloc, bytes, *at as usize, written),
        DiskDeed::Cut { len } => bytes[..*len as usize].to_vec(alloc),
        DiskDeed::Sync => bytes.to_vec(alloc),
    }
}

fn write_over(alloc: Global, bytes: &[u8], at: usize, written: &[u8]) -> Result<Vec<u8>, AllocError>
    requires { at ≤ length bytes.now }
    ensures { IfOk result (λ next. next.items ≡
        take at bytes.now ++ written.now ++ drop (at + length written.now) bytes.now) }
{
    let mut next = bytes[..at].to_vec(alloc)?;
    next.extend_from_slice(written)?;
    if written.len() < bytes.len() - at {
        next.extend_from_slice(&bytes[at + written.len()..])?;
    }
    Ok(next)
}

#[tactic(auto, unfolding(crate::specs::MemDisk::disk_of))]
impl Disk for MemDisk {
    ghost use Rattle.grid_outside.specs.Device.{Acts, Looks, IsSettled};
    ghost use Rattle.grid_outside.specs.Disk.{ReadsAt, Holds, Torn, Cut, Same};
    ghost use Rattle.grid_outside.specs.Fault.{HasCause};
    ghost use Rattle.grid_mem.specs.MemDisk.{disk_of, disk_history, disk_schedule};
    ghost use Rattle.grid_mem.specs.DiskCalls.{IsWrite};
    ghost use Rattle.grid_mem.specs.Schedule.{CountsFaults, FailsAsListed, FailsIfListed};

    ghost disk = { disk_of };

    /// Fails only where its number is listed.
    fn len(&mut self) -> Result<u64, DiskFault>
        ensures length { IfOk result (λ n. IsTrue (disk_of self.old).tells →
            n ≡ length (disk_of self.old).holds) }
        ensures looks { Looks (disk_of self.old) (disk_of self.new) }
        ensures history { disk_history self.new ≡ disk_history self.old }
        ensures cause { HasCause (disk_of self.old).faults (disk_of self.new).faults result }
        ensures faults { CountsFaults (disk_of self.old).faults (disk_of self.new).faults result }
        ensures listed { FailsAsListed (disk_schedule self.old) (disk_schedule self.new) result }
    {
        if self.schedule.admits_next() {
            return Ok(self.bytes.len() as u64);
        }
        self.faults = self.faults.saturating_add(1);
        Err(DiskFault)
    }

    /// Fails only where its number is listed.
    fn read(&mut self, at: u64, buf: &mut [u8]) -> Result<usize, DiskFault>
        ensures count { IfOk result (λ n. n ≤ length buf.new) }
        ensures bytes { IfOk result (λ n. IsTrue (disk_of self.old).tells →
            ReadsAt (disk_of self.old).holds at n buf.new) }
        ensures looks { Looks (disk_of self.old) (disk_of self.new) }
        ensures history { disk_history self.new ≡ disk_history self.old }
        ensures cause { HasCause (disk_of self.old).faults (disk_of self.new).faults result }
        ensures faults { CountsFaults (disk_of self.old).faults (disk_of self.new).faults result }
        ensures listed { FailsAsListed (disk_schedule self.old) (disk_schedule self.new) result }
    {
        if !self.schedule.admits_next() {
            self.faults = self.faults.saturating_add(1);
            return Err(DiskFault);
        }
        Ok(read_at(&self.bytes, at, buf))
    }

    /// Fails where its number is listed or memory is short.
    fn write_at(&mut self, moment: u128, at: u64, bytes: &[u8]) -> Result<(), DiskFault>
        requires moment { (disk_of self.old).last < moment }
        requires start { IsTrue (disk_of self.old).tells → at ≤ length (disk_of self.old).holds }
        requires end { at + length bytes.now ≤ 2 ^ 63 }
        ensures written { OnOk result (IsTrue (disk_of self.old).tells →
            Holds at bytes.now (disk_of self.old).holds (disk_of self.new).holds) }
        ensures unchanged { OnErr result ((disk_of self.new).holds ≡ (disk_of self.old).holds) }
        ensures acts { Acts moment (Torn at (length bytes.now)) (disk_of self.old) (disk_of self.new) }
        ensures cause { HasCause (disk_of self.old).faults (disk_of self.new).faults result }
        ensures faults { CountsFaults (disk_of self.old).faults (disk_of self.new).faults result }
        ensures listed { FailsIfListed (disk_schedule self.old) (disk_schedule self.new) result }
        ensures recorded { Records moment (IsWrite at bytes.now)
            (disk_history self.old) (disk_history self.new) result }
    {
        let done = self.schedule.admits_next();
        let Ok(copy) = bytes.to_vec(self.alloc) else {
            self.last = moment;
            self.faults = self.faults.saturating_add(1);
            return Err(DiskFault);
        };
        let deed = DiskDeed::Write { at, bytes: copy };
        self.take(moment, deed, done)
    }

    /// Fails where its number is listed or memory is short.
    fn cut(&mut self, moment: u128, len: u64) -> Result<(), DiskFault>
        requires moment { (disk_of self.old).last < moment }
        requires len { IsTrue (disk_of self.old).tells → len ≤ length (disk_of self.old).holds }
        ensures cut { OnOk result (IsTrue (disk_of self.old).tells →
            (disk_of self.new).holds ≡ take len (disk_of self.old).holds) }
        ensures unchanged { OnErr result ((disk_of self.new).holds ≡ (disk_of self.old).holds) }
        ensures acts { Acts moment (Cut len) (disk_of self.old) (disk_of self.new) }
        ensures cause { HasCause (disk_of self.old).faults (disk_of self.new).faults result }
        ensures faults { CountsFaults (disk_of self.old).faults (disk_of self.new).faults result }
        ensures listed { FailsIfListed (disk_schedule self.old) (disk_schedule self.new) result }
        ensures recorded { Records moment (λ deed. deed ≡ DiskDeed.Cut len)
            (disk_history self.old) (disk_history self.new) result }
    {
        let done = self.schedule.admits_next();
        self.take(moment, DiskDeed::Cut { len }, done)
    }

    /// Fails where its number is listed or memory is short.
    fn sync(&mut self, moment: u128) -> Result<(), DiskFault>
        requires { (disk_of self.old).last < moment }
        ensures settled { OnOk result (IsTrue (disk_of self.old).tells → IsSettled (disk_of self.new)) }
        ensures unchanged { OnErr result ((disk_of self.new).holds ≡ (disk_of self.old).holds) }
        ensures acts { Acts moment Same (disk_of self.old) (disk_of self.new) }
        ensures cause { HasCause (disk_of self.old).faults (disk_of self.new).faults result }
        ensures faults { CountsFaults (disk_of self.old).faults (disk_of self.new).faults result }
        ensures listed { FailsIfListed (disk_schedule self.old) (disk_schedule self.new) result }
        ensures recorded { Records moment (λ deed. deed ≡ DiskDeed.Sync)
            (disk_history self.old) (disk_history self.new) result }
    {
        let done = self.schedule.admits_next();
        self.take(moment, DiskDeed::Sync, done)
    }
}

ghost use Rattle.std.specs.Prelude.{◌≡◌, ◌↔◌, ℕ, ◌+◌, ◌/◌, ◌<◌, ◌≤◌, true, [], ◌∷◌, ◌++◌, List, length, take, OnOk, OnErr, IfOk, IsTrue};
ghost use Rattle.grid_mem.specs.Calls.{is_record, held, held_after, held_since, Records};
ghost use Rattle.grid_mem.specs.SinkCalls.{sink_kind};

use crate::{Call, Schedule};
use grid_outside::{Sink, SinkFault};
use std::alloc::{AllocError, Global};

/// A sink in memory. It is made from contents and the numbers of the calls that are to fail. A put that is to fail
/// adds the first half of its bytes, rounded down. Where there is no memory for a put, it fails, adds nothing and is
/// not recorded.
#[derive(Drop)]
pub struct MemSink {
    alloc: Global,
    start: Vec<u8>,
    bytes: Vec<u8>,
    calls: Vec<Call<Vec<u8>>>,
    last: u128,
    faults: u64,
    schedule: Schedule,
    ghost valid: { is_record sink_kind 0 last start.items calls.items ≡ true },
    ghost same: { bytes.items ≡ held sink_kind start.items calls.items },
}

#[tactic(auto, unfolding(crate::specs::MemSink::sink_of))]
impl MemSink {
    ghost use Rattle.grid_outside.specs.Device.{Acts, IsSettled};
    ghost use Rattle.grid_outside.specs.Fault.{HasCause};
    ghost use Rattle.grid_outside.specs.Sink.{AddsPart};
    ghost use Rattle.grid_mem.specs.Device.{IsNew};
    ghost use Rattle.grid_mem.specs.SinkCalls.{MayStand, putting_at, AddsHalf};
    ghost use Rattle.grid_mem.specs.MemSink.{sink_of, sink_history, sink_schedule};
    ghost use Rattle.grid_mem.specs.Schedule.{IsFresh, CountsFaults};

    /// A sink that holds these bytes. Its calls of these numbers, from 1, are to fail. The only error is want of
    /// memory.
    pub fn new(alloc: Global, bytes: Vec<u8>, fails: Vec<u64>) -> Result<MemSink, AllocError>
        ensures new { IfOk result (λ sink. IsNew bytes.items (sink_of sink)) }
        ensures history { IfOk result (λ sink. sink_history sink ≡ record { start = bytes.items; calls = [] }) }
        ensures schedule { IfOk result (λ sink. IsFresh fails.items (sink_schedule sink)) }
    {
        let start = bytes.as_slice().to_vec(alloc)?;
        Ok(MemSink {
            alloc,
            start,
            bytes,
            calls: Vec::new(alloc),
            last: 0,
            faults: 0,
            schedule: Schedule { fails, made: 0 },
        })
    }

    /// What it holds.
    pub fn bytes(&self) -> &[u8]
        ensures { result.now ≡ (sink_of self.now).holds }
    {
        &self.bytes
    }

    /// Its puts, in order.
    pub fn calls(&self) -> &[Call<Vec<u8>>]
        ensures { result.now ≡ (sink_history self.now).calls }
    {
        &self.calls
    }

    /// A law, which does nothing: a stop at a put's own moment may leave exactly what was held before with any first
    /// part of its bytes, and a stop at another moment exactly what is held then.
    pub fn leaves(&self)
        ensures holds { (sink_of self.now).holds ≡ held_since sink_kind (sink_history self.now) }
        ensures left { (t : ℕ) (image : List ℕ) → (sink_of self.now).left t image
            ↔ MayStand (putting_at t (sink_history self.now)) image }
    {}

    // A call with a moment.
    fn take(&mut self, moment: u128, deed: Vec<u8>, done: bool) -> Result<(), SinkFault>
        requires { self.old.last < moment }
        ensures asked { OnOk result (done ≡ true) }
        ensures added { OnOk result (self.new.bytes.items ≡ self.old.bytes.items ++ deed.items) }
        ensures half { OnErr result (AddsHalf deed.items self.old.bytes.items self.new.bytes.items) }
        ensures settled { IsSettled (sink_of self.new) }
        ensures acts { Acts moment (AddsPart deed.items) (sink_of self.old) (sink_of self.new) }
        ensures cause { HasCause self.old.faults self.new.faults result }
        ensures faults { CountsFaults self.old.faults self.new.faults result }
        ensures schedule { self.new.schedule ≡ self.old.schedule }
        ensures recorded { Records moment (λ other. other ≡ deed)
            (sink_history self.old) (sink_history self.new) result }
    {
        let call = Call { moment, deed, done };
        match record(self.alloc, &mut self.calls, &mut self.bytes, call) {
            Ok(()) => {
                self.last = moment;
                if done {
                    return Ok(());
                }
                self.faults = self.faults.saturating_add(1);
                Err(SinkFault)
            }
            Err(_) => {
                self.last = moment;
                self.faults = self.faults.saturating_add(1);
                Err(SinkFault)
            }
        }
    }
}

// Records a put, and adds its bytes or, if it is to fail, the first half of them.
fn record(
    alloc: Global,
    calls: &mut Vec<Call<Vec<u8>>>,
    bytes: &mut Vec<u8>,
    call: Call<Vec<u8>>,
) -> Result<(), AllocError>
    ensures calls { OnOk result (calls.new.items ≡ calls.old.items ++ call ∷ []) }
    ensures bytes { OnOk result (bytes.new.items ≡ held_after sink_kind bytes.old.items call) }
    ensures err { OnErr result ((calls.new.items ≡ calls.old.items) × (bytes.new.items ≡ bytes.old.items)) }
{
    let mut next = bytes.as_slice().to_vec(alloc)?;
    let put = &call.deed;
    if call.done {
        next.extend_from_slice(put)?;
    } else {
        next.extend_from_slice(&put[..put.len() / 2])?;
    }
    calls.push(call)?;
    *bytes = next;
    Ok(())
}

#[tactic(auto, unfolding(crate::specs::MemSink::sink_of))]
impl Sink for MemSink {
    ghost use Rattle.grid_outside.specs.Device.{Acts, IsSettled};
    ghost use Rattle.grid_outside.specs.Fault.{HasCause};
    ghost use Rattle.grid_outside.specs.Sink.{AddsPart};
    ghost use Rattle.grid_mem.specs.MemSink.{sink_of, sink_history, sink_schedule};
    ghost use Rattle.grid_mem.specs.SinkCalls.{AddsHalf};
    ghost use Rattle.grid_mem.specs.Schedule.{CountsFaults, FailsIfListed};

    ghost sink = { sink_of };

    /// Fails where its number is listed or memory is short.
    fn put(&mut self, moment: u128, bytes: &[u8]) -> Result<(), SinkFault>
        requires { (sink_of self.old).last < moment }
        ensures added { OnOk result (IsTrue (sink_of self.old).tells →
            (sink_of self.new).holds ≡ (sink_of self.old).holds ++ bytes.now) }
        ensures half { OnErr result (AddsHalf bytes.now (sink_of self.old).holds (sink_of self.new).holds) }
        ensures settled { IsTrue (sink_of self.old).tells → IsSettled (sink_of self.new) }
        ensures acts { Acts moment (AddsPart bytes.now) (sink_of self.old) (sink_of self.new) }
        ensures cause { HasCause (sink_of self.old).faults (sink_of self.new).faults result }
        ensures faults { CountsFaults (sink_of self.old).faults (sink_of self.new).faults result }
        ensures listed { FailsIfListed (sink_schedule self.old) (sink_schedule self.new) result }
        ensures recorded { Records moment (λ put. put.items ≡ bytes.now)
            (sink_history self.old) (sink_history self.new) result }
    {
        let done = self.schedule.admits_next();
        let Ok(deed) = bytes.to_vec(self.alloc) else {
            self.last = moment;
            self.faults = self.faults.saturating_add(1);
            return Err(SinkFault);
        };
        self.take(moment, deed, done)
    }
}

ghost use Rattle.std.specs.Prelude.{◌≡◌, ◌↔◌, ◌⊎◌, ℕ, ◌+◌, ◌^◌, ◌<◌, ◌≤◌, true, false, [], ◌∷◌, ◌++◌, ◌&&◌, length, OnOk, OnErr, IfOk};
ghost use Rattle.std.specs.Prelude.{IsErr, IsTrue, is_none, Some, None};
ghost use Rattle.grid_outside.specs.Files.{File, Files, file_at};
ghost use Rattle.grid_mem.specs.Calls.{is_record, held, held_after, held_since, Records};
ghost use Rattle.grid_mem.specs.FilesCode.{files_prop};
ghost use Rattle.grid_mem.specs.MemFiles.{contents};
ghost use Rattle.grid_mem.specs.StoreCalls.{store_kind, store_fits, store_done, IsDoneIfFit, StoreMay, StoreSure};

use crate::reading::read_at;
use crate::watch::Watch;
use crate::{Call, Lies, MemFiles, Schedule, StoreDeed, StoreRecord};
use grid_outside::{Plugin, StoreFault};
use std::alloc::{AllocError, Global};
use std::cell::RefCell;
use std::rc::Rc;

/// A store in memory. It is made from files and the numbers of the calls that are to fail. A call that fails does
/// nothing to what is held, but a stop may leave any part of it. Where there is no memory for a call, it fails and
/// is not recorded.
#[derive(Drop)]
pub struct MemStore {
    alloc: Global,
    history: StoreRecord,
    files: MemFiles,
    last: u128,
    faults: u64,
    schedule: Schedule,
    lies: Option<Lies>,
    watch: Watch,
    ghost valid: { is_record store_kind 0 last (contents history.start) history.calls.items ≡ true },
    ghost same: { contents files ≡ held store_kind (contents history.start) history.calls.items } by { files_prop _ _ },
}

#[tactic(auto, unfolding(crate::specs::MemStore::store_of))]
impl MemStore {
    ghost use Rattle.grid_outside.specs.Device.{Acts};
    ghost use Rattle.grid_outside.specs.Fault.{HasCause};
    ghost use Rattle.grid_mem.specs.Device.{IsNew};
    ghost use Rattle.grid_mem.specs.MemStore.{store_of, store_history, store_schedule, lies_of, is_lying};
    ghost use Rattle.grid_mem.specs.Schedule.{IsFresh, CountsFaults};
    ghost use Rattle.grid_mem.specs.StoreCalls.{MayBeFiles, known_files_at};

    /// A store that holds these files. Its calls of these numbers, from 1, are to fail. The only error is want of
    /// memory.
    pub fn new(alloc: Global, files: MemFiles, fails: Vec<u64>) -> Result<MemStore, AllocError>
        ensures new { IfOk result (λ store. IsNew (contents files) (store_of store)) }
        ensures history { IfOk result (λ store. store_history store ≡
            record { start = contents files; calls = [] }) }
        ensures schedule { IfOk result (λ store. IsFresh fails.items (store_schedule store)) }
    {
        let start = files.clone()?;
        Ok(MemStore {
            alloc,
            history: StoreRecord::new(alloc, start),
            files,
            last: 0,
            faults: 0,
            schedule: Schedule { fails, made: 0 },
            lies: None,
            watch: Watch::none(),
        })
    }

    /// A store as `new` makes it, which adds a copy of each call with a moment to this record. Where the record is
    /// borrowed at that time or memory is short, it adds nothing.
    pub fn watched(
        alloc: Global,
        files: MemFiles,
        fails: Vec<u64>,
        watch: Rc<RefCell<StoreRecord>>,
    ) -> Result<MemStore, AllocError>
        ensures new { IfOk result (λ store. IsNew (contents files) (store_of store)) }
        ensures history { IfOk result (λ store. store_history store ≡
            record { start = contents files; calls = [] }) }
        ensures schedule { IfOk result (λ store. IsFresh fails.items (store_schedule store)) }
    {
        let mut store = MemStore::new(alloc, files, fails)?;
        store.watch = Watch::on(watch);
        Ok(store)
    }

    /// The same store, which tells such lies from then on.
    pub fn lying(self, lies: Lies) -> MemStore
        ensures tells { (store_of result).tells ≡ false }
        ensures holds { (store_of result).holds ≡ (store_of self).holds }
        ensures last { (store_of result).last ≡ (store_of self).last }
        ensures faults { (store_of result).faults ≡ (store_of self).faults }
        ensures history { store_history result ≡ store_history self }
        ensures schedule { store_schedule result ≡ store_schedule self }
        ensures lies { lies_of result ≡ Some lies }
    {
        let mut store = self;
        store.lies = Some(lies);
        store
    }

    /// What it holds.
    pub fn files(&self) -> &MemFiles
        ensures { contents result.now ≡ (store_of self.now).holds }
    {
        &self.files
    }

    /// A law, which does nothing: a stop at a moment may leave exactly the files of which each is as the rules of a
    /// store allow after the calls up to that moment.
    pub fn leaves(&self)
        ensures holds { (store_of self.now).holds ≡ held_since store_kind (store_history self.now) }
        ensures left { (t : ℕ) (image : Files) → (store_of self.now).left t image
            ↔ MayBeFiles (known_files_at t (store_history self.now)) image }
    {}

    // Whether the next call lies about the file of this name.
    fn lies_about(&self, name: u64) -> bool
        ensures { result ≡ is_lying self.now name }
    {
        match &self.lies {
            Some(lies) => lies.from <= self.schedule.next_number() && lies.names.contains(&name),
            None => false,
        }
    }

    // A call with a moment.
    fn take(&mut self, moment: u128, deed: StoreDeed, admitted: bool) -> Result<(), StoreFault>
        requires { self.old.last < moment }
        ensures asked { OnOk result (admitted ≡ true) }
        ensures fitted { OnOk result (store_fits (contents self.old.files) deed ≡ true) }
        ensures done { OnOk result (contents self.new.files ≡ store_done (contents self.old.files) deed) }
        ensures unchanged { OnErr result (contents self.new.files ≡ contents self.old.files) }
        ensures sure { OnOk result ((t : ℕ) (image : Files) → moment < t →
            (store_of self.new).left t image → StoreSure deed true (contents self.new.files) image) }
        ensures acts { Acts moment (StoreMay deed) (store_of self.old) (store_of self.new) }
        ensures cause { HasCause self.old.faults self.new.faults result }
        ensures faults { CountsFaults self.old.faults self.new.faults result }
        ensures schedule { self.new.schedule ≡ self.old.schedule }
        ensures lies { lies_of self.new ≡ lies_of self.old }
        ensures recorded { Records moment (λ other. other ≡ deed)
            (store_history self.old) (store_history self.new) result }
    {
        let asked = Call {
            moment,
            deed,
            done: admitted,
        };
        let recorded = record_call(
            self.alloc,
            &mut self.history.calls,
            &mut self.files,
            &self.watch,
            asked,
        );
        match recorded {
            Ok(done) => {
                self.last = moment;
                if done {
                    return Ok(());
                }
                self.faults = self.faults.saturating_add(1);
                Err(StoreFault)
            }
            Err(_) => {
                self.last = moment;
                self.faults = self.faults.saturating_add(1);
                Err(StoreFault)
            }
        }
    }
}

#[tactic(auto, unfolding(crate::specs::MemStore::store_of))]
impl Plugin for MemStore {
    ghost use Rattle.grid_outside.specs.Device.{Acts, Looks};
    ghost use Rattle.grid_outside.specs.Fault.{HasCause};
    ghost use Rattle.grid_outside.specs.Files.{Writes, Removes, Created, Appended, Finished, IsGone, ReadsFile, HasSize};
    ghost use Rattle.grid_outside.specs.Disk.{ReadsAt};
    ghost use Rattle.grid_mem.specs.MemStore.{store_of, store_history, store_schedule, lies_of, is_lying};
    ghost use Rattle.grid_mem.specs.StoreCalls.{IsAppend};
    ghost use Rattle.grid_mem.specs.Schedule.{CountsFaults, FailsIfListed, FailsIfListedOr};

    ghost plugin = { store_of };

    /// Fails where its number is listed, there is such a file or memory is short.
    fn create(&mut self, moment: u128, name: u64) -> Result<(), StoreFault>
        requires { (store_of self.old).last < moment }
        ensures created { OnOk result (IsTrue (store_of self.old).tells →
            Created name (store_of self.old).holds (store_of self.new).holds) }
        ensures unchanged { OnErr result ((store_of self.new).holds ≡ (store_of self.old).holds) }
        ensures acts { Acts moment (Writes name) (store_of self.old) (store_of self.new) }
        ensures cause { HasCause (store_of self.old).faults (store_of self.new).faults result }
        ensures faults { CountsFaults (store_of self.old).faults (store_of self.new).faults result }
        ensures listed { FailsIfListed (store_schedule self.old) (store_schedule self.new) result }
        ensures lies { lies_of self.new ≡ lies_of self.old }
        ensures recorded { Records moment (λ deed. deed ≡ StoreDeed.Create name)
            (store_history self.old) (store_history self.new) result }
    {
        let admitted = self.schedule.admits_next();
        self.take(moment, StoreDeed::Create { name }, admitted)?;
        Ok(())
    }

    /// Fails where its number is listed, there is no such file, it is finished or would get too long, or memory is
    /// short.
    fn append(&mut self, moment: u128, name: u64, bytes: &[u8]) -> Result<(), StoreFault>
        requires { (store_of self.old).last < moment }
        ensures appended { OnOk result (IsTrue (store_of self.old).tells →
            Appended name bytes.now (store_of self.old).holds (store_of self.new).holds) }
        ensures unchanged { OnErr result ((store_of self.new).holds ≡ (store_of self.old).holds) }
        ensures acts { Acts moment (Writes name) (store_of self.old) (store_of self.new) }
        ensures cause { HasCause (store_of self.old).faults (store_of self.new).faults result }
        ensures faults { CountsFaults (store_of self.old).faults (store_of self.new).faults result }
        ensures listed { FailsIfListed (store_schedule self.old) (store_schedule self.new) result }
        ensures lies { lies_of self.new ≡ lies_of self.old }
        ensures recorded { Records moment (IsAppend name bytes.now)
            (store_history self.old) (store_history self.new) result }
    {
        let admitted = self.schedule.admits_next();
        let Ok(copy) = bytes.to_vec(self.alloc) else {
            self.last = moment;
            self.faults = self.faults.saturating_add(1);
            return Err(StoreFault);
        };
        let deed = StoreDeed::Append { name, bytes: copy };
        self.take(moment, deed, admitted)?;
        Ok(())
    }

    /// Fails where its number is listed, there is no such file, it is finished or memory is short.
    fn finish(&mut self, moment: u128, name: u64) -> Result<(), StoreFault>
        requires { (store_of self.old).last < moment }
        ensures finished { OnOk result (IsTrue (store_of self.old).tells →
            Finished name (store_of self.old) (store_of self.new)) }
        ensures unchanged { OnErr result ((store_of self.new).holds ≡ (store_of self.old).holds) }
        ensures acts { Acts moment (Writes name) (store_of self.old) (store_of self.new) }
        ensures cause { HasCause (store_of self.old).faults (store_of self.new).faults result }
        ensures faults { CountsFaults (store_of self.old).faults (store_of self.new).faults result }
        ensures listed { FailsIfListed (store_schedule self.old) (store_schedule self.new) result }
        ensures lies { lies_of self.new ≡ lies_of self.old }
        ensures recorded { Records moment (λ deed. deed ≡ StoreDeed.Finish name)
            (store_history self.old) (store_history self.new) result }
    {
        let admitted = self.schedule.admits_next();
        self.take(moment, StoreDeed::Finish { name }, admitted)?;
        Ok(())
    }

    /// Fills the buffer as far as the file goes, or answers 0 where it lies about the file. Fails only where its
    /// number is listed or there is no such file.
    fn read(&mut self, name: u64, at: u64, buf: &mut [u8]) -> Result<usize, StoreFault>
        ensures count { IfOk result (λ n. n ≤ length buf.new) }
        ensures bytes { IfOk result (λ n. IsTrue (store_of self.old).tells →
            ReadsFile name at n (store_of self.old).holds buf.new) }
        ensures looks { Looks (store_of self.old) (store_of self.new) }
        ensures history { store_history self.new ≡ store_history self.old }
        ensures cause { HasCause (store_of self.old).faults (store_of self.new).faults result }
        ensures faults { CountsFaults (store_of self.old).faults (store_of self.new).faults result }
        ensures listed { FailsIfListedOr (store_schedule self.old) (store_schedule self.new)
            (file_at (store_of self.old).holds name ≡ None) result }
        ensures lies { lies_of self.new ≡ lies_of self.old }
        ensures truth { IfOk result (λ n. is_lying self.old name ≡ false →
            ReadsFile name at n (store_of self.old).holds buf.new) }
        ensures fills { IfOk result (λ n. is_lying self.old name ≡ false → (file : File) →
            file_at (store_of self.old).holds name ≡ Some file → ReadsAt file.bytes at n buf.new) }
        ensures lie { IfOk result (λ n. is_lying self.old name ≡ true → n ≡ 0) }
    {
        let lying = self.lies_about(name);
        let admitted = self.schedule.admits_next();
        match self.files.find(name) {
            Some(_) if admitted && lying => Ok(0),
            Some(file) if admitted => Ok(read_at(&file.bytes, at, buf)),
            _ => {
                self.faults = self.faults.saturating_add(1);
                Err(StoreFault)
            }
        }
    }

    /// How many bytes the file has, or 0 where it lies about the file. Fails only where its number is listed or there
    /// is no such file.
    fn size(&mut self, name: u64) -> Result<u64, StoreFault>
        ensures size { IfOk result (λ n. IsTrue (store_of self.old).tells →
            HasSize name n (store_of self.old).holds) }
        ensures looks { Looks (store_of self.old) (store_of self.new) }
        ensures history { store_history self.new ≡ store_history self.old }
        ensures cause { HasCause (store_of self.old).faults (store_of self.new).faults result }
        ensures faults { CountsFaults (store_of self.old).faults (store_of self.new).faults result }
        ensures listed { FailsIfListedOr (store_schedule self.old) (store_schedule self.new)
            (file_at (store_of self.old).holds name ≡ None) result }
        ensures lies { lies_of self.new ≡ lies_of self.old }
        ensures truth { IfOk result (λ n. is_lying self.old name ≡ false →
            HasSize name n (store_of self.old).holds) }
        ensures lie { IfOk result (λ n. is_lying self.old name ≡ true → n ≡ 0) }
    {
        let lying = self.lies_about(name);
        let admitted = self.schedule.admits_next();
        match self.files.find(name) {
            Some(_) if admitted && lying => Ok(0),
            Some(file) if admitted => Ok(file.bytes.len() as u64),
            _ => {
                self.faults = self.faults.saturating_add(1);
                Err(StoreFault)
            }
        }
    }

    /// Fails only where its number is listed or memory is short.
    fn remove(&mut self, moment: u128, name: u64) -> Result<(), StoreFault>
        requires { (store_of self.old).last < moment }
        ensures gone { OnOk result (IsTrue (store_of self.old).tells → IsGone name (store_of self.new)) }
        ensures unchanged { OnErr result ((store_of self.new).holds ≡ (store_of self.old).holds) }
        ensures acts { Acts moment (Removes name) (store_of self.old) (store_of self.new) }
        ensures cause { HasCause (store_of self.old).faults (store_of self.new).faults result }
        ensures faults { CountsFaults (store_of self.old).faults (store_of self.new).faults result }
        ensures listed { FailsIfListed (store_schedule self.old) (store_schedule self.new) result }
        ensures lies { lies_of self.new ≡ lies_of self.old }
        ensures recorded { Records moment (λ deed. deed ≡ StoreDeed.Remove name)
            (store_history self.old) (store_history self.new) result }
    {
        let admitted = self.schedule.admits_next();
        self.take(moment, StoreDeed::Remove { name }, admitted)?;
        Ok(())
    }
}

// Does a deed that is not to fail where its file is in the state that it needs, records the call, and says whether it
// was done.
fn record_call(
    alloc: Global,
    calls: &mut Vec<Call<StoreDeed>>,
    files: &mut MemFiles,
    watch: &Watch,
    asked: Call<StoreDeed>,
) -> Result<bool, AllocError>
    ensures done { IfOk result (λ done. done ≡ (asked.done && store_fits (contents files.old) asked.deed)) }
    ensures calls { IfOk result (λ done. calls.new.items ≡
        calls.old.items ++ record asked { done = done } ∷ []) }
    ensures files { IfOk result (λ done. contents files.new ≡
        held_after store_kind (contents files.old) (record asked { done = done })) }
    ensures err { OnErr result ((calls.new.items ≡ calls.old.items) × (contents files.new ≡
        contents files.old)) }
{
    calls.reserve(1)?;
    let Call {
        moment,
        deed,
        done: admitted,
    } = asked;
    let done = apply_if(admitted, alloc, files, &deed)?;
    let call = Call { moment, deed, done };
    watch.note(&call);
    let Ok(()) = calls.push(call) else {
        unreachable!()
    };
    Ok(done)
}

// Does a deed that is not to fail where its file is in the state that it needs, and says whether it did.
fn apply_if(
    admitted: bool,
    alloc: Global,
    files: &mut MemFiles,
    deed: &StoreDeed,
) -> Result<bool, AllocError>
    ensures ok { IfOk result (λ done. IsDoneIfFit (admitted && store_fits (contents files.old) deed.now)
        (store_done (contents files.old) deed.now)
        (contents files.old) done (contents files.new)) }
    ensures err { OnErr result (contents files.new ≡ contents files.old) }
{
    if admitted {
        return files.apply(alloc, deed);
    }
    Ok(false)
}

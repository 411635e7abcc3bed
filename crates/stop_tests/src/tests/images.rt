// What a stop leaves, by the records of the devices: all calls that are over, as far as they are sure, and a part of the one
// that is being made.
use super::serving::{Left, Served, Watch, begun, serve};
use super::session::{replies, requests};
use grid_mem::{Call, DiskDeed, MemFiles, StoreDeed, StoreRecord};
use std::alloc::{AllocError, Global};
use std::mem::forget;
use std::process::Abort;
use std::test::Fail;

// How much is left of the call that a stop comes in, and of what is not sure yet: what main has not synced, and files that
// are not finished.
#[derive(Clone, Copy, Debug, PartialEq, Eq)]
pub(crate) enum Way {
    // Nothing of the call; all else.
    Before,
    // The first half of what main has not synced, or of the bytes that are put or appended; a file that is created or removed.
    Front,
    // The other half of what main has not synced, behind zeros; all of a put; more bytes than were appended; a file that is
    // created, finished or removed.
    Back,
    // Nothing of the call, nor of what is not sure.
    Lost,
}

pub(crate) const WAYS: [Way; 4] = [Way::Before, Way::Front, Way::Back, Way::Lost];

// A stop in the call of this moment; behind the last call, where no call has the moment.
#[derive(Clone, Copy, Debug, PartialEq, Eq)]
pub(crate) struct Stop {
    pub(crate) moment: u128,
    pub(crate) way: Way,
}

// How many calls a run made. Their moments are the numbers from 1 to this.
pub(crate) fn count_calls(served: &Served) -> Result<usize, Fail> {
    let mut count = served.main.calls().len();
    count = count.saturating_add(served.sink.calls().len());
    for watch in &served.stores {
        let record = watch.try_borrow()?;
        count = count.saturating_add(record.calls.len());
    }
    Ok(count)
}

// All stops of a run: in each way in each call, and behind the last one.
pub(crate) fn stops_of(alloc: Global, served: &Served) -> Result<Vec<Stop>, Fail> {
    let mut stops = Vec::new(alloc);
    let end = count_calls(served)?.saturating_add(1);
    for moment in 1..=end {
        for way in WAYS {
            stops.push(Stop {
                moment: moment as u128,
                way,
            })?;
        }
    }
    Ok(stops)
}

fn stores_at(alloc: Global, served: &Served, stop: Stop) -> Result<[MemFiles; 3], Fail> {
    let [first, second, third] = &served.stores;
    Ok([
        files_at(alloc, first, stop)?,
        files_at(alloc, second, stop)?,
        files_at(alloc, third, stop)?,
    ])
}

// What a stop in a run leaves.
pub(crate) fn left_at(alloc: Global, served: &Served, stop: Stop) -> Result<Left, Fail> {
    let main = main_at(alloc, &served.start, served.main.calls(), stop)?;
    let told = told_at(alloc, served.sink.calls(), stop)?;
    let stores = stores_at(alloc, served, stop)?;
    Ok(Left { main, stores, told })
}

// What a run leaves that was not stopped.
pub(crate) fn left_behind(alloc: Global, served: &Served) -> Result<Left, Fail> {
    let count = count_calls(served)?;
    let stop = Stop {
        moment: (count as u128).saturating_add(1),
        way: Way::Before,
    };
    left_at(alloc, served, stop)
}

// Serves these requests over what was left, by which this is told, and answers what that leaves.
pub(crate) fn serve_on(
    rt: &impl Abort,
    alloc: Global,
    left: &Left,
    input: &[u8],
    told: &[u8],
) -> Result<Left, Fail> {
    let served = serve(rt, alloc, left, input)?;
    assert_eq!(rt; served.sink.bytes(), told);
    let behind = left_behind(alloc, &served);
    forget(served);
    behind
}

// A new grid with three leaves and the replication over them.
pub(crate) fn with_leaves(rt: &impl Abort, alloc: Global) -> Result<Left, Fail> {
    let input = requests(alloc, 8)?;
    let told = replies(alloc, 8)?;
    let new = begun(rt, alloc)?;
    let left = serve_on(rt, alloc, &new, &input, &told);
    forget(new);
    left
}

// How many of these calls are over.
fn count_over(calls: &[Call<DiskDeed>], moment: u128) -> usize {
    let mut count: usize = 0;
    for call in calls {
        if call.moment < moment {
            count = count.saturating_add(1);
        }
    }
    count
}

// How many of the first so many calls there are up to the last sync.
fn count_synced(calls: &[Call<DiskDeed>], over: usize) -> usize {
    let mut synced: usize = 0;
    for (index, call) in calls.iter().take(over).enumerate() {
        if let DiskDeed::Sync = &call.deed {
            synced = index.saturating_add(1);
        }
    }
    synced
}

// The bytes with these ones written over them from this place on, which is in them or behind them.
fn write_over(bytes: &mut Vec<u8>, at: usize, written: &[u8]) -> Result<(), AllocError> {
    for (index, byte) in written.iter().enumerate() {
        match bytes.get_mut(at.saturating_add(index)) {
            Some(old) => *old = *byte,
            None => bytes.push(*byte)?,
        }
    }
    Ok(())
}

// What a disk holds after the first so many calls.
fn bytes_after(
    alloc: Global,
    start: &[u8],
    calls: &[Call<DiskDeed>],
    count: usize,
) -> Result<Vec<u8>, AllocError> {
    let mut bytes = start.to_vec(alloc)?;
    for call in calls.iter().take(count) {
        match &call.deed {
            DiskDeed::Write { at, bytes: written } => {
                write_over(&mut bytes, *at as usize, written)?
            }
            DiskDeed::Cut { len } => bytes.truncate(*len as usize),
            DiskDeed::Sync => {}
        }
    }
    Ok(bytes)
}

// How many bytes are the same at the front of both.
pub(crate) fn count_same(bytes: &[u8], others: &[u8]) -> usize {
    let mut count: usize = 0;
    for (byte, other) in bytes.iter().zip(others) {
        if byte != other {
            return count;
        }
        count = count.saturating_add(1);
    }
    count
}

// The middle of what was written behind the bytes that both share.
fn middle(sure: &[u8], begun: &[u8]) -> usize {
    let same = count_same(sure, begun);
    let more = begun.len().saturating_sub(same);
    same.saturating_add(more / 2)
}

// What is sure, with the first half of what was written since.
fn front_of(alloc: Global, sure: &[u8], begun: &[u8]) -> Result<Vec<u8>, AllocError> {
    let mut image = sure.to_vec(alloc)?;
    let (front, _) = begun.split_at(middle(sure, begun).min(begun.len()));
    write_over(&mut image, 0, front)?;
    Ok(image)
}

// What is sure, with the last half of what was written since, and zeros where there was nothing before it.
fn back_of(alloc: Global, sure: &[u8], begun: &[u8]) -> Result<Vec<u8>, AllocError> {
    let mut image = sure.to_vec(alloc)?;
    let (front, back) = begun.split_at(middle(sure, begun).min(begun.len()));
    for _ in image.len()..front.len() {
        image.push(0)?;
    }
    write_over(&mut image, front.len(), back)?;
    Ok(image)
}

// What a stop leaves of main, which held these bytes at first.
fn main_at(
    alloc: Global,
    start: &[u8],
    calls: &[Call<DiskDeed>],
    stop: Stop,
) -> Result<Vec<u8>, AllocError> {
    let over = count_over(calls, stop.moment);
    if stop.way == Way::Before {
        return bytes_after(alloc, start, calls, over);
    }
    let sure = bytes_after(alloc, start, calls, count_synced(calls, over))?;
    if stop.way == Way::Lost {
        return Ok(sure);
    }
    let with_this = count_over(calls, stop.moment.saturating_add(1));
    let begun = bytes_after(alloc, start, calls, with_this)?;
    if stop.way == Way::Front {
        return front_of(alloc, &sure, &begun);
    }
    back_of(alloc, &sure, &begun)
}

// What a stop leaves of a put.
fn part_of(bytes: &[u8], way: Way) -> &[u8] {
    let count = match way {
        Way::Before | Way::Lost => 0,
        Way::Front => bytes.len() / 2,
        Way::Back => bytes.len(),
    };
    let (part, _) = bytes.split_at(count.min(bytes.len()));
    part
}

// What a stop leaves of what was told.
fn told_at(alloc: Global, calls: &[Call<Vec<u8>>], stop: Stop) -> Result<Vec<u8>, AllocError> {
    let mut told = Vec::new(alloc);
    for call in calls {
        if call.moment < stop.moment {
            told.extend_from_slice(&call.deed)?;
        } else if call.moment == stop.moment {
            told.extend_from_slice(part_of(&call.deed, stop.way))?;
        }
    }
    Ok(told)
}

// What a stop leaves of the bytes of an append: some of them, or more.
fn part_of_append(alloc: Global, bytes: &[u8], way: Way) -> Result<Vec<u8>, AllocError> {
    let mut part = part_of(bytes, way).to_vec(alloc)?;
    if way == Way::Back {
        part.extend_from_slice(bytes)?;
    }
    Ok(part)
}

// What a stop leaves of this deed of a store, if anything.
fn part_of_deed(
    alloc: Global,
    deed: &StoreDeed,
    way: Way,
) -> Result<Option<StoreDeed>, AllocError> {
    if way == Way::Before || way == Way::Lost {
        return Ok(None);
    }
    match deed {
        StoreDeed::Append { name, bytes } => Ok(Some(StoreDeed::Append {
            name: *name,
            bytes: part_of_append(alloc, bytes, way)?,
        })),
        StoreDeed::Finish { name } => {
            Ok((way == Way::Back).then_some(StoreDeed::Finish { name: *name }))
        }
        StoreDeed::Create { name } => Ok(Some(StoreDeed::Create { name: *name })),
        StoreDeed::Remove { name } => Ok(Some(StoreDeed::Remove { name: *name })),
    }
}

// The files that are finished.
fn finished(alloc: Global, files: MemFiles) -> Result<MemFiles, AllocError> {
    let mut sure = Vec::new(alloc);
    for file in files.into_vec() {
        if file.finished {
            sure.push(file)?;
        }
    }
    Ok(MemFiles::new(sure))
}

// Adds what a stop leaves of this call of a store to those before it.
fn add_call(
    alloc: Global,
    call: &Call<StoreDeed>,
    stop: Stop,
    image: &mut StoreRecord,
) -> Result<(), AllocError> {
    if call.moment < stop.moment {
        image.calls.push(call.clone()?)?;
    } else if call.moment == stop.moment {
        if let Some(deed) = part_of_deed(alloc, &call.deed, stop.way)? {
            image.calls.push(Call {
                moment: call.moment,
                deed,
                done: true,
            })?;
        }
    }
    Ok(())
}

fn files_by(
    alloc: Global,
    calls: &[Call<StoreDeed>],
    stop: Stop,
    image: &mut StoreRecord,
) -> Result<MemFiles, Fail> {
    for call in calls {
        add_call(alloc, call, stop, image)?;
    }
    let files = image.files(alloc)?;
    if stop.way == Way::Lost {
        return Ok(finished(alloc, files)?);
    }
    Ok(files)
}

fn files_in(alloc: Global, record: &StoreRecord, stop: Stop) -> Result<MemFiles, Fail> {
    let mut image = StoreRecord::new(alloc, record.start.clone()?);
    let files = files_by(alloc, &record.calls, stop, &mut image);
    forget(image);
    files
}

// What a stop leaves of the files of a store.
fn files_at(alloc: Global, watch: &Watch, stop: Stop) -> Result<MemFiles, Fail> {
    let record = watch.try_borrow()?;
    files_in(alloc, &record, stop)
}

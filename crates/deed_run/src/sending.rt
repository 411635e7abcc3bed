ghost use Rattle.std.specs.Prelude.{◌≡◌, ◌⊎◌, ℕ, ◌+◌, ◌^◌, ◌<◌, ◌≤◌, [], IsErrOf, IsTrue, OnOk, Option, vec_len};
ghost use Rattle.grid_outside.specs.Source.{SourceState};
ghost use Rattle.grid_model.specs.DataLines.{parts};
ghost use Rattle.grid_model.specs.Names.{Text as TextOf, Path as PathOf};
ghost use Rattle.grid_model.specs.Rows.{Cat};
ghost use Rattle.plan_object.specs.Sending.{Sends};
ghost use Rattle.run_laws.specs.Around.{around};
ghost use Rattle.run_laws.specs.Passes.{AreReady, CallsPass};
ghost use Rattle.service_run.specs.Changes.{mark_fits};
ghost use Rattle.service_run.specs.SentFiles.{SendsFile};
ghost use Rattle.service_run.specs.declared.ending.Ending.{Ending};
ghost use Rattle.deed_run.specs.Sent.{TookMark, sent_mark, sent_ran};

use crate::marking::{fault_is_kept, ran_is_kept, take_mark};
use grid_model::{BadReplicas, Digest, Failure, Mark, OldFile, Refusal};
use grid_outside::{Ambient, Disk, Outside, Plugin, Sink};
use grid_vault::{SendError, Sent, send};
use plan_base::digest_is_kept;
use service_run::{Command, Ending};
use std::alloc::Global;

/// Sends a file as the deed of a get: a word and a time are drawn, its lines of data are put on the sink as they are read, and its mark is
/// then still to be told. Where the store fails, or the file is not what is recorded of it, the call is refused so. Main is not called.
///
/// The answer is how the call came out. An error ends the command: `Sink`, where the sink failed, behind a first part of the lines, and
/// `Memory`. Draws at most one moment for each part of the file, of 65,536 bytes, and so at most 2^49.
pub fn send_file<D: Disk, K: Sink, A: Ambient, P: Plugin>(
    alloc: Global,
    outside: &mut Outside<D, A, P>,
    sink: &mut K,
    command: &mut Command,
    file: &OldFile,
) -> Result<Result<(), Failure>, Ending>
    requires slot { file.now.slot < vec_len outside.old.stores }
    requires ready { AreReady D.disk P.plugin K.sink (2 ^ 49) (record { outside = outside.old; sink = sink.old }) }
    ensures sends { (source : SourceState) (rows : Cat) (user : TextOf) (path : PathOf) (asked : Option TextOf) → Sends rows user path asked file.now →
        SendsFile (around D.disk A.ambient P.plugin outside.old (K.sink sink.old) source) (around D.disk A.ambient P.plugin outside.new (K.sink sink.new) source)
        rows file.now command.old command.new result }
    ensures next { OnOk result (TookMark command.old command.new) }
    ensures main { outside.new.main ≡ outside.old.main }
    ensures errors { (e : Ending) → IsErrOf result e → (e ≡ Ending.Sink) ⊎ (e ≡ Ending.Memory) }
    ensures passes { CallsPass D.disk P.plugin K.sink (IsErrOf result Ending.Disk) (IsErrOf result Ending.Sink)
        (record { outside = outside.old; sink = sink.old }) (record { outside = outside.new; sink = sink.new }) }
    ensures drawn { outside.new.moments ≤ outside.old.moments + 2 ^ 49 }
    ensures few { outside.new.moments ≤ outside.old.moments + parts file.now.size }
{
    few_parts(file);
    let word = outside.ambient.word();
    let now = outside.ambient.now();
    let sent = match send(
        alloc,
        &mut outside.stores,
        &mut outside.moments,
        file,
        command.number,
        sink,
    ) {
        Ok(sent) => sent,
        Err(SendError::Sink) => return Err(Ending::Sink),
        Err(SendError::Memory) => return Err(Ending::Memory),
    };
    sent_is_kept(word, now, &sent);
    let mark = sent_mark(alloc, word, now, &sent);
    let Ok(()) = take_mark(alloc, command, mark) else {
        return Err(Ending::Memory);
    };
    Ok(sent_ran(file, &sent))
}

// A file has few parts. It does nothing.
fn few_parts(file: &OldFile)
    ensures { parts file.now.size ≤ 2 ^ 48 }
{
    let _size = file.size;
}

// The mark of a file that was sent so. It takes no memory.
fn sent_mark(alloc: Global, word: u64, now: u64, sent: &Sent) -> Mark
    ensures { result ≡ sent_mark word now sent.now }
{
    match sent {
        Sent::Whole => Mark::Ran {
            word,
            now,
            bad: BadReplicas::from_vec(Vec::new(alloc)),
        },
        Sent::Fault { slot, parts } => Mark::Fault {
            slot: *slot,
            parts: *parts,
        },
        Sent::Bad {
            slot,
            len,
            found,
            parts,
        } => Mark::Bad {
            slot: *slot,
            len: *len,
            found: *found,
            parts: *parts,
        },
    }
}

// Whether it ran, or why it was refused.
fn sent_ran(file: &OldFile, sent: &Sent) -> Result<(), Failure>
    ensures { result ≡ sent_ran file.now sent.now }
{
    match sent {
        Sent::Whole => Ok(()),
        Sent::Fault { slot, .. } => Err(Failure::Refused(Refusal::Fault { slot: *slot })),
        Sent::Bad {
            slot,
            len,
            found,
            ..
        } => Err(Failure::Refused(Refusal::Damaged {
            slot: *slot,
            size: file.size,
            digest: file.digest,
            len: *len,
            found: *found,
        })),
    }
}

// The mark of a file that was sent so may stand in the catalogue. It does nothing.
fn sent_is_kept(word: u64, now: u64, sent: &Sent)
    ensures { IsTrue (mark_fits (sent_mark word now sent.now)) }
{
    match sent {
        Sent::Whole => ran_is_kept(word, now),
        Sent::Fault { slot, parts } => fault_is_kept(*slot, *parts),
        Sent::Bad {
            slot,
            len,
            found,
            parts,
        } => bad_is_kept(*slot, *len, *found, *parts),
    }
}

// The mark of bytes that are not what is recorded may stand in the catalogue. It does nothing.
fn bad_is_kept(slot: u8, len: u64, found: Digest, parts: u64)
    ensures { IsTrue (mark_fits (Mark.Bad slot len found parts)) }
{
    digest_is_kept(found);
}

ghost use Rattle.std.specs.Prelude.{◌≡◌, ◌<◌, ◌^◌, IfOk, IsTrue, OnOk, length};
ghost use Rattle.grid_model.specs.Applying.{is_user};
ghost use Rattle.grid_model.specs.Deltas.{all_fit, call as call_parts, text};
ghost use Rattle.grid_model.specs.Names.{Text as TextOf, print_path};
ghost use Rattle.grid_model.specs.Operations.Table.{put as put_of, repl as repl_of};
ghost use Rattle.grid_model.specs.Rows.{Cat};
ghost use Rattle.grid_model.specs.Working.{print_mode, put_call, running};
ghost use Rattle.grid_model.specs.Writable.{is_word};
ghost use Rattle.grid_deed.specs.Held.{IsHeld, IsStaged};
ghost use Rattle.service_run.specs.Commands.{noted_in};
ghost use Rattle.service_run.specs.Noting.{with_pending};
ghost use Rattle.deed_run.specs.Puts.{MayBeNoted};

use grid_journal::Store;
use grid_model::{Call, Calls, Mode, Path, Text, Texts};
use grid_outside::{Ambient, Disk, Outside, Plugin};
use plan_list::{number_text, path_text};
use service_run::{Command, announce};
use std::alloc::{AllocError, Global};

/// The call of a put with a body of so many bytes. Fails for want of memory alone.
pub(crate) fn put_call(
    alloc: Global,
    path: &Path,
    resource: &Text,
    mode: Mode,
    size: u64,
) -> Result<Call, AllocError>
    ensures is { (body : TextOf) → length body ≡ size →
        IfOk result (λ call. call ≡ put_call (print_path path.now) resource.now mode body) }
    ensures fits { IsTrue (is_word resource.now) → IfOk result (λ call. IsTrue (all_fit (call_parts call))) }
{
    let name = Text::copy_of(alloc, b"put")?;
    let path = path_text(alloc, path)?;
    let resource = Text::copy_of(alloc, resource.as_slice())?;
    let mode = mode_text(alloc, mode)?;
    let size = number_text(alloc, size)?;
    word_is_text(name.as_slice());
    word_is_text(path.as_slice());
    word_is_text(resource.as_slice());
    word_is_text(mode.as_slice());
    word_is_text(size.as_slice());
    let args = vec![in alloc; path, resource, mode, size]?;
    Ok(Call {
        name,
        args: Texts::from_vec(args),
    })
}

/// The call of a repl. Fails for want of memory alone.
pub(crate) fn repl_call(alloc: Global, path: &Path, resource: &Text) -> Result<Call, AllocError>
    ensures is { IfOk result (λ call. call ≡ running (repl_of path.now resource.now)) }
    ensures fits { IsTrue (is_word resource.now) → IfOk result (λ call. IsTrue (all_fit (call_parts call))) }
{
    let name = Text::copy_of(alloc, b"msiDataObjRepl")?;
    let path = path_text(alloc, path)?;
    let resource = Text::copy_of(alloc, resource.as_slice())?;
    word_is_text(name.as_slice());
    word_is_text(path.as_slice());
    word_is_text(resource.as_slice());
    let args = vec![in alloc; path, resource]?;
    Ok(Call {
        name,
        args: Texts::from_vec(args),
    })
}

/// Has the command pending in memory, in the call of this put, where a stop would have these recoveries done. The next commit keeps that.
/// Nothing outside is called. Fails for want of memory alone.
pub(crate) fn announce_put<D: Disk, A: Ambient, P: Plugin>(
    alloc: Global,
    store: &mut Store,
    outside: &Outside<D, A, P>,
    command: &Command,
    path: &Path,
    resource: &Text,
    mode: Mode,
    body: &[u8],
    undo: &Calls,
) -> Result<(), AllocError>
    requires held { (kept : Cat) × IsHeld kept (D.disk outside.now.main) store.old }
    requires user { IsTrue (is_user store.old.cat command.now.user) }
    requires noted { MayBeNoted command.now undo.now }
    requires word { IsTrue (is_word resource.now) }
    ensures { (kept : Cat) → IsHeld kept (D.disk outside.now.main) store.old → OnOk result
        (IsStaged kept (with_pending store.old.cat (noted_in command.now (running (put_of path.now resource.now mode body.now)) undo.now))
        (D.disk outside.now.main) store.new) }
{
    let call = put_call(alloc, path, resource, mode, body.len() as u64)?;
    announce(alloc, store, outside, command, &call, undo)
}

// A mode as it is written. Fails for want of memory alone.
fn mode_text(alloc: Global, mode: Mode) -> Result<Text, AllocError>
    ensures text { IfOk result (λ text. text ≡ print_mode mode) }
    ensures word { IfOk result (λ text. IsTrue (is_word text)) }
{
    match mode {
        Mode::New => Text::copy_of(alloc, b"new"),
        Mode::Over => Text::copy_of(alloc, b"over"),
    }
}

// A word may stand in the catalogue. It does nothing.
fn word_is_text(word: &[u8])
    ensures { IsTrue (is_word word.now) → IsTrue (text word.now).fits }
{
    is_size(word.len());
}

// A number of bytes in memory is below 2^64. It does nothing.
fn is_size(len: usize)
    ensures { len < 2 ^ 64 }
{}

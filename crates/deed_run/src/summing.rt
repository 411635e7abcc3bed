ghost use Rattle.std.specs.Prelude.{◌≡◌, ℕ, ◌+◌, ◌^◌, ◌≤◌, Err, IfOk, IsErrOf, IsTrue, vec_len};
ghost use Rattle.std.specs.List.{list_all};
ghost use Rattle.grid_outside.specs.Source.{SourceState};
ghost use Rattle.grid_model.specs.Applying.{IsMade, is_user};
ghost use Rattle.grid_model.specs.Names.{Text as TextOf};
ghost use Rattle.grid_model.specs.Operations.Table.{chksum as chksum_of, row};
ghost use Rattle.grid_model.specs.RowGrids.{grid_of, user_name};
ghost use Rattle.grid_model.specs.Rows.{Cat};
ghost use Rattle.grid_model.specs.Working.{running, words_of};
ghost use Rattle.grid_model.specs.Writable.{is_word};
ghost use Rattle.grid_model.specs.declared.refusal.Refusal.{Refusal as RefusalOf};
ghost use Rattle.grid_deed.specs.Held.{IsHeld};
ghost use Rattle.run_laws.specs.Around.{around};
ghost use Rattle.run_laws.specs.Passes.{AreReady, CallsPass};
ghost use Rattle.size_laws.specs.Within.{TakesAtMost};
ghost use Rattle.service_run.specs.Steps.{IsStep};
ghost use Rattle.service_run.specs.declared.ending.Ending.{Ending};
ghost use Rattle.deed_run.specs.Puts.{MayBeNoted, does_op};

use crate::planning::find_files;
use grid_journal::Store;
use grid_model::{Calls, Failure, Path, PlanError, Texts};
use grid_outside::{Ambient, Disk, Outside, Plugin, Sink};
use grid_tables::Tables;
use plan_list::digest_text;
use service_run::{Command, Ending};
use std::alloc::{AllocError, Global};

/// Looks at all replicas of the object at the path that can be read, as a call of a command: those that are not as recorded are stale from
/// then on in memory, which the next commit keeps. Where a store fails it is refused. It notes nothing, and calls neither main nor the sink.
/// One that is refused whatever marks come takes none, and nothing outside is called.
///
/// The answer is how it came out. The only error is `Memory`.
pub fn chksum<D: Disk, K: Sink, A: Ambient, P: Plugin>(
    alloc: Global,
    store: &mut Store,
    outside: &mut Outside<D, A, P>,
    sink: &mut K,
    command: &mut Command,
    path: &Path,
    undo: &Calls,
) -> Result<Result<(), Failure>, Ending>
    requires held { (kept : Cat) × IsHeld kept (D.disk outside.old.main) store.old }
    requires user { IsTrue (is_user store.old.cat command.old.user) }
    requires noted { MayBeNoted command.old undo.now }
    requires slots { store.old.cat.stores ≡ vec_len outside.old.stores }
    requires ready { AreReady D.disk P.plugin K.sink (2 ^ 65) (record { outside = outside.old; sink = sink.old }) }
    ensures step { (source : SourceState) (kept : Cat) → IsHeld kept (D.disk outside.old.main) store.old →
        let op = chksum_of path.now in
        IsStep (around D.disk A.ambient P.plugin outside.old (K.sink sink.old) source) (around D.disk A.ambient P.plugin outside.new (K.sink sink.new) source)
        kept store.old command.old (running op) undo.now command.new store.new (does_op (user_name store.old.cat command.old.user) op) result }
    // One that is refused whatever marks come calls nothing and changes nothing.
    ensures refused { (r : RefusalOf) → row (grid_of store.old.cat) (user_name store.old.cat command.old.user) (chksum_of path.now) ≡ Err r →
        (store.new ≡ store.old) × (outside.new ≡ outside.old) × (sink.new ≡ sink.old) × (command.new ≡ command.old) }
    ensures passes { CallsPass D.disk P.plugin K.sink (IsErrOf result Ending.Disk) (IsErrOf result Ending.Sink)
        (record { outside = outside.old; sink = sink.old }) (record { outside = outside.new; sink = sink.new }) }
    ensures still { (outside.new.main ≡ outside.old.main) × (sink.new ≡ sink.old) }
    ensures errors { (e : Ending) → IsErrOf result e → e ≡ Ending.Memory }
    ensures drawn { (each : ℕ) → TakesAtMost (grid_of store.old.cat) each → outside.new.moments ≤ outside.old.moments + each }
{
    let _undo = undo;
    let files = match find_files(alloc, store, command.user, path) {
        Ok(files) => files,
        Err(PlanError::Refused(refusal)) => return Ok(Err(Failure::Refused(refusal))),
        Err(PlanError::Memory) => return Err(Ending::Memory),
    };
    service_run::chksum(alloc, store, outside, sink, command, path, &files)
}

/// What a chksum of the object at the path says: the checksum that is recorded, and nothing where no object is there. Fails for want of
/// memory alone.
pub fn sum_words(alloc: Global, tables: &Tables, path: &Path) -> Result<Texts, AllocError>
    requires made { IsMade tables.now }
    ensures is { (user : TextOf) → IfOk result (λ words. words ≡ words_of (grid_of tables.now) user (chksum_of path.now)) }
    ensures words { IfOk result (λ words. IsTrue (list_all is_word words)) }
{
    match tables.object_at(path) {
        None => Ok(Texts::from_vec(Vec::new(alloc))),
        Some(id) => match tables.object(id) {
            None => unreachable!(),
            Some(object) => {
                let word = digest_text(alloc, object.digest)?;
                let words = vec![in alloc; word]?;
                Ok(Texts::from_vec(words))
            }
        },
    }
}

//! The operation of a verb, as a call of a command.
ghost use Rattle.std.specs.Prelude.{◌≡◌, ℕ, ◌+◌, ◌^◌, ◌<◌, ◌≤◌, [], Err, IfOk, IsErrOf, IsTrue, true, vec_len};
ghost use Rattle.std.specs.List.{list_all};
ghost use Rattle.grid_outside.specs.Source.{SourceState};
ghost use Rattle.grid_model.specs.Applying.{IsMade, is_user};
ghost use Rattle.grid_model.specs.Names.{Text as TextOf};
ghost use Rattle.grid_model.specs.Operations.Table.{Operation, row};
ghost use Rattle.grid_model.specs.Orders.{works};
ghost use Rattle.grid_model.specs.RowGrids.{grid_of, user_name};
ghost use Rattle.grid_model.specs.Rows.{Cat};
ghost use Rattle.grid_model.specs.Working.{running, words_of};
ghost use Rattle.grid_model.specs.Writable.{is_word};
ghost use Rattle.grid_model.specs.declared.refusal.Refusal.{Refusal as RefusalOf};
ghost use Rattle.grid_deed.specs.Held.{IsHeld};
ghost use Rattle.row_run.specs.Verbs.{HasGoodWords, WorksBy};
ghost use Rattle.grid_headline.specs.Numbers.{last_vault};
ghost use Rattle.size_laws.specs.Within.{TakesAtMost};
ghost use Rattle.run_laws.specs.Around.{around};
ghost use Rattle.run_laws.specs.Ends.{MakesFile};
ghost use Rattle.run_laws.specs.Passes.{AreReady, CallsPass};
ghost use Rattle.service_run.specs.Steps.{IsStep};
ghost use Rattle.call_laws.specs.OneCall.{AreKeepable, AreShort, IsKeepable};
ghost use Rattle.deed_run.specs.Puts.{MayBeNoted, does_op};
ghost use Rattle.work_run.specs.Names.{changes_rows};
ghost use Rattle.work_run.specs.Next.{CanGoOn};
ghost use Rattle.work_run.specs.Verbs.{is_call};
ghost use Rattle.service_run.specs.declared.ending.Ending.{Ending};

use deed_run::{chksum, put, repl, sum_words};
use grid_journal::Store;
use grid_model::{Calls, Failure, Texts, Verb};
use grid_outside::{Ambient, Disk, Outside, Plugin, Sink, Wear};
use grid_tables::Tables;
use row_run::change_rows;
use service_run::{Command, Ending};
use std::alloc::{AllocError, Global};

/// What the operation of a verb says, where it is done. Fails for want of memory alone.
pub(crate) fn op_words(alloc: Global, tables: &Tables, verb: &Verb) -> Result<Texts, AllocError>
    requires made { IsMade tables.now }
    requires call { is_call verb.now ≡ true }
    ensures is { (body : TextOf) (op : Operation) (user : TextOf) → WorksBy verb.now body op →
        IfOk result (λ words. words ≡ words_of (grid_of tables.now) user op) }
    ensures words { IfOk result (λ words. IsTrue (list_all is_word words)) }
{
    match verb {
        Verb::ChkSum { path } => sum_words(alloc, tables, path),
        _ => Ok(Texts::from_vec(Vec::new(alloc))),
    }
}

/// Does the operation of a verb, for the user of the command, which is noted on main while its deed changes files. `body` is what a put
/// puts. The answer is how it came out, and an error ends the command.
pub(crate) fn work<D: Disk, K: Sink, A: Ambient, P: Plugin>(
    alloc: Global,
    store: &mut Store,
    outside: &mut Outside<D, A, P>,
    sink: &mut K,
    command: &mut Command,
    verb: &Verb,
    body: &[u8],
) -> Result<Result<(), Failure>, Ending>
    requires held { (kept : Cat) × IsHeld kept (D.disk outside.old.main) store.old }
    requires user { IsTrue (is_user store.old.cat command.old.user) }
    requires keepable { IsKeepable command.old × AreKeepable command.old [] }
    requires slots { store.old.cat.stores ≡ vec_len outside.old.stores }
    requires words { HasGoodWords verb.now }
    requires verb { (op : Operation) × WorksBy verb.now body.now op }
    requires call { is_call verb.now ≡ true }
    requires ready { AreReady D.disk P.plugin K.sink (2 ^ 65) (record { outside = outside.old; sink = sink.old }) }
    ensures step { (source : SourceState) (kept : Cat) (op : Operation) → IsHeld kept (D.disk outside.old.main) store.old → WorksBy verb.now body.now op →
        IsStep (around D.disk A.ambient P.plugin outside.old (K.sink sink.old) source) (around D.disk A.ambient P.plugin outside.new (K.sink sink.new) source)
        kept store.old command.old (running op) [] command.new store.new (does_op (user_name store.old.cat command.old.user) op) result }
    ensures next { IfOk result (λ ran. CanGoOn (D.disk outside.new.main) store.new command.new) }
    ensures name { IfOk result (λ ran. user_name store.new.cat command.new.user ≡ user_name store.old.cat command.old.user) }
    ensures stores { IfOk result (λ ran. store.new.cat.stores ≡ store.old.cat.stores) }
    // One that is refused whatever marks come calls nothing and changes nothing.
    ensures refused { (op : Operation) (r : RefusalOf) → WorksBy verb.now body.now op →
        row (grid_of store.old.cat) (user_name store.old.cat command.old.user) op ≡ Err r →
        (store.new ≡ store.old) × (outside.new ≡ outside.old) × (command.new ≡ command.old) }
    // Where it took no mark and left the grid as it was nothing more is staged.
    ensures quiet { IfOk result (λ ran. command.new.marks ≡ command.old.marks → grid_of store.new.cat ≡ grid_of store.old.cat →
        store.new.staged ≡ store.old.staged) }
    // The numbers of vault files run out only in an operation that makes files.
    ensures files { (op : Operation) (count place : ℕ) → WorksBy verb.now body.now op → IsErrOf result (Ending.Worn Wear.Vaults place) →
        MakesFile (works op count) }
    // One that makes files comes to an answer only where there is a number left for a file.
    ensures number { (op : Operation) → WorksBy verb.now body.now op → MakesFile (works op 0) →
        IfOk result (λ ran. store.old.cat.numbers.next_vault ≤ last_vault) }
    ensures passes { CallsPass D.disk P.plugin K.sink (IsErrOf result Ending.Disk) (IsErrOf result Ending.Sink)
        (record { outside = outside.old; sink = sink.old }) (record { outside = outside.new; sink = sink.new }) }
    ensures drawn { (each : ℕ) → TakesAtMost (grid_of store.old.cat) each → outside.new.moments ≤ outside.old.moments + each }
{
    are_short(command);
    dispatch(alloc, store, outside, sink, command, verb, body)
}

// The same, where the command may be noted.
fn dispatch<D: Disk, K: Sink, A: Ambient, P: Plugin>(
    alloc: Global,
    store: &mut Store,
    outside: &mut Outside<D, A, P>,
    sink: &mut K,
    command: &mut Command,
    verb: &Verb,
    body: &[u8],
) -> Result<Result<(), Failure>, Ending>
    requires held { (kept : Cat) × IsHeld kept (D.disk outside.old.main) store.old }
    requires user { IsTrue (is_user store.old.cat command.old.user) }
    requires noted { MayBeNoted command.old [] }
    requires slots { store.old.cat.stores ≡ vec_len outside.old.stores }
    requires words { HasGoodWords verb.now }
    requires verb { (op : Operation) × WorksBy verb.now body.now op }
    requires call { is_call verb.now ≡ true }
    requires ready { AreReady D.disk P.plugin K.sink (2 ^ 65) (record { outside = outside.old; sink = sink.old }) }
    ensures step { (source : SourceState) (kept : Cat) (op : Operation) → IsHeld kept (D.disk outside.old.main) store.old → WorksBy verb.now body.now op →
        IsStep (around D.disk A.ambient P.plugin outside.old (K.sink sink.old) source) (around D.disk A.ambient P.plugin outside.new (K.sink sink.new) source)
        kept store.old command.old (running op) [] command.new store.new (does_op (user_name store.old.cat command.old.user) op) result }
    // One that is refused whatever marks come calls nothing and changes nothing.
    ensures refused { (op : Operation) (r : RefusalOf) → WorksBy verb.now body.now op →
        row (grid_of store.old.cat) (user_name store.old.cat command.old.user) op ≡ Err r →
        (store.new ≡ store.old) × (outside.new ≡ outside.old) × (command.new ≡ command.old) }
    // Where it took no mark and left the grid as it was nothing more is staged.
    ensures quiet { IfOk result (λ ran. command.new.marks ≡ command.old.marks → grid_of store.new.cat ≡ grid_of store.old.cat →
        store.new.staged ≡ store.old.staged) }
    // The numbers of vault files run out only in an operation that makes files.
    ensures files { (op : Operation) (count place : ℕ) → WorksBy verb.now body.now op → IsErrOf result (Ending.Worn Wear.Vaults place) →
        MakesFile (works op count) }
    // One that makes files comes to an answer only where there is a number left for a file.
    ensures number { (op : Operation) → WorksBy verb.now body.now op → MakesFile (works op 0) →
        IfOk result (λ ran. store.old.cat.numbers.next_vault ≤ last_vault) }
    ensures passes { CallsPass D.disk P.plugin K.sink (IsErrOf result Ending.Disk) (IsErrOf result Ending.Sink)
        (record { outside = outside.old; sink = sink.old }) (record { outside = outside.new; sink = sink.new }) }
    ensures drawn { (each : ℕ) → TakesAtMost (grid_of store.old.cat) each → outside.new.moments ≤ outside.old.moments + each }
{
    if changes_rows(verb) {
        return change_rows(alloc, store, outside, sink, command, verb);
    }
    let none = no_calls(alloc);
    match verb {
        Verb::Put {
            path,
            resource,
            mode,
            count: _,
        } => put(
            alloc, store, outside, sink, command, path, resource, *mode, body, &none,
        ),
        Verb::Repl { path, resource } => repl(
            alloc, store, outside, sink, command, path, resource, &none,
        ),
        Verb::ChkSum { path } => chksum(alloc, store, outside, sink, command, path, &none),
        _ => unreachable!(),
    }
}

// Whether the operation of the verb changes rows alone, where it has one.
fn changes_rows(verb: &Verb) -> bool
    ensures { result ≡ changes_rows verb.now }
{
    match verb {
        Verb::Put {
            path: _,
            resource: _,
            mode: _,
            count: _,
        } => false,
        Verb::Repl {
            path: _,
            resource: _,
        } => false,
        Verb::ChkSum { path: _ } => false,
        _ => true,
    }
}

// A stop of an operation has nothing undone. It takes no memory.
fn no_calls(alloc: Global) -> Calls
    ensures { result ≡ [] }
{
    Calls::from_vec(Vec::new(alloc))
}

/// Lists in memory are no longer than that. It does nothing.
pub(crate) fn are_short(command: &Command)
    ensures { AreShort command.now [] }
{
    is_size(command.marks.as_slice().len());
    is_size(command.passed.as_slice().len());
}

// A number of items in memory is below 2^64. It does nothing.
fn is_size(len: usize)
    ensures { len < 2 ^ 64 }
{}

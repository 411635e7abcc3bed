//! What calls of micro-services come to in a small grid, and why they fail.

ghost use Rattle.grid_journal.specs.Journal.{HasSpelledRows, IsSpelledPending, can_be_kept};
ghost use Rattle.grid_model.specs.Applying.{IsMade};
ghost use Rattle.grid_model.specs.Names.{Text as TextOf};
ghost use Rattle.grid_model.specs.Words.{is_word_byte};
ghost use Rattle.grid_model.specs.Writable.{is_word};
ghost use Rattle.grid_model.specs.declared.calls.Call.{Call as CallOf};
ghost use Rattle.plan_service.specs.ServicePlans.{PlansCall};
ghost use Rattle.std.specs.List.{list_all};
ghost use Rattle.std.specs.Prelude.{◌≡◌, IfOk, IsTrue};

use super::owning::{Part, try_part};
use super::plans::has_no_metadata;
use super::start::user_of;
use grid_model::{Call, Delta, Deltas, Text, Texts};
use grid_tables::{TableError, Tables};
use plan_service::{ServiceError, ServicePlan, plan_call, words_are_added};
use std::alloc::{AllocError, Global};
use std::mem::forget;
use std::process::Abort;
use std::test::Fail;

// The call of a line: its name and its arguments, each behind one blank.
fn call_of(alloc: Global, line: &str) -> Result<Call, AllocError> {
    let mut words = Vec::new(alloc);
    for word in line.split(' ').skip(1) {
        words.push(Text::copy_of(alloc, word.as_bytes())?)?;
    }
    let name = line.split(' ').next().unwrap_or("");
    Ok(Call {
        name: Text::copy_of(alloc, name.as_bytes())?,
        args: Texts::from_vec(words),
    })
}

fn is_word_byte(byte: u8) -> bool
    ensures { result ≡ is_word_byte byte }
{
    byte >= 0x20 && byte != 0x7F
}

fn is_word(text: &Text) -> bool
    ensures { result ≡ is_word text.now }
{
    text.as_slice().iter().all(|byte| is_word_byte(*byte))
}

// Whether the arguments are words.
fn has_words(call: &Call) -> bool
    ensures { result ≡ list_all is_word call.now.args }
{
    call.args.as_slice().iter().all(|arg| is_word(arg))
}

// Whether no command is pending.
fn has_no_pending(tables: &Tables) -> bool
    ensures { IsTrue result → IsSpelledPending tables.now.pending }
{
    match tables.pending() {
        None => true,
        Some(_) => false,
    }
}

// What is planned of the administrator's call.
fn planned(
    rt: &impl Abort,
    alloc: Global,
    tables: &Tables,
    line: &str,
) -> Result<Result<ServicePlan, ServiceError>, Fail>
    requires made { IsMade tables.now }
    requires spelled { HasSpelledRows tables.now }
    ensures { IfOk result (λ planned. (user : TextOf) × (call : CallOf) × PlansCall tables.now user call planned) }
{
    let user = user_of(rt, alloc, tables, "rods")?;
    let call = call_of(alloc, line)?;
    let words = has_words(&call);
    assert!(rt; words);
    words_are_added(&call);
    Ok(plan_call(alloc, tables, user, &call))
}

// Makes changes that may be kept.
fn make_all(tables: &mut Tables, deltas: Deltas) -> Result<(), TableError>
    requires made { IsMade tables.old }
    requires spelled { HasSpelledRows tables.old }
    requires kept { IsTrue (list_all can_be_kept deltas) }
    ensures made { IsMade tables.new }
    ensures spelled { HasSpelledRows tables.new }
{
    for delta in deltas.into_vec() {
        make(tables, delta)?;
    }
    Ok(())
}

fn make(tables: &mut Tables, delta: Delta) -> Result<(), TableError>
    requires made { IsMade tables.old }
    requires spelled { HasSpelledRows tables.old }
    requires kept { IsTrue (can_be_kept delta) }
    ensures made { IsMade tables.new }
    ensures spelled { HasSpelledRows tables.new }
{
    tables.apply(delta)
}

// Does the call, which changes rows alone.
fn call(rt: &impl Abort, alloc: Global, tables: &mut Tables, line: &str) -> Result<(), Fail>
    requires made { IsMade tables.old }
    requires spelled { HasSpelledRows tables.old }
    ensures made { IsMade tables.new }
    ensures spelled { HasSpelledRows tables.new }
{
    match planned(rt, alloc, tables, line)? {
        Ok(ServicePlan::Changes(deltas)) => {
            make_all(tables, deltas)?;
            Ok(())
        }
        Ok(plan) => {
            forget(plan);
            Err(Fail::from("a deed"))
        }
        Err(error) => Err(Fail::from(error)),
    }
}

// Each change in a line of its own.
fn changes_shown(alloc: Global, deltas: &[Delta]) -> Result<String, AllocError> {
    let mut shown = String::new(alloc);
    for delta in deltas {
        shown = format!(in alloc; "{shown}{delta:?}\n")?;
    }
    Ok(shown)
}

fn plan_shown(alloc: Global, plan: &ServicePlan) -> Result<String, AllocError> {
    match plan {
        ServicePlan::Changes(deltas) => changes_shown(alloc, deltas.as_slice()),
        ServicePlan::Repl {
            path,
            resource,
            from,
        } => {
            let depth = path.names().len();
            format!(in alloc;
                "copy {} bytes, file {} in slot {}, of {depth} names to {resource:?}",
                from.size, from.name, from.slot
            )
        }
        ServicePlan::Chksum { path, files } => {
            let depth = path.names().len();
            let count = files.as_slice().len();
            format!(in alloc; "read {count} files of {depth} names")
        }
        ServicePlan::Copy {
            from,
            to,
            resource,
            file,
        } => {
            let (above, below) = (from.names().len(), to.names().len());
            format!(in alloc;
                "copy file {} in slot {} of {above} names to {below} names on {resource:?}",
                file.name, file.slot
            )
        }
    }
}

fn shown(rt: &impl Abort, alloc: Global, tables: &Tables, line: &str) -> Result<String, Fail>
    requires made { IsMade tables.now }
    requires spelled { HasSpelledRows tables.now }
{
    match planned(rt, alloc, tables, line)? {
        Ok(plan) => {
            let text = plan_shown(alloc, &plan);
            forget(plan);
            Ok(text?)
        }
        Err(error) => {
            let text = format!(in alloc; "{error:?}");
            forget(error);
            Ok(text?)
        }
    }
}

/// What each call comes to in the one small grid.
pub(crate) fn calls_come_to_what_is_wanted(
    rt: &impl Abort,
    alloc: Global,
    tables: &mut Tables,
) -> Result<(), Fail>
    requires { IsMade tables.old }
{
    let bare = has_no_metadata(tables);
    assert!(rt; bare);
    let is_done = has_no_pending(tables);
    assert!(rt; is_done);
    call(rt, alloc, tables, "msiCollCreate /z/home/rods/c")?;
    call(rt, alloc, tables, "msiAddAVU -C /z/home/rods/c a b u")?;
    for (line, wanted) in [
        ("nop", ""),
        ("nop x", "Failed(NoRule)"),
        (
            "msiCollCreate /z/home/rods/d",
            "Collection(CollectionRow { id: 5, parent: 3, name: Text { bytes: [100] }, inherit: false })
Entry(EntryRow { kind: Collection, id: 5, user: 1, level: Own })
",
        ),
        ("msiCollCreate /z/home/rods/c", "Failed(Refused(Exists))"),
        (
            "msiRmColl /z/home/rods/c",
            "NoTriple(TripleRow { kind: Collection, id: 4, attribute: Text { bytes: [97] }, value: Text { bytes: [98] }, unit: Text { bytes: [117] } })
NoEntry { kind: Collection, id: 4, user: 1 }
NoCollection { id: 4 }
",
        ),
        ("msiRmColl /z/home", "Failed(Refused(Fixed))"),
        (
            "msiDataObjRename /z/home/rods/c /z/home/d",
            "Collection(CollectionRow { id: 4, parent: 2, name: Text { bytes: [100] }, inherit: false })
",
        ),
        (
            "msiDataObjRename /z/home/rods/d /z/home/c",
            "Failed(Refused(NoObject))",
        ),
        (
            "msiDataObjRepl /z/home/rods/o d1",
            "copy 3 bytes, file 1 in slot 0, of 4 names to Text { bytes: [100, 49] }",
        ),
        (
            "msiDataObjRepl /z/home/rods/o d2",
            "Failed(Refused(NoResource))",
        ),
        ("msiDataObjChksum /z/home/rods/o", "read 1 files of 4 names"),
        ("msiDataObjChksum /z/home/rods", "Failed(Refused(NoObject))"),
        (
            "msiDataObjCopy /z/home/rods/o /z/home/rods/c/p d1",
            "copy file 1 in slot 0 of 4 names to 5 names on Text { bytes: [100, 49] }",
        ),
        (
            "msiDataObjCopy /z/home/rods/o /z/home/rods/o d1",
            "Failed(Refused(Exists))",
        ),
        (
            "msiDataObjTrim /z/home/rods/o d1",
            "NoReplica { object: 1, number: 1 }
Orphan(OrphanRow { vault: 2, slot: 0 })
",
        ),
        (
            "msiDataObjTrim /z/home/rods/o r",
            "Failed(Refused(LastGood))",
        ),
        (
            "msiDataObjUnlink /z/home/rods/o",
            "NoReplica { object: 1, number: 0 }
Orphan(OrphanRow { vault: 1, slot: 0 })
NoReplica { object: 1, number: 1 }
Orphan(OrphanRow { vault: 2, slot: 0 })
NoObject { id: 1 }
",
        ),
        (
            "msiDataObjUnlink /z/home/rods/c",
            "Failed(Refused(NoObject))",
        ),
        (
            "msiAddAVU -d /z/home/rods/o a b u",
            "Triple(TripleRow { kind: Object, id: 1, attribute: Text { bytes: [97] }, value: Text { bytes: [98] }, unit: Text { bytes: [117] } })
",
        ),
        (
            "msiAddAVU -C /z/home/rods/c a b u",
            "Failed(Refused(Exists))",
        ),
        (
            "msiAddAVU -R d0 a  u",
            "Failed(Refused(BadTriple { which: 1 }))",
        ),
        (
            "msiRmAVU -C /z/home/rods/c a b u",
            "NoTriple(TripleRow { kind: Collection, id: 4, attribute: Text { bytes: [97] }, value: Text { bytes: [98] }, unit: Text { bytes: [117] } })
",
        ),
        ("msiRmAVU -u rods a b u", "Failed(Refused(NoTriple))"),
        (
            "msiSetACL read public /z/home/rods/o",
            "Entry(EntryRow { kind: Object, id: 1, user: 2, level: Read })
",
        ),
        ("msiSetACL null public /z/home/rods/o", ""),
        (
            "msiSetACL own nobody /z/home/rods/o",
            "Failed(Refused(NoUser))",
        ),
        ("msiSetACL owner rods /z/home/rods/o", "Failed(NoRule)"),
        (
            "msiDataObjRename /z/home/rods/c c",
            "Failed(Refused(BadPath { at: 0 }))",
        ),
        ("cut", "Failed(NoRule)"),
    ] {
        let came = shown(rt, alloc, tables, line)?;
        assert_eq!(rt; came.as_str(), wanted, "{line}");
    }
    Ok(())
}

#[test]
fn micro_services(rt: HostRuntime) -> Result<(), Fail> {
    try_part(&rt, rt.alloc(), Part::Services)
}

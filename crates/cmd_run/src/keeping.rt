ghost use Rattle.std.specs.Prelude.{◌≡◌, ◌+◌, ◌≤◌, ◌∷◌, [], IfOk, IsErrOf, IsTrue};
ghost use Rattle.std.specs.List.{list_all};
ghost use Rattle.grid_model.specs.declared.deltas.Delta.TheVariants.{Rules as sets};
ghost use Rattle.grid_journal.specs.Journal.{MayBeKept, can_be_kept};
ghost use Rattle.grid_deed.specs.Frame.{IsReady, Frame};
ghost use Rattle.grid_deed.specs.Held.{IsHeld};
ghost use Rattle.grid_deed.specs.Safe.{KeepWhole};
ghost use Rattle.cmd_run.specs.Errors.{IsOfCommit, ending_of};
ghost use Rattle.cmd_run.specs.Keeps.{IsKeptSo};
ghost use Rattle.cmd_run.specs.Rules.{ruled};

use crate::{Ending, Server};
use grid_deed::{commit, stage};
use grid_journal::JournalError;
use grid_model::{Delta, Deltas, Numbers, Text};
use grid_outside::{Ambient, Disk, Outside, Plugin};
use std::alloc::{AllocError, Global};

impl Server {
    /// Keeps a text of rules as that of the catalogue, for the command of this number, in one commit.
    pub(crate) fn keep_rules<D: Disk, A: Ambient, P: Plugin>(
        &mut self,
        alloc: Global,
        outside: &mut Outside<D, A, P>,
        number: u64,
        text: Text,
    ) -> Result<(), Ending>
        requires held { IsHeld self.old.store.cat (D.disk outside.old.main) self.old.store }
        requires text { MayBeKept (sets text) }
        requires ready { IsReady D.disk P.plugin 4 outside.old }
        ensures kept { IsKeptSo self.old.store.cat (ruled number text self.old.store.cat)
            outside.old.moments (D.disk outside.old.main) (D.disk outside.new.main) result self.new }
        ensures whole { KeepWhole P.plugin outside.old.moments self.old.store.cat
            (D.disk outside.old.main) (D.disk outside.new.main) outside.old.stores.items outside.new.stores.items }
        ensures frame { Frame D.disk P.plugin (IsErrOf result Ending.Disk) outside.old outside.new }
        ensures sessions { self.new.sessions ≡ self.old.sessions }
        ensures rules { self.new.rules ≡ self.old.rules }
        ensures stores { outside.new.stores ≡ outside.old.stores }
        ensures drawn { outside.new.moments ≤ outside.old.moments + 4 }
    {
        let numbers = Numbers {
            last: number,
            ..self.store.tables().numbers()
        };
        let Ok(rules) = rules_alone(alloc, text) else {
            return Err(Ending::Memory);
        };
        let Ok(last) = numbers_alone(alloc, numbers) else {
            return Err(Ending::Memory);
        };
        match stage(alloc, &mut self.store, outside, rules) {
            Ok(()) => {}
            Err(AllocError) => return Err(Ending::Memory),
        }
        match commit(alloc, &mut self.store, outside, last) {
            Ok(()) => Ok(()),
            Err(error) => Err(ending_of(error)),
        }
    }
}

// The change to this text of rules. Fails for want of memory alone.
fn rules_alone(alloc: Global, text: Text) -> Result<Deltas, AllocError>
    ensures { IfOk result (λ list. list ≡ sets text ∷ []) }
{
    let list = vec![in alloc; Delta::Rules { text }]?;
    Ok(Deltas::from_vec(list))
}

// The change to these numbers. Fails for want of memory alone.
fn numbers_alone(alloc: Global, numbers: Numbers) -> Result<Deltas, AllocError>
    ensures is { IfOk result (λ list. list ≡ Delta.Numbers numbers ∷ []) }
    ensures spelled { IfOk result (λ list. IsTrue (list_all can_be_kept list)) }
{
    let list = vec![in alloc; Delta::Numbers(numbers)]?;
    Ok(Deltas::from_vec(list))
}

/// How a run ends whose commit failed so.
pub(crate) fn ending_of(error: JournalError) -> Ending
    requires { IsOfCommit error }
    ensures { result ≡ ending_of error }
{
    match error {
        JournalError::Memory => Ending::Memory,
        JournalError::DiskFault => Ending::Disk,
        JournalError::Worn { what, at } => Ending::Worn { what, at },
        JournalError::NotEmpty { side: _, len: _ } => unreachable!(),
        JournalError::NotACatalogue { side: _, at: _ } => unreachable!(),
    }
}

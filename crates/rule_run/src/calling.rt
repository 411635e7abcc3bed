//! The server as what does the calls of a command.
ghost use Rattle.std.specs.Prelude.{◌≡◌};
ghost use Rattle.service_run.specs.Commands.{place_by};
ghost use Rattle.service_run.specs.declared.ending.Ending.TheVariants as ending;
ghost use Rattle.rule_run.specs.Calls.{Chain, MayGoOn, none};
ghost use Rattle.std.proofs.Common.{refl};

use crate::sizing::recorded_size;
use crate::spelling::{are_short, are_spelled};
use chain_run::Doer;
use grid_journal::Store;
use grid_model::{Call, Calls, Failure, Text};
use grid_outside::{Ambient, Disk, Outside, Plugin, Sink};
use service_run::{Command, Ending, run_call};
use std::alloc::{AllocError, Global};
use undo_run::undo_one;

/// The catalogue, the devices and the command whose calls are made, and how many calls more may be made.
#[derive(Drop)]
pub struct Calling<'a, D, K, A, P> {
    pub alloc: Global,
    pub store: &'a mut Store,
    pub outside: &'a mut Outside<D, A, P>,
    pub sink: &'a mut K,
    pub command: &'a mut Command,
    pub left: u64,
}

/// No call was made yet, and so many may be made.
pub(crate) fn begin_calls<'a, D: Disk, K: Sink, A: Ambient, P: Plugin>(
    alloc: Global,
    store: &'a mut Store,
    outside: &'a mut Outside<D, A, P>,
    sink: &'a mut K,
    command: &'a mut Command,
    left: u64,
) -> Calling<'a, D, K, A, P>
    ensures store { (result.store.ghost_name ≡ store.entry.ghost_name) × (result.store.now ≡ store.old) }
    ensures outside { (result.outside.ghost_name ≡ outside.entry.ghost_name) × (result.outside.now ≡ outside.old) }
    ensures sink { (result.sink.ghost_name ≡ sink.entry.ghost_name) × (result.sink.now ≡ sink.old) }
    ensures command { (result.command.ghost_name ≡ command.entry.ghost_name) × (result.command.now ≡ command.old) }
    ensures left { result.left ≡ left }
{
    Calling {
        alloc,
        store,
        outside,
        sink,
        command,
        left,
    }
}

impl<D: Disk, K: Sink, A: Ambient, P: Plugin> Doer for Calling<'_, D, K, A, P> {
    type Stop = Ending;

    ghost place = { λ c. place_by c.store.now.cat c.command.now };

    ghost went = { λ c calls d. Chain D.disk A.ambient P.plugin K.sink
        (record { seen = record { outside = c.outside.now; sink = c.sink.now }; rows = c.store.now; command = c.command.now; left = c.left })
        calls (record { seen = record { outside = d.outside.now; sink = d.sink.now }; rows = d.store.now; command = d.command.now; left = d.left })
        × (d.store.ghost_name ≡ c.store.ghost_name) × (d.outside.ghost_name ≡ c.outside.ghost_name)
        × (d.sink.ghost_name ≡ c.sink.ghost_name) × (d.command.ghost_name ≡ c.command.ghost_name) };

    ghost no_size = { λ c stop. stop ≡ ending.Memory };

    ghost ready = { λ c. MayGoOn D.disk A.ambient P.plugin K.sink
        (record { seen = record { outside = c.outside.now; sink = c.sink.now }; rows = c.store.now; command = c.command.now; left = c.left }) };

    ghost begins = { λ c. (none refl refl, refl, refl, refl, refl) };

    fn size_at(&self, path: &Text) -> Result<u64, Ending> {
        match recorded_size(self.alloc, self.store.tables(), path) {
            Ok(size) => Ok(size),
            Err(AllocError) => Err(Ending::Memory),
        }
    }

    // No text that was read has bytes that are not shown, and calls are never all made: what is refused here never comes.
    fn perform(&mut self, call: &Call, undo: &Calls) -> Result<Result<(), Failure>, Ending> {
        if self.left == 0 {
            return Err(Ending::Memory);
        }
        if !are_spelled(call, undo) {
            return Err(Ending::Memory);
        }
        are_short(self.command, undo);
        self.left -= 1;
        run_call(
            self.alloc,
            self.store,
            self.outside,
            self.sink,
            self.command,
            call,
            undo,
        )
    }

    // The same is refused here.
    fn undo(&mut self, call: &Call, undo: &Calls) -> Result<Option<Failure>, Ending> {
        if self.left == 0 {
            return Err(Ending::Memory);
        }
        if !are_spelled(call, undo) {
            return Err(Ending::Memory);
        }
        are_short(self.command, undo);
        self.left -= 1;
        undo_one(
            self.alloc,
            self.store,
            self.outside,
            self.sink,
            self.command,
            call,
            undo,
        )
    }
}

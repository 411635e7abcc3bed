// A doer on an empty grid, which notes what it is asked to do.
ghost use Rattle.std.specs.Prelude.{◌≡◌, ◌++◌, ◌∷◌, [], IfOk, OnOk};

use crate::calls::{KnownCall, look_up};
use chain_run::Doer;
use grid_model::{Call, Calls, Failure, Refusal, Text, Texts};
use std::alloc::{AllocError, AllocFailed, Global};

/// Why a call was not done.
#[derive(Clone, Copy, Debug, PartialEq, Eq)]
pub(crate) enum Unable {
    Memory,
    /// There is nothing on the grid to do it with.
    NothingThere,
}

impl From<AllocError> for Unable {
    fn from(_: AllocError) -> Unable {
        Unable::Memory
    }
}

impl<T: Drop> From<AllocFailed<T>> for Unable {
    fn from(_: AllocFailed<T>) -> Unable {
        Unable::Memory
    }
}

/// The doer: a `nop` is done, what wants a path is refused an empty text, and all else stops it.
#[derive(Drop)]
pub(crate) struct Player {
    alloc: Global,
    pub(crate) user: Text,
    /// The names of the calls, those of recoveries behind a minus.
    pub(crate) trace: Vec<u8>,
    /// The recoveries that were refused.
    pub(crate) refused: Vec<Call>,
}

/// A copy of some texts. Fails for want of memory alone.
fn copy_texts(alloc: Global, texts: &Texts) -> Result<Texts, AllocError>
    ensures { IfOk result (λ copy. copy ≡ texts.now) }
{
    let mut copy = Vec::new(alloc);
    for text in texts.as_slice() {
        copy.push(Text::copy_of(alloc, text.as_slice())?)?;
    }
    Ok(Texts::from_vec(copy))
}

/// A copy of a call. Fails for want of memory alone.
fn copy_call(alloc: Global, call: &Call) -> Result<Call, AllocError>
    ensures { IfOk result (λ copy. copy ≡ call.now) }
{
    let name = Text::copy_of(alloc, call.name.as_slice())?;
    let args = copy_texts(alloc, &call.args)?;
    Ok(Call { name, args })
}

impl Player {
    /// One that works for this user, and was asked for nothing yet.
    pub(crate) fn new(alloc: Global, user: Text) -> Player
        ensures { result.user ≡ user }
    {
        Player {
            alloc,
            user,
            trace: Vec::new(alloc),
            refused: Vec::new(alloc),
        }
    }

    /// Notes a call.
    fn note(&mut self, sign: &[u8], call: &Call) -> Result<(), AllocError>
        ensures user { self.new.user ≡ self.old.user }
        ensures refused { self.new.refused.items ≡ self.old.refused.items }
    {
        self.trace.extend_from_slice(sign)?;
        self.trace.extend_from_slice(call.name.as_slice())?;
        self.trace.extend_from_slice(b" ")
    }

    /// Notes a recovery that was refused.
    fn pass(&mut self, call: &Call) -> Result<(), AllocError>
        ensures user { self.new.user ≡ self.old.user }
        ensures refused { OnOk result (self.new.refused.items ≡ self.old.refused.items ++ call.now ∷ []) }
    {
        let copy = copy_call(self.alloc, call)?;
        self.refused.push(copy)?;
        Ok(())
    }
}

impl Doer for Player {
    ghost use Rattle.chain_run.specs.Calls.{Made};
    ghost use Rattle.chain_run.specs.Places.{Place};
    ghost use Rattle.text_cases.specs.Known.{empty_grid, noted_as};
    ghost use Rattle.std.specs.Prelude.{refl};

    type Stop = Unable;

    ghost place = { λ p. record { user = p.user; grid = empty_grid; taken = []; passed = noted_as p.refused.items } };

    ghost went = { λ from _ to. to.user ≡ from.user };

    ghost no_size = { λ _ _. Unit {0} };

    ghost begins = { λ _. refl };

    ghost ready = { λ _. Unit {0} };

    fn size_at(&self, _path: &Text) -> Result<u64, Unable> {
        Ok(0)
    }

    fn perform(&mut self, call: &Call, _undo: &Calls) -> Result<Result<(), Failure>, Unable> {
        self.note(b"", call)?;
        match look_up(call) {
            KnownCall::Nop => Ok(Ok(())),
            KnownCall::NoPath => Ok(Err(Failure::Refused(Refusal::BadPath { at: 0 }))),
            KnownCall::Other => Err(Unable::NothingThere),
        }
    }

    fn undo(&mut self, call: &Call, _undo: &Calls) -> Result<Option<Failure>, Unable> {
        self.note(b"-", call)?;
        match look_up(call) {
            KnownCall::Nop => Ok(None),
            KnownCall::NoPath => {
                self.pass(call)?;
                Ok(Some(Failure::Refused(Refusal::BadPath { at: 0 })))
            }
            KnownCall::Other => Err(Unable::NothingThere),
        }
    }
}

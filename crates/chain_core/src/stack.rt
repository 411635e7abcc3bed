ghost use Rattle.std.proofs.Common.{rules};
ghost use Rattle.std.specs.Prelude.{◌≡◌, ◌++◌, ◌∷◌, [], drop, length, OnOk, IfNone, MatchOption};
ghost use Rattle.std.specs.Option.{option_to_list};

use grid_model::{Text, Texts};
use std::alloc::{AllocError, Global};
use std::marker::Model;

/// A rule that is being run.
#[derive(Drop)]
pub struct Frame {
    /// The name by which it was called.
    pub name: Text,
    pub args: Texts,
    /// Where it stands among the rules.
    pub rule: usize,
    /// Which step is next.
    pub step: usize,
    /// How many recoveries were fixed before its chain began.
    pub base: usize,
    /// It met its `cut`.
    pub cut: bool,
}

/// Rules that wait for a step of theirs. Contracts see them from the innermost one outwards.
#[derive(Drop)]
pub struct Stack {
    frames: Vec<Frame>,
}

impl Model for Stack {
    ghost use Rattle.std.specs.Prelude.{List};
    ghost use Rattle.std.specs.Prelude.{reverse};
    ghost use Rattle.chain_core.specs.declared.stack.Frame.{Frame};

    ghost Value = { List Frame };

    ghost view = { λ s. reverse s.frames.items };
}

impl Stack {
    /// None. It takes no memory.
    pub fn new(alloc: Global) -> Stack
        ensures { result ≡ [] }
    {
        Stack {
            frames: Vec::new(alloc),
        }
    }

    /// How many there are.
    pub fn len(&self) -> usize
        ensures { result ≡ length self.now }
    {
        self.frames.len()
    }

    /// One more, further in. Fails for want of memory alone.
    pub fn push(&mut self, frame: Frame) -> Result<(), AllocError>
        ensures { OnOk result (self.new ≡ frame ∷ self.old) }
    {
        Ok(self.frames.push(frame)?)
    }

    /// The innermost one, taken away.
    pub fn pop(&mut self) -> Option<Frame>
        ensures taken { self.old ≡ option_to_list result ++ self.new }
        ensures none { IfNone result (self.old ≡ []) }
    {
        self.frames.pop()
    }

    /// The innermost one.
    pub fn innermost(&self) -> Option<&Frame>
        ensures { MatchOption result (self.now ≡ []) (λ frame. self.now ≡ frame.now ∷ drop 1 self.now) }
    {
        self.frames.as_slice().last()
    }

    /// None are left.
    pub fn clear(&mut self)
        ensures { self.new ≡ [] }
    {
        self.frames.clear();
    }
}
